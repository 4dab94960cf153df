//! Deeds by their words.

ghost use Rattle.std.specs.Prelude.{◌≤◌, IfOk, length};
ghost use Rattle.version_list.specs.State.{IsMoment};
ghost use Rattle.slot_rules.specs.Deeds.{IsLawfulDeed, IsNamedDeed, IsOfNoPart, name_of};
ghost use Rattle.drive_base.specs.declared.drive.TheConstants.{LONGEST_NAME};

use crate::key_of;
use crate::lives::count_of;
use call_types::{Act, Mode, Pick};
use seal_file::Text;
use slot_core::{Commit, Flight};
use stamp_id::VersionId;
use std::alloc::Global;
use trial_base::{NoAnswer, word};

/// A second, of those that the store writes down.
pub fn moment_of(word: &str) -> Result<u64, NoAnswer>
    ensures { IfOk result IsMoment }
{
    let now = count_of(word)?;
    if now >= 253_402_300_800 {
        return Err(NoAnswer);
    }
    Ok(now)
}

/// A mode by its word.
pub fn mode_of(word: &str) -> Result<Mode, NoAnswer> {
    match word {
        "never" => Ok(Mode::Never),
        "enabled" => Ok(Mode::Enabled),
        "suspended" => Ok(Mode::Suspended),
        _ => Err(NoAnswer),
    }
}

/// Which version is asked for: `current`, `null`, or its id as S3 spells it.
pub fn pick_of(word: &str) -> Result<Pick, NoAnswer> {
    match word {
        "current" => Ok(Pick::Current),
        "null" => Ok(Pick::Null),
        _ => match VersionId::parse(word) {
            Ok(id) => Ok(Pick::Id(id)),
            Err(_) => Err(NoAnswer),
        },
    }
}

/// The deed `put BUCKET/KEY MODE LENGTH`, with data under this id.
fn put_deed(alloc: Global, id: VersionId, words: &str) -> Result<Commit, NoAnswer>
    ensures no_part { IfOk result IsOfNoPart }
    ensures lawful { IfOk result IsLawfulDeed }
    ensures named { IfOk result IsNamedDeed }
    ensures short { IfOk result (λ deed. length (name_of deed) ≤ LONGEST_NAME) }
{
    let mode = mode_of(word(words, 6))?;
    let length = count_of(word(words, 7))?;
    let kind = Text::from_slice(alloc, b"text/plain")?;
    let at = key_of(alloc, word(words, 5))?;
    let act = Act::Put {
        data_id: id,
        print: [1; 32],
        length,
        md5: [2; 16],
        kind,
    };
    Ok(Commit::Key { at, mode, act })
}

/// The deed `delete BUCKET/KEY MODE PICK`.
fn delete_deed(alloc: Global, words: &str) -> Result<Commit, NoAnswer>
    ensures no_part { IfOk result IsOfNoPart }
    ensures lawful { IfOk result IsLawfulDeed }
    ensures named { IfOk result IsNamedDeed }
    ensures short { IfOk result (λ deed. length (name_of deed) ≤ LONGEST_NAME) }
{
    let mode = mode_of(word(words, 6))?;
    let pick = pick_of(word(words, 7))?;
    let at = key_of(alloc, word(words, 5))?;
    let act = Act::Delete(pick);
    Ok(Commit::Key { at, mode, act })
}

/// The deed `make BUCKET` or `mode BUCKET MODE`.
fn bucket_deed(alloc: Global, words: &str) -> Result<Commit, NoAnswer>
    ensures no_part { IfOk result IsOfNoPart }
    ensures lawful { IfOk result IsLawfulDeed }
    ensures named { IfOk result IsNamedDeed }
    ensures short { IfOk result (λ deed. length (name_of deed) ≤ LONGEST_NAME) }
{
    let name = word(words, 5);
    if name.len() > 63 {
        return Err(NoAnswer);
    }
    let bucket = Text::from_slice(alloc, name.as_bytes())?;
    match (word(words, 4), word(words, 6)) {
        ("make", _) => Ok(Commit::MakeBucket(bucket)),
        ("mode", "enabled") => Ok(Commit::SetMode(bucket, Mode::Enabled)),
        ("mode", "suspended") => Ok(Commit::SetMode(bucket, Mode::Suspended)),
        _ => Err(NoAnswer),
    }
}

/// The deed of a commit; that of a put brings the data of its flight.
pub fn deed_of(alloc: Global, flight: &Option<Flight>, words: &str) -> Result<Commit, NoAnswer>
    ensures no_part { IfOk result IsOfNoPart }
    ensures lawful { IfOk result IsLawfulDeed }
    ensures named { IfOk result IsNamedDeed }
    ensures short { IfOk result (λ deed. length (name_of deed) ≤ LONGEST_NAME) }
{
    match (word(words, 4), flight) {
        ("put", Some(flight)) => put_deed(alloc, flight.id(), words),
        ("delete", _) => delete_deed(alloc, words),
        _ => bucket_deed(alloc, words),
    }
}
