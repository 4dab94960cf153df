//! What the formats of the drives say.

ghost use Rattle.std.specs.Prelude.{◌≡◌, ◌↔◌, ◌<◌, IsTrue, length};
ghost use Rattle.term_gate.specs.Deciding.{AllAnswered, AllGood, AreAbsent, ChecksSet, HasIfAbsent, IsTop, term_of};

use crate::record::{Format, format_of, is_of};
use crate::refusal::OpenRefusal;
use call_types::{FileKind, Why, Whys};
use drive_base::{DriveSet, SetPlan};

/// The greatest term of the formats, 0 where there is none.
#[tactic(auto, using(crate::proofs::DecidingLemmas::top_more))]
pub fn top_of(formats: &[Option<Format>]) -> u64
    ensures { IsTop formats.now result }
{
    let mut top = 0;
    for format in formats {
        top = term_of(format).max(top);
    }
    top
}

/// The term of a format, 0 where there is none.
fn term_of(format: &Option<Format>) -> u64
    ensures { result ≡ term_of format.now }
{
    match format {
        Some(format) => format.term,
        None => 0,
    }
}

/// Whether each format is that of its drive in this set. The first that isn't is refused with `WrongSet`.
pub fn check_set(set: &SetPlan, formats: &[Option<Format>]) -> Result<(), OpenRefusal>
    requires { length formats.now ≡ set.now.drives }
    ensures { ChecksSet set.now formats.now result }
{
    for index in 0..set.drives {
        if let Some(found) = formats[index as usize] {
            if !is_of(&found, set, index) {
                let wanted = format_of(set, index, 0);
                return Err(OpenRefusal::WrongSet { found, wanted });
            }
        }
    }
    Ok(())
}

/// The drives that have no format.
#[tactic(auto, using(crate::proofs::DecidingLemmas::absent_more))]
pub fn absent_of(whys: &Whys) -> DriveSet
    ensures { AreAbsent whys.now result }
{
    let mut absent = DriveSet::none();
    for index in 0..whys.len() {
        absent = with_absent(absent, index as u8, whys.get(index));
    }
    absent
}

/// A set with this drive also, where the drive has no format.
fn with_absent(absent: DriveSet, index: u8, why: Why) -> DriveSet
    requires { index < 16 }
    ensures { HasIfAbsent absent index why result }
{
    if let Why::Lacks(FileKind::Format) = why {
        return absent.with(index);
    }
    absent
}

/// Whether each drive gave a good format or has none.
pub fn have_answered(whys: &Whys) -> bool
    ensures { IsTrue result ↔ AllAnswered whys.now }
{
    for index in 0..whys.len() {
        if !matches!(whys.get(index), Why::Good | Why::Lacks(FileKind::Format)) {
            return false;
        }
    }
    true
}

/// Whether each letter is good.
pub fn are_good(whys: &Whys) -> bool
    ensures { IsTrue result ↔ AllGood whys.now }
{
    for index in 0..whys.len() {
        if !whys.get(index).is_good() {
            return false;
        }
    }
    true
}
