//! Rows over `op_steps`: what a call is told of a section that was refused.

use crate::data_rows::id_of;
use crate::entries::count_of;
use call_types::{FileKind, KeyRefusal, Refusal, VersionName, Why, Whys};
use op_steps::{call_refusal, section_refusal};
use register_core::QuorumFault;
use seal_file::Damage;
use slot_core::SlotFault;
use stamp_id::Ballot;
use std::alloc::Global;
use trial_base::{NoAnswer, first, said, word};
use trial_rig::{Line, say_refusal};

/// Why a drive served or not, by its letter.
fn why_of(letter: u8) -> Result<Why, NoAnswer> {
    match letter {
        b'g' => Ok(Why::Good),
        b'f' => Ok(Why::Failed {
            before: 0,
            after: 1,
        }),
        b'd' => Ok(Why::Damaged(Damage::Short(35))),
        b'b' => Ok(Why::Behind(Ballot { term: 1, seq: 1 })),
        b'l' => Ok(Why::Lacks(FileKind::Register)),
        _ => Err(NoAnswer),
    }
}

/// The drives of these letters.
fn whys_of(letters: &str) -> Result<Whys, NoAnswer> {
    let letters = letters.as_bytes();
    if letters.is_empty() || letters.len() > 16 {
        return Err(NoAnswer);
    }
    let mut whys = Whys::all_good(letters.len() as u8);
    for (place, letter) in letters.iter().enumerate() {
        let why = why_of(*letter)?;
        if place < whys.len() {
            whys.set(place, why);
        }
    }
    Ok(whys)
}

/// Why the state of a key refuses a call, by its name.
fn key_refusal_of(words: &str) -> Result<KeyRefusal, NoAnswer> {
    match word(words, 2) {
        "NoSuchKey" => Ok(KeyRefusal::NoSuchKey { marker: None }),
        "NoSuchVersion" => Ok(KeyRefusal::NoSuchVersion),
        "MarkerNamed" => Ok(KeyRefusal::MarkerNamed {
            id: VersionName::Id(id_of(word(words, 3))?),
            modified: count_of(word(words, 4))?,
        }),
        "VersionLimit" => Ok(KeyRefusal::VersionLimit),
        "NoSuchUpload" => Ok(KeyRefusal::NoSuchUpload),
        "InvalidPart" => Ok(KeyRefusal::InvalidPart),
        "PartOrder" => Ok(KeyRefusal::PartOrder),
        "PartSmall" => Ok(KeyRefusal::PartSmall),
        "UploadLimit" => Ok(KeyRefusal::UploadLimit),
        _ => Err(NoAnswer),
    }
}

/// A number below 256.
fn small_of(word: &str) -> Result<u8, NoAnswer> {
    match word.parse::<u8>() {
        Ok(number) => Ok(number),
        Err(_) => Err(NoAnswer),
    }
}

/// What a call is told, `nothing` where no refusal is due.
fn told(alloc: Global, refusal: Option<Refusal>) -> Result<String, NoAnswer> {
    let mut line = Line::new(alloc);
    match &refusal {
        None => line.say("nothing"),
        Some(refusal) => say_refusal(&mut line, refusal),
    }
    drop(refusal);
    line.into_answer()
}

/// `section_refusal FAULT`: what is told of a section that is no commit.
fn of_section(alloc: Global, fault: SlotFault) -> Result<String, NoAnswer> {
    told(alloc, section_refusal(&fault))
}

/// `call_refusal FAULT`: what is told of a commit.
fn of_commit(alloc: Global, fault: SlotFault) -> Result<String, NoAnswer> {
    told(alloc, call_refusal(&fault))
}

/// What is told of a section, or of a commit, that was refused so.
fn told_of(alloc: Global, words: &str, fault: SlotFault) -> Result<String, NoAnswer> {
    match first(words).0 {
        "section_refusal" => of_section(alloc, fault),
        "call_refusal" => of_commit(alloc, fault),
        _ => said(alloc, "no such call"),
    }
}

/// What a row over `op_steps` is answered.
pub fn answer(alloc: Global, words: &str) -> Result<String, NoAnswer> {
    let fault = match word(words, 1) {
        "key" => SlotFault::Key(key_refusal_of(words)?),
        "spent" => SlotFault::SeqSpent,
        "audit" => SlotFault::AuditFailed {
            before: count_of(word(words, 2))?,
            after: count_of(word(words, 3))?,
        },
        "memory" => SlotFault::NoMemory,
        "flight" => SlotFault::NotInFlight(id_of(word(words, 2))?),
        "read" => SlotFault::Quorum(QuorumFault::ReadQuorum(whys_of(word(words, 2))?)),
        "write" => SlotFault::Quorum(QuorumFault::WriteQuorum(whys_of(word(words, 2))?)),
        "undecided" => SlotFault::Quorum(QuorumFault::Undecided {
            k: small_of(word(words, 2))?,
            u: small_of(word(words, 3))?,
            whys: whys_of(word(words, 4))?,
        }),
        "register_memory" => SlotFault::Quorum(QuorumFault::NoMemory),
        _ => return Err(NoAnswer),
    };
    told_of(alloc, words, fault)
}
