//! Words of rows that several crates share: numbers, sets, letters and causes.

use call_types::{FileKind, Why, Whys};
use drive_base::SetPlan;
use register_core::QuorumFault;
use seal_file::Damage;
use std::alloc::Global;
use trial_base::{NoAnswer, said, said_number};

/// A number below 2^16.
pub fn amount(word: &str) -> Result<u16, NoAnswer> {
    match word.parse::<u16>() {
        Ok(number) => Ok(number),
        Err(_) => Err(NoAnswer),
    }
}

/// A number below 2^8.
pub fn small(word: &str) -> Result<u8, NoAnswer> {
    match word.parse::<u8>() {
        Ok(number) => Ok(number),
        Err(_) => Err(NoAnswer),
    }
}

/// The set of so many drives, of which so many are parity, whose id is this byte sixteen times.
pub fn plan(id: u8, drives: u8, parity: u8) -> Result<SetPlan, NoAnswer> {
    if drives < 4 || drives > 16 || parity < 1 || parity > 8 || parity + parity > drives {
        return Err(NoAnswer);
    }
    Ok(SetPlan::new([id; 16], drives, parity))
}

/// The letters of drives in their order, behind these words.
pub fn letters(alloc: Global, words: &str, whys: &Whys) -> Result<String, NoAnswer> {
    let mut place = [0; 16];
    match str::from_utf8(whys.letters(&mut place)) {
        Ok(letters) => Ok(format!(in alloc; "{words}{letters}")?),
        Err(_) => Err(NoAnswer),
    }
}

/// A content in quotes.
pub fn quoted(alloc: Global, content: &[u8]) -> Result<String, NoAnswer> {
    match str::from_utf8(content) {
        Ok(text) => Ok(format!(in alloc; "'{text}'")?),
        Err(_) => Err(NoAnswer),
    }
}

/// Why a call of a register was refused.
pub fn fault(alloc: Global, fault: QuorumFault) -> Result<String, NoAnswer> {
    match fault {
        QuorumFault::ReadQuorum(whys) => letters(alloc, "read quorum ", &whys),
        QuorumFault::WriteQuorum(whys) => letters(alloc, "write quorum ", &whys),
        QuorumFault::Undecided { k, u, whys } => {
            let words = format!(in alloc; "undecided, {k} have it, {u} unread, ")?;
            letters(alloc, words.as_str(), &whys)
        }
        QuorumFault::NoMemory => Err(NoAnswer),
    }
}

/// What is wrong with a file.
fn damage(alloc: Global, damage: Damage) -> Result<String, NoAnswer> {
    match damage {
        Damage::Short(length) => said_number(alloc, "damaged, short of ", length),
        Damage::Digest { .. } => said(alloc, "damaged, of another digest"),
        Damage::Kind(_) => said(alloc, "damaged, of another kind"),
        Damage::Spelling(place) => said_number(alloc, "damaged, misspelled at ", place),
        Damage::Long(length) => said_number(alloc, "damaged, longer than lawful with ", length),
    }
}

/// The name of a kind of files.
fn kind(kind: FileKind) -> &'static str {
    match kind {
        FileKind::Format => "format",
        FileKind::Register => "register",
        FileKind::Manifest => "manifest",
        FileKind::Shard => "shard",
    }
}

/// Why a drive served a call or did not, as a whole.
pub fn cause(alloc: Global, why: Why) -> Result<String, NoAnswer> {
    match why {
        Why::Good => said(alloc, "good"),
        Why::Failed { before, after } => {
            Ok(format!(in alloc; "failed, {before} faults and then {after}")?)
        }
        Why::Damaged(of) => damage(alloc, of),
        Why::Behind(_) => said(alloc, "behind"),
        Why::Lacks(of) => Ok(format!(in alloc; "lacks its {}", kind(of))?),
    }
}
