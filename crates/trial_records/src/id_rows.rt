//! Rows over `stamp_id`.

use field_reader::{Fields, Misspelled};
use stamp_id::{Ballot, ChangeId, NotAnId, VersionId, rank, rank_laws, spelling_laws, take_id};
use std::alloc::Global;
use trial_base::{Names, NoAnswer, bytes, first, number, said, said_bytes, said_number, word};

/// The ballot `TERM SEQ`, if there is such a one.
fn ballot(term: u64, seq: u64) -> Option<Ballot> {
    if term >= 1 << 48 || seq >= 1 << 62 {
        return None;
    }
    Some(Ballot { term, seq })
}

/// The id `TERM SLOT SEQ`, if there is such a one.
fn id(row: &str) -> Option<VersionId> {
    let (term, slot, seq) = (
        number(word(row, 0)),
        number(word(row, 1)),
        number(word(row, 2)),
    );
    if term == 0 || term >= 1 << 48 || seq == 0 || seq >= 1 << 62 || slot >= 64 {
        return None;
    }
    Some(VersionId::from_parts(ChangeId(Ballot { term, seq }), slot as u8))
}

/// The id of term 1, slot 5 and seq 7.
pub fn first_id() -> VersionId {
    VersionId::from_parts(ChangeId(Ballot { term: 1, seq: 7 }), 5)
}

/// The id of 16 bytes, if they are those of one.
pub fn id_of(content: &[u8]) -> Option<VersionId> {
    match content.first_chunk::<16>() {
        Some(bytes) => VersionId::from_bytes(*bytes).ok(),
        None => None,
    }
}

/// An id as `TERM SLOT SEQ`.
pub fn parts(alloc: Global, id: VersionId) -> Result<String, NoAnswer> {
    let VersionId {
        change: ChangeId(Ballot { term, seq }),
        slot,
    } = id;
    Ok(format!(in alloc; "{term} {slot} {seq}")?)
}

/// `text TERM SLOT SEQ`
fn text(alloc: Global, row: &str) -> Result<String, NoAnswer> {
    match id(row) {
        Some(id) => Ok(id.text(alloc)?),
        None => said(alloc, "no such id"),
    }
}

/// `bytes TERM SLOT SEQ`
fn id_bytes(alloc: Global, row: &str) -> Result<String, NoAnswer> {
    match id(row) {
        Some(id) => said_bytes(alloc, "", id.bytes().as_slice()),
        None => said(alloc, "no such id"),
    }
}

/// What is read of a text or of bytes.
fn read(alloc: Global, read: Result<VersionId, NotAnId>) -> Result<String, NoAnswer> {
    match read {
        Ok(id) => parts(alloc, id),
        Err(not) => Ok(format!(in alloc; "{not}")?),
    }
}

/// `from_bytes BYTES`
fn from_bytes(alloc: Global, content: &[u8]) -> Result<String, NoAnswer> {
    match content.first_chunk::<16>() {
        Some(bytes) => read(alloc, VersionId::from_bytes(*bytes)),
        None => said(alloc, "not 16 bytes"),
    }
}

/// `take BYTES`
fn take(alloc: Global, content: &[u8]) -> Result<String, NoAnswer> {
    let mut fields = Fields::new(content);
    match take_id(&mut fields) {
        Ok(id) => {
            let parts = parts(alloc, id)?;
            let at = fields.at();
            Ok(format!(in alloc; "{parts} up to {at}")?)
        }
        Err(Misspelled(at)) => said_number(alloc, "misspelled at ", at),
    }
}

/// `rank TERM SEQ`
fn rank_of(alloc: Global, row: &str) -> Result<String, NoAnswer> {
    match ballot(number(word(row, 0)), number(word(row, 1))) {
        Some(ballot) => Ok(format!(in alloc; "{}", rank(ballot))?),
        None => said(alloc, "no such ballot"),
    }
}

pub fn answer(alloc: Global, names: &Names, row: &str) -> Result<String, NoAnswer> {
    let (call, rest) = first(row);
    match call {
        "text" => text(alloc, rest),
        "bytes" => id_bytes(alloc, rest),
        "parse" => read(alloc, VersionId::parse(rest)),
        "from_bytes" => {
            let content = bytes(alloc, names, rest)?;
            from_bytes(alloc, content.as_slice())
        }
        "take" => {
            let content = bytes(alloc, names, rest)?;
            take(alloc, content.as_slice())
        }
        "rank" => rank_of(alloc, rest),
        "laws" => {
            rank_laws();
            spelling_laws();
            said(alloc, "done")
        }
        _ => said(alloc, "no such call"),
    }
}
