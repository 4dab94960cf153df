//! Rows over `slot_data`: puts under way and pins, by the ids of their data.

use crate::entries::count_of;
use seal_file::Text;
use slot_data::{FlightRow, PinFor, PinRow, is_in_flight, is_pinned};
use stamp_id::{Ballot, ChangeId, VersionId};
use std::alloc::Global;
use trial_base::{NoAnswer, first, said, word, yes};

/// The id that is spelled `TERM-SEQ-SLOT`.
pub fn id_of(word: &str) -> Result<VersionId, NoAnswer> {
    let Some((term, rest)) = word.split_once("-") else {
        return Err(NoAnswer);
    };
    let Some((seq, slot)) = rest.split_once("-") else {
        return Err(NoAnswer);
    };
    let term = count_of(term)?;
    let seq = count_of(seq)?;
    let slot = count_of(slot)?;
    if term < 1 || term >= 281_474_976_710_656 || slot >= 64 {
        return Err(NoAnswer);
    }
    if seq < 1 || seq >= 4_611_686_018_427_387_904 {
        return Err(NoAnswer);
    }
    let change = ChangeId(Ballot { term, seq });
    Ok(VersionId::from_parts(change, slot as u8))
}

/// `in_flight ID FLIGHTS`: whether a put of this id is among those of these ids.
fn flies(alloc: Global, words: &str) -> Result<String, NoAnswer> {
    let id = id_of(word(words, 1))?;
    let mut rows = Vec::new(alloc);
    for place in 2..20usize {
        if word(words, place).is_empty() {
            break;
        }
        let listed = id_of(word(words, place))?;
        let name = Text::from_slice(alloc, b"k/pic/a")?;
        rows.push(FlightRow { id: listed, name })?;
    }
    yes(alloc, is_in_flight(rows.as_slice(), id))
}

/// What a pin is for, by its word.
fn purpose_of(word: &str) -> Result<PinFor, NoAnswer> {
    match word {
        "read" => Ok(PinFor::Read),
        "heal" => Ok(PinFor::Heal),
        "complete" => Ok(PinFor::Complete),
        _ => Err(NoAnswer),
    }
}

/// The pin `PURPOSE,ID,ID ..`
fn pin_of(alloc: Global, ticket: u64, words: &str) -> Result<PinRow, NoAnswer> {
    let mut ids = Vec::new(alloc);
    let (purpose, rest) = match words.split_once(",") {
        Some((purpose, rest)) => (purpose_of(purpose)?, rest),
        None => return Err(NoAnswer),
    };
    for word in rest.split(',') {
        ids.push(id_of(word)?)?;
    }
    Ok(PinRow {
        ticket,
        purpose,
        name: Text::from_slice(alloc, b"k/pic/a")?,
        ids,
    })
}

/// `pinned ID PINS`: whether one of these pins names this id.
fn pins(alloc: Global, words: &str) -> Result<String, NoAnswer> {
    let id = id_of(word(words, 1))?;
    let mut rows = Vec::new(alloc);
    for place in 2..20usize {
        if word(words, place).is_empty() {
            break;
        }
        rows.push(pin_of(alloc, place as u64, word(words, place))?)?;
    }
    yes(alloc, is_pinned(rows.as_slice(), id))
}

/// What a row over `slot_data` is answered.
pub fn answer(alloc: Global, words: &str) -> Result<String, NoAnswer> {
    let (call, _) = first(words);
    match call {
        "in_flight" => flies(alloc, words),
        "pinned" => pins(alloc, words),
        _ => said(alloc, "no such call"),
    }
}
