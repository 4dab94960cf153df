//! Words of rows, the bytes that they spell, and answers.

use fault_base::NoMemory;
use std::alloc::{AllocError, AllocFailed, Global};
use std::collections::BTreeMap;

/// There was not enough memory, or a word spells no bytes.
#[derive(Clone, Copy)]
pub struct NoAnswer;

impl From<NoMemory> for NoAnswer {
    fn from(_error: NoMemory) -> NoAnswer {
        NoAnswer
    }
}

impl From<AllocError> for NoAnswer {
    fn from(_error: AllocError) -> NoAnswer {
        NoAnswer
    }
}

impl<T: Drop> From<AllocFailed<T>> for NoAnswer {
    fn from(_refused: AllocFailed<T>) -> NoAnswer {
        NoAnswer
    }
}

/// The bytes that have a name.
pub type Names = BTreeMap<String, Vec<u8>>;

/// The first word of a row, and what follows it.
pub fn first(row: &str) -> (&str, &str) {
    match row.split_once(" ") {
        Some((word, rest)) => (word, rest),
        None => (row, ""),
    }
}

/// A word of a row, empty where it has so few.
pub fn word<'a>(row: &'a str, place: usize) -> &'a str {
    for (at, word) in row.split(' ').enumerate() {
        if at == place {
            return word;
        }
    }
    ""
}

/// A number, 0 where the word is none.
pub fn number(word: &str) -> u64 {
    match word.parse::<u64>() {
        Ok(number) => number,
        Err(_) => 0,
    }
}

/// Appends the bytes of one word: those of its name, or of a text in quotes, or of hex digits.
fn push_bytes(alloc: Global, out: &mut Vec<u8>, names: &Names, word: &str) -> Result<(), NoAnswer> {
    if let Some(named) = names.get(word) {
        out.extend_from_slice(named.as_slice())?;
        return Ok(());
    }
    if let Some(text) = word.strip_prefix("'") {
        out.extend_from_slice(text.trim_end_matches('\'').as_bytes())?;
        return Ok(());
    }
    match hex::decode(alloc, word) {
        Ok(bytes) => Ok(out.extend_from_slice(bytes.as_slice())?),
        Err(_) => Err(NoAnswer),
    }
}

/// Appends the bytes of a word: `PIECE`, or `PIECE*TIMES`.
fn push_word(alloc: Global, out: &mut Vec<u8>, names: &Names, word: &str) -> Result<(), NoAnswer> {
    let Some((piece, times)) = word.split_once("*") else {
        return push_bytes(alloc, out, names, word);
    };
    for _ in 0..number(times) {
        push_bytes(alloc, out, names, piece)?;
    }
    Ok(())
}

/// The bytes that words spell, one after the other.
pub fn bytes(alloc: Global, names: &Names, words: &str) -> Result<Vec<u8>, NoAnswer> {
    let mut out = Vec::new(alloc);
    for word in words.split(' ') {
        push_word(alloc, &mut out, names, word)?;
    }
    Ok(out)
}

/// Gives a name to the bytes of a row `let NAME = BYTES`.
pub fn name(alloc: Global, names: &mut Names, name: &str, row: &str) -> Result<(), NoAnswer> {
    let Some((_, words)) = row.split_once(" = ") else {
        return Ok(());
    };
    let bytes = bytes(alloc, names, words)?;
    let name = String::from_str(alloc, name)?;
    names.insert(name, bytes)?;
    Ok(())
}

/// An answer in these words.
pub fn said(alloc: Global, words: &str) -> Result<String, NoAnswer> {
    Ok(String::from_str(alloc, words)?)
}

/// An answer that is a number behind these words.
pub fn said_number(alloc: Global, words: &str, number: u64) -> Result<String, NoAnswer> {
    Ok(format!(in alloc; "{words}{number}")?)
}

/// An answer that is bytes behind these words, in hex digits.
pub fn said_bytes(alloc: Global, words: &str, bytes: &[u8]) -> Result<String, NoAnswer> {
    if bytes.is_empty() {
        return Ok(format!(in alloc; "{words}nothing")?);
    }
    let digits = hex::encode(alloc, bytes)?;
    Ok(format!(in alloc; "{words}{digits}")?)
}

/// `yes` or `no`.
pub fn yes(alloc: Global, is_so: bool) -> Result<String, NoAnswer> {
    said(alloc, if is_so { "yes" } else { "no" })
}
