//! Rows over `seal_file`.

use seal_file::{Bytes, Damage, RecordFault, Text, seal, sealing_laws, unseal};
use std::alloc::Global;
use std::cmp::Ordering;
use trial_base::{Names, NoAnswer, bytes, first, said, said_bytes, said_number, word};

/// The kind of a file, its first four bytes.
pub fn kind(text: &str) -> [u8; 4] {
    match text.as_bytes().first_chunk::<4>() {
        Some(kind) => *kind,
        None => [0; 4],
    }
}

/// A damage in words.
pub fn damage(alloc: Global, damage: Damage) -> Result<String, NoAnswer> {
    match damage {
        Damage::Short(length) => said_number(alloc, "short, bytes ", length),
        Damage::Long(length) => said_number(alloc, "long, bytes ", length),
        Damage::Spelling(at) => said_number(alloc, "misspelled at ", at),
        Damage::Kind(kind) => said_bytes(alloc, "kind ", kind.as_slice()),
        Damage::Digest { stored, computed } => {
            let stored = said_bytes(alloc, "digest ", stored.as_slice())?;
            let computed = said_bytes(alloc, ", computed ", computed.as_slice())?;
            Ok(format!(in alloc; "{stored}{computed}")?)
        }
    }
}

/// A fault of a record in words.
pub fn fault(alloc: Global, fault: RecordFault) -> Result<String, NoAnswer> {
    match fault {
        RecordFault::Unsealed(of) => damage(alloc, of),
        RecordFault::NotCanonical(at) => said_number(alloc, "not canonical at ", at),
        RecordFault::NoMemory => Err(NoAnswer),
    }
}

/// `unseal KIND FILE`
fn opened(alloc: Global, kind: [u8; 4], file: &[u8]) -> Result<String, NoAnswer> {
    match unseal(kind, file) {
        Ok(body) => said_bytes(alloc, "body ", body),
        Err(of) => damage(alloc, of),
    }
}

/// `texts ONE OTHER`: their order, and each one's length.
fn texts(alloc: Global, one: &Text, other: &Text) -> Result<String, NoAnswer> {
    let order = match one.cmp(other) {
        Ordering::Less => "less",
        Ordering::Equal => "equal",
        Ordering::Greater => "greater",
    };
    let (a, b) = (one.len(), other.len());
    Ok(format!(in alloc; "{order}, {a} and {b} bytes")?)
}

/// `copy BYTES`: the bytes of a copy that was taken apart and put together.
fn copy(alloc: Global, content: &[u8]) -> Result<String, NoAnswer> {
    let bytes = if content.is_empty() {
        Bytes::empty(alloc)
    } else {
        Bytes::from_slice(alloc, content)?
    };
    let copy = Bytes::from_vec(bytes.clone()?.into_vec());
    let words = if copy.is_empty() { "empty: " } else { "" };
    said_bytes(alloc, words, copy.as_slice())
}

pub fn answer(alloc: Global, names: &Names, row: &str) -> Result<String, NoAnswer> {
    let (call, rest) = first(row);
    let (kind_word, body) = first(rest);
    match call {
        "seal" => {
            let body = bytes(alloc, names, body)?;
            let file = seal(alloc, kind(kind_word), body.as_slice())?;
            said_bytes(alloc, "", file.as_slice())
        }
        "unseal" => {
            let file = bytes(alloc, names, body)?;
            opened(alloc, kind(kind_word), file.as_slice())
        }
        "texts" => {
            let one = Text::from_slice(alloc, word(rest, 0).as_bytes())?;
            let other = Text::from_slice(alloc, word(rest, 1).as_bytes())?;
            texts(alloc, &one, &other)
        }
        "copy" => {
            let content = bytes(alloc, names, rest)?;
            copy(alloc, content.as_slice())
        }
        "spelling_fault" => fault(alloc, RecordFault::from(Damage::Spelling(9))),
        "laws" => {
            sealing_laws();
            said(alloc, "done")
        }
        _ => said(alloc, "no such call"),
    }
}
