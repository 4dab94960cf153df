//! Bytes in one line of text.

use std::alloc::Global;
use trial_base::{Names, NoAnswer, bytes, first, said_number};

/// The words of the bytes of an escape, and what is behind it.
fn escape(piece: &str) -> Option<(&str, &str)> {
    let (letter, rest) = piece.split_at_checked(1)?;
    match letter {
        "r" => Some(("0d", rest)),
        "n" => Some(("0a", rest)),
        "x" => rest.split_at_checked(2),
        "{" => rest.split_once("}"),
        _ => None,
    }
}

/// Appends the bytes of an escape and of the text behind it.
fn push_escaped(
    alloc: Global,
    out: &mut Vec<u8>,
    names: &Names,
    piece: &str,
) -> Result<(), NoAnswer> {
    let Some((words, rest)) = escape(piece) else {
        return Err(NoAnswer);
    };
    let spelled = bytes(alloc, names, words)?;
    out.extend_from_slice(spelled.as_slice())?;
    Ok(out.extend_from_slice(rest.as_bytes())?)
}

/// The bytes of a text in which `\r` and `\n` end lines, `\xHH` is a byte, and `\{WORDS}` is what words spell: a name
/// that is kept, `'text'` or hex digits, and any of them with `*TIMES` behind it.
pub fn text(alloc: Global, names: &Names, spelled: &str) -> Result<Vec<u8>, NoAnswer> {
    let mut out = Vec::new(alloc);
    for (at, piece) in spelled.split('\\').enumerate() {
        if at == 0 {
            out.extend_from_slice(piece.as_bytes())?;
        } else {
            push_escaped(alloc, &mut out, names, piece)?;
        }
    }
    Ok(out)
}

/// Appends a byte as a text spells it.
fn push_byte(out: &mut String, byte: u8) -> Result<(), NoAnswer> {
    match byte {
        b'\r' => out.push_str("\\r")?,
        b'\n' => out.push_str("\\n")?,
        b'\\' | 0..=31 | 127..=255 => write!(out, "\\x{byte:02x}")?,
        _ => out.push(char::from(byte))?,
    }
    Ok(())
}

/// Bytes as a text.
pub fn said_text(alloc: Global, bytes: &[u8]) -> Result<String, NoAnswer> {
    let mut out = String::new(alloc);
    for byte in bytes {
        push_byte(&mut out, *byte)?;
    }
    Ok(out)
}

/// `keep NAME TEXT`: how many bytes are kept under a name.
pub fn keep(alloc: Global, names: &mut Names, row: &str) -> Result<String, NoAnswer> {
    let (name, spelled) = first(row);
    let kept = text(alloc, names, spelled)?;
    let len = kept.len();
    let name = String::from_str(alloc, name)?;
    names.insert(name, kept)?;
    said_number(alloc, "", len as u64)
}
