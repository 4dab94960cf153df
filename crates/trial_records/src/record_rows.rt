//! Rows over the fields of `sealed_record`. Its records are those of registers and of manifests, which have rows of
//! their own.

use field_reader::{Fields, Misspelled};
use sealed_record::{take_flag, take_format};
use std::alloc::Global;
use trial_base::{Names, NoAnswer, bytes, first, said, said_number, yes};

/// `format BYTES`
fn format_number(alloc: Global, content: &[u8]) -> Result<String, NoAnswer> {
    match take_format(&mut Fields::new(content)) {
        Ok(format) => said_number(alloc, "", format as u64),
        Err(Misspelled(at)) => said_number(alloc, "misspelled at ", at),
    }
}

/// `flag BYTES`
fn flag(alloc: Global, content: &[u8]) -> Result<String, NoAnswer> {
    match take_flag(&mut Fields::new(content)) {
        Ok(follows) => yes(alloc, follows),
        Err(Misspelled(at)) => said_number(alloc, "misspelled at ", at),
    }
}

pub fn answer(alloc: Global, names: &Names, row: &str) -> Result<String, NoAnswer> {
    let (call, rest) = first(row);
    let content = bytes(alloc, names, rest)?;
    match call {
        "format" => format_number(alloc, content.as_slice()),
        "flag" => flag(alloc, content.as_slice()),
        _ => said(alloc, "no such call"),
    }
}
