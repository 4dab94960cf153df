//! Rows over `field_reader`.

use field_reader::{
    Fields, Misspelled, put_bytes, put_short_text, put_u8, put_u16, put_u32, put_u64, refuse_unless,
};
use std::alloc::Global;
use trial_base::{Names, NoAnswer, bytes, first, number, said, said_bytes, said_number, word};

/// A field of each kind.
#[derive(Clone, Copy)]
struct Taken {
    byte: u8,
    pair: u16,
    word: u32,
    long: u64,
    size: usize,
    last: u8,
    three: [u8; 3],
}

/// Takes a field of each kind. The second is below 0x8000.
fn take_all(content: &[u8]) -> Result<Taken, Misspelled> {
    let mut fields = Fields::new(content);
    let byte = fields.take_u8()?;
    let start = fields.at();
    let pair = fields.take_u16()?;
    refuse_unless(pair < 0x8000, start)?;
    let word = fields.take_u32()?;
    let long = fields.take_u64()?;
    let text = fields.take_short_text()?;
    let three = fields.take_bytes()?;
    fields.finish()?;
    Ok(Taken {
        byte,
        pair,
        word,
        long,
        size: text.len(),
        last: text.last().copied().unwrap_or(0),
        three,
    })
}

/// `take BYTES`
fn take(alloc: Global, content: &[u8]) -> Result<String, NoAnswer> {
    match take_all(content) {
        Ok(taken) => {
            let Taken {
                byte,
                pair,
                word,
                long,
                size,
                last,
                three: [a, b, c],
            } = taken;
            Ok(format!(in alloc; "{byte} {pair} {word} {long}, {size} to {last}, {a} {b} {c}")?)
        }
        Err(Misspelled(at)) => said_number(alloc, "misspelled at ", at),
    }
}

/// `slice SIZE BYTES`: so many bytes are taken, and the rest is told.
fn slice(alloc: Global, size: u64, content: &[u8]) -> Result<String, NoAnswer> {
    let mut fields = Fields::new(content);
    match fields.take_slice(size.min(100) as usize) {
        Ok(_) => said_bytes(alloc, "left ", fields.rest()),
        Err(Misspelled(at)) => said_number(alloc, "misspelled at ", at),
    }
}

/// `put BYTE PAIR WORD LONG TEXT BYTES`: the bytes of a field of each kind.
fn put(alloc: Global, names: &Names, row: &str) -> Result<Vec<u8>, NoAnswer> {
    let mut out = Vec::new(alloc);
    put_u8(&mut out, number(word(row, 1)).min(0xff) as u8)?;
    put_u16(&mut out, number(word(row, 2)).min(0xffff) as u16)?;
    put_u32(&mut out, number(word(row, 3)).min(0xffff_ffff) as u32)?;
    put_u64(&mut out, number(word(row, 4)))?;
    let text = word(row, 5).as_bytes();
    if text.len() < 256 {
        put_short_text(&mut out, text)?;
    }
    let bytes = bytes(alloc, names, word(row, 6))?;
    put_bytes(&mut out, bytes.as_slice())?;
    Ok(out)
}

pub fn answer(alloc: Global, names: &Names, row: &str) -> Result<String, NoAnswer> {
    let (call, rest) = first(row);
    match call {
        "take" => {
            let content = bytes(alloc, names, rest)?;
            take(alloc, content.as_slice())
        }
        "slice" => {
            let (size, rest) = first(rest);
            let content = bytes(alloc, names, rest)?;
            slice(alloc, number(size), content.as_slice())
        }
        "put" => {
            let out = put(alloc, names, row)?;
            said_bytes(alloc, "", out.as_slice())
        }
        _ => said(alloc, "no such call"),
    }
}
