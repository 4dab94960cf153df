//! Rows over `hash_lanes`.

ghost use Rattle.std.specs.Prelude.{◌≤◌, length};

use crate::told::{digest, some_bytes};
use hash_lanes::{hash_blocks, hash_equal_blocks};
use std::alloc::Global;
use trial_base::{Names, NoAnswer, bytes, first, number, said, said_bytes, word};

/// The most blocks of a row.
const MOST: usize = 17;

/// `blocks WORD..`: the digests of blocks, each of which is a word.
fn each(alloc: Global, names: &Names, words: &str) -> Result<String, NoAnswer> {
    let mut blocks = Vec::new(alloc);
    for word in words.split(' ') {
        let block = bytes(alloc, names, word)?;
        blocks.push(block)?;
    }
    let mut lent: Vec<&[u8]> = Vec::new(alloc);
    for block in blocks.iter() {
        lent.push(block.as_slice())?;
    }
    let mut digests = [[0; 32]; MOST];
    let Some(digests) = digests.get_mut(..lent.len()) else {
        return said(alloc, "too many blocks");
    };
    hash_blocks(lent.as_slice(), digests);
    said_bytes(alloc, "", digests.as_flattened())
}

/// `mixed LENGTH..`: the SHA-256 of the digests of blocks of these lengths, at most 128 each, of which each begins 128
/// known bytes after the one before.
fn mixed(alloc: Global, words: &str) -> Result<String, NoAnswer> {
    let bytes = some_bytes();
    let mut blocks = [&bytes[..0]; MOST];
    let mut count = 0usize;
    for word in words.split(' ') {
        if count < MOST && !word.is_empty() {
            let from = 128 * count;
            blocks[count] = &bytes[from..from + number(word).min(128) as usize];
            count += 1;
        }
    }
    let mut digests = [[0; 32]; MOST];
    hash_blocks(&blocks[..count], &mut digests[..count]);
    digest(alloc, digests[..count].as_flattened())
}

/// Makes the digests of blocks of one size, or answers false where the bytes are not so many blocks.
fn are_equal(bytes: &[u8], size: usize, digests: &mut [[u8; 32]]) -> bool
    requires size { size ≤ 400 }
    requires few { length digests.old ≤ MOST }
{
    if bytes.len() != size * digests.len() {
        return false;
    }
    hash_equal_blocks(bytes, size, digests);
    true
}

/// `equal SIZE COUNT`: the SHA-256 of the digests of so many blocks of that size, of known bytes.
fn equal(alloc: Global, size: u64, count: u64) -> Result<String, NoAnswer> {
    let bytes = some_bytes();
    let (size, count) = (size.min(400) as usize, count.min(17) as usize);
    let mut digests = [[0; 32]; MOST];
    let Some(blocks) = bytes.get(..size * count) else {
        return said(alloc, "too many bytes");
    };
    if !are_equal(blocks, size, &mut digests[..count]) {
        return said(alloc, "not so many blocks");
    }
    digest(alloc, digests[..count].as_flattened())
}

pub fn answer(alloc: Global, names: &Names, row: &str) -> Result<String, NoAnswer> {
    let (call, rest) = first(row);
    match call {
        "blocks" => each(alloc, names, rest),
        "mixed" => mixed(alloc, rest),
        "equal" => equal(alloc, number(word(row, 1)), number(word(row, 2))),
        _ => said(alloc, "no such call"),
    }
}
