//! Rows over `shard_file`.

use crate::seal_rows::damage;
use drive_base::SetPlan;
use shard_file::{
    Place, STRIPE, block_digests, block_len, check_block, file_len, layout, root, shard_laws,
};
use std::alloc::Global;
use trial_base::{Names, NoAnswer, bytes, first, number, said, said_bytes, said_number, word};

/// The plan of a set of so many drives, of which so many are parity.
fn plan(drives: u64, parity: u64) -> Option<SetPlan> {
    if drives < 4 || drives > 16 || parity < 1 || parity > 8 || parity + parity > drives {
        return None;
    }
    Some(SetPlan::new([7; 16], drives as u8, parity as u8))
}

/// The place of a stripe that is there.
fn place(set: &SetPlan, length: u64, stripe: u64) -> Option<Place> {
    if stripe > 5120 || stripe * STRIPE >= length {
        return None;
    }
    Some(layout(set, length, stripe))
}

/// `layout DRIVES PARITY LENGTH STRIPE`: the place and the length of the stripe's block, the place of its digest, and
/// the file's length.
fn told_place(alloc: Global, set: &SetPlan, length: u64, stripe: u64) -> Result<String, NoAnswer> {
    let Some(place) = place(set, length, stripe) else {
        return said(alloc, "no such stripe");
    };
    let file = file_len(set, length);
    Ok(format!(in alloc; "{} {} {} {file}", place.block, place.length, place.digest)?)
}

/// The rows of a set of drives.
fn of_set(alloc: Global, row: &str) -> Result<String, NoAnswer> {
    let Some(set) = plan(number(word(row, 1)), number(word(row, 2))) else {
        return said(alloc, "no such set");
    };
    let length = number(word(row, 3));
    match word(row, 0) {
        "layout" => told_place(alloc, &set, length, number(word(row, 4))),
        "block_len" => said_number(alloc, "", block_len(&set, length)),
        "file_len" => said_number(alloc, "", file_len(&set, length)),
        _ => said(alloc, "no such call"),
    }
}

/// `check_block DIGEST BLOCK`, the digest of 32 bytes.
fn check(alloc: Global, content: &[u8]) -> Result<String, NoAnswer> {
    let Some((stored, block)) = content.split_first_chunk::<32>() else {
        return said(alloc, "no digest");
    };
    match check_block(*stored, block) {
        Ok(()) => said(alloc, "intact"),
        Err(of) => damage(alloc, of),
    }
}

/// `digests SIZE BYTES`: the digest of each block of that size, the last ones of four.
fn digests(alloc: Global, size: u64, content: &[u8]) -> Result<String, NoAnswer> {
    let mut digests = [[0; 32]; 4];
    let size = size.min(1_000) as usize;
    if content.len() != size * 4 {
        return said(alloc, "not four blocks");
    }
    block_digests(content, size, &mut digests);
    let mut told = Vec::new(alloc);
    for digest in digests.iter() {
        told.extend_from_slice(digest.as_slice())?;
    }
    said_bytes(alloc, "", told.as_slice())
}

pub fn answer(alloc: Global, names: &Names, row: &str) -> Result<String, NoAnswer> {
    let (call, rest) = first(row);
    match call {
        "root" => {
            let table = bytes(alloc, names, rest)?;
            said_bytes(alloc, "", root(table.as_slice()).as_slice())
        }
        "check_block" => {
            let content = bytes(alloc, names, rest)?;
            check(alloc, content.as_slice())
        }
        "digests" => {
            let (size, rest) = first(rest);
            let content = bytes(alloc, names, rest)?;
            digests(alloc, number(size), content.as_slice())
        }
        "laws" => {
            shard_laws();
            said(alloc, "done")
        }
        _ => of_set(alloc, row),
    }
}
