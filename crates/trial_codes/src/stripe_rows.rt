//! Rows over `poly_code`. A set is its number of drives and that of its parity.

ghost use Rattle.std.specs.Prelude.{◌≡◌, ◌≢◌, ℕ, ◌<◌, ◌≤◌, All, IsTrue, false, length, slice_index};
ghost use Rattle.poly_code.specs.Codeword.{AreDistinct};

use crate::told::{WIDEST, byte};
use drive_base::SetPlan;
use poly_code::{codeword_laws, encode, rebuild};
use std::alloc::Global;
use trial_base::{Names, NoAnswer, bytes, first, number, said, said_bytes, word};

/// The plan of a set of so many drives, of which so many are parity.
fn plan(drives: u8, parity: u8) -> Option<SetPlan> {
    if drives < 4 || drives > 16 || parity < 1 || parity > 8 || parity + parity > drives {
        return None;
    }
    Some(SetPlan::new([7; 16], drives, parity))
}

/// Makes the parity, or answers false where the lengths do not agree.
fn is_encoded(set: SetPlan, blocks: &[u8], width: usize, out: &mut [u8]) -> bool
    requires { width ≤ WIDEST }
{
    if blocks.len() != set.read_quorum() as usize * width
        || out.len() != set.parity as usize * width
    {
        return false;
    }
    encode(set, blocks, out);
    true
}

/// `encode DRIVES PARITY WIDTH BLOCKS`: the parity of data blocks of one width.
fn encoded(alloc: Global, set: SetPlan, width: usize, blocks: &[u8]) -> Result<String, NoAnswer>
    requires { width ≤ WIDEST }
{
    let mut out = [0; 8 * WIDEST];
    let Some(out) = out.get_mut(..set.parity as usize * width) else {
        return said(alloc, "too wide");
    };
    if !is_encoded(set, blocks, width, out) {
        return said(alloc, "no blocks of this width");
    }
    said_bytes(alloc, "", out)
}

/// Rebuilds a block, or answers false where there are no D rows and their blocks.
fn is_rebuilt(set: SetPlan, rows: &[u8], have: &[u8], which: u8, out: &mut [u8]) -> bool
    requires { length out.old ≤ WIDEST }
{
    if rows.len() != set.read_quorum() as usize || have.len() != rows.len() * out.len() {
        return false;
    }
    if !are_distinct(rows) || !are_below(rows, set.drives) || which >= set.drives {
        return false;
    }
    rebuild(set, rows, have, which, out);
    true
}

/// Whether each row is below the number of drives.
fn are_below(rows: &[u8], drives: u8) -> bool
    ensures { IsTrue result → All (λ row. row < drives) rows.now }
{
    rows.iter().all(|row| *row < drives)
}

/// Whether no two rows are the same.
fn are_distinct(rows: &[u8]) -> bool
    ensures { IsTrue result → AreDistinct rows.now }
{
    for index in 0..rows.len() {
        if is_among(&rows[..index], rows[index]) {
            return false;
        }
    }
    true
}

/// Whether a row is one of these.
fn is_among(rows: &[u8], row: u8) -> bool
    ensures { result ≡ false → (i : ℕ) → i < length rows.now → slice_index rows.now i ≢ row }
{
    for other in rows {
        if *other == row {
            return true;
        }
    }
    false
}

/// `rebuild DRIVES PARITY WHICH ROWS BLOCKS`: the block of a number, from the blocks of D rows.
fn rebuilt(
    alloc: Global,
    set: SetPlan,
    which: u8,
    rows: &[u8],
    have: &[u8],
) -> Result<String, NoAnswer> {
    let mut out = [0; WIDEST];
    let width = (have.len() / set.read_quorum() as usize).min(WIDEST);
    let out = &mut out[..width];
    if !is_rebuilt(set, rows, have, which, out) {
        return said(alloc, "not enough rows");
    }
    said_bytes(alloc, "", out)
}

/// Whether the mask has this row.
fn is_lost(lost: u32, row: u8) -> bool {
    row < 32 && (lost >> row) & 1 == 1
}

/// Whether a mask has a row, and its block of two bytes is the one that is rebuilt from the rows that the mask doesn't have.
fn comes_back(set: &SetPlan, stripe: &[u8], lost: u32, which: u8, block: &[u8]) -> bool {
    if !is_lost(lost, which) {
        return false;
    }
    let mut rows = [0; 16];
    let mut have = [0; 32];
    let mut count = 0usize;
    for (row, kept) in (0..16u8).zip(stripe.as_chunks::<2>().0) {
        if count < 16 && !is_lost(lost, row) {
            rows[count] = row;
            have[2 * count] = kept[0];
            have[2 * count + 1] = kept[1];
            count += 1;
        }
    }
    let mut out = [0; 2];
    is_rebuilt(*set, &rows[..count], &have[..2 * count], which, &mut out) && out.as_slice() == block
}

/// How many of the lost blocks of a stripe are rebuilt from the others.
fn coming_back(set: &SetPlan, stripe: &[u8], lost: u32) -> u64 {
    let mut count = 0u64;
    for (row, block) in (0..16u8).zip(stripe.chunks(2)) {
        let is_back = comes_back(set, stripe, lost, row, block);
        count = count.saturating_add(u64::from(is_back));
    }
    count
}

/// `every DRIVES PARITY STRIPE`: how many choices there are of as many lost blocks as a set has of parity, and how many
/// blocks come back in all of them. The stripe has blocks of two bytes.
fn every(alloc: Global, set: &SetPlan, stripe: &[u8]) -> Result<String, NoAnswer> {
    let mut choices = 0u64;
    let mut back = 0u64;
    for lost in 0..1u32 << set.drives {
        if lost.count_ones() == set.parity as u32 {
            choices = choices.saturating_add(1);
            back = back.saturating_add(coming_back(set, stripe, lost));
        }
    }
    Ok(format!(in alloc; "{choices} choices, {back} blocks back")?)
}

/// The rows of a set.
fn of_set(
    alloc: Global,
    names: &Names,
    row: &str,
    set: SetPlan,
    words: &str,
) -> Result<String, NoAnswer> {
    let content = bytes(alloc, names, words)?;
    let content = content.as_slice();
    match word(row, 0) {
        "encode" => {
            let width = number(word(row, 3)).min(1000) as usize;
            encoded(alloc, set, width, content)
        }
        "rebuild" => {
            let rows = bytes(alloc, names, word(row, 4))?;
            rebuilt(alloc, set, byte(word(row, 3)), rows.as_slice(), content)
        }
        "every" => every(alloc, &set, content),
        _ => said(alloc, "no such call"),
    }
}

/// The words behind so many.
fn behind(row: &str, count: u64) -> &str {
    let mut rest = row;
    for _ in 0..count {
        rest = first(rest).1;
    }
    rest
}

pub fn answer(alloc: Global, names: &Names, row: &str) -> Result<String, NoAnswer> {
    let words = match word(row, 0) {
        "laws" => {
            codeword_laws();
            return said(alloc, "done");
        }
        "every" => behind(row, 3),
        "encode" => behind(row, 4),
        _ => behind(row, 5),
    };
    match plan(byte(word(row, 1)), byte(word(row, 2))) {
        Some(set) => of_set(alloc, names, row, set, words),
        None => said(alloc, "no such set"),
    }
}
