//! Rows over `code_lanes`.

ghost use Rattle.std.specs.Prelude.{◌≤◌, length};

use crate::told::{WIDEST, byte, digest, runs, some_bytes};
use code_lanes::{fold_into, is_foldable, mul_into, sum_into, two_sums_into};
use gf256::pow;
use std::alloc::Global;
use trial_base::{Names, NoAnswer, bytes, first, number, said, word, yes};

/// The most weights of a row, which are as many as there are blocks of the widest kind.
const MOST: usize = 8;

/// `mul_into BY BYTE WIDTH`: the product of a block of one byte is added to a thousand bytes of 7, of which so many are
/// the block's.
fn added(alloc: Global, by: u8, byte: u8, width: usize) -> Result<String, NoAnswer>
    requires { width ≤ WIDEST }
{
    let mut onto = [7; WIDEST];
    mul_into(by, &[byte; WIDEST][..width], &mut onto[..width]);
    runs(alloc, onto.as_slice())
}

/// `sum_into WIDTH WEIGHTS`: the SHA-256 of the sum over as many blocks of known bytes.
fn sum(alloc: Global, width: usize, weights: &[u8]) -> Result<String, NoAnswer>
    requires { width ≤ WIDEST }
{
    if weights.len() > MOST {
        return said(alloc, "too many weights");
    }
    let blocks = some_bytes();
    let mut out = [0; WIDEST];
    sum_into(weights, &blocks[..weights.len() * width], &mut out[..width]);
    digest(alloc, &out[..width])
}

/// `two_sums_into WIDTH WEIGHTS`: those of the two sums, of which each has half the weights.
fn two_sums(alloc: Global, width: usize, weights: &[u8]) -> Result<String, NoAnswer>
    requires { width ≤ WIDEST }
{
    let count = weights.len() / 2;
    if count > MOST || weights.len() != 2 * count {
        return said(alloc, "no two lists of weights");
    }
    let blocks = some_bytes();
    let mut first = [0; WIDEST];
    let mut second = [0; WIDEST];
    two_sums_into(
        &weights[..count],
        &weights[count..],
        &blocks[..count * width],
        &mut first[..width],
        &mut second[..width],
    );
    let first = digest(alloc, &first[..width])?;
    let second = digest(alloc, &second[..width])?;
    Ok(format!(in alloc; "{first} {second}")?)
}

/// `fold_into COUNT ROWS WIDTH EXPONENT`: the sums over so many blocks, of which each has its number to a power.
fn folded(
    alloc: Global,
    count: usize,
    rows: usize,
    width: usize,
    exponent: u32,
) -> Result<String, NoAnswer>
    requires { width ≤ WIDEST }
{
    if !is_foldable(count) || width < 32 || rows > count || count > MOST {
        return said(alloc, "not to be folded");
    }
    let mut blocks = [0; 8000];
    for place in 0..8000usize {
        blocks[place] = pow((place / width % 256) as u8, exponent);
    }
    let mut out = [0; 8000];
    fold_into(
        count,
        &blocks[..count * width],
        width,
        rows,
        &mut out[..rows * width],
    );
    runs(alloc, &out[..rows * width])
}

/// A number of a row, at most so great.
fn at_most(row: &str, place: usize, most: u64) -> usize
    requires { most ≤ WIDEST }
    ensures { result ≤ most }
{
    number(word(row, place)).min(most) as usize
}

pub fn answer(alloc: Global, names: &Names, row: &str) -> Result<String, NoAnswer> {
    let (call, rest) = first(row);
    let width = at_most(row, 1, 1000);
    match call {
        "mul_into" => added(
            alloc,
            byte(word(row, 1)),
            byte(word(row, 2)),
            at_most(row, 3, 1000),
        ),
        "sum_into" => {
            let (_, words) = first(rest);
            let weights = bytes(alloc, names, words)?;
            sum(alloc, width, weights.as_slice())
        }
        "two_sums_into" => {
            let (_, words) = first(rest);
            let weights = bytes(alloc, names, words)?;
            two_sums(alloc, width, weights.as_slice())
        }
        "fold_into" => folded(
            alloc,
            width,
            at_most(row, 2, 16),
            at_most(row, 3, 1000),
            at_most(row, 4, 16) as u32,
        ),
        "is_foldable" => yes(alloc, is_foldable(width)),
        _ => said(alloc, "no such call"),
    }
}
