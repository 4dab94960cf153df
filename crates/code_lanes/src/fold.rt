//! Sums over 2, 4 or 8 blocks by an additive transform, which takes 1, 5 or 17 products in place of 4, 16 or 64.
//!
//! The blocks are the values of a polynomial at the elements 0 to `count - 1`, and the sums are its values at the
//! elements from `count` on.

ghost use Rattle.std.specs.Prelude.{◌≡◌, ℕ, ◌+◌, ◌*◌, ◌<◌, ◌≤◌, IsTrue, [], ◌∷◌, length, slice_index};
ghost use Rattle.code_lanes.specs.Fold.{fold_at, is_foldable};
ghost use Rattle.code_lanes.specs.Lanes.{HasLanes};
ghost use Rattle.code_lanes.specs.Rows.{AreRows};
ghost use Rattle.code_lanes.specs.Tables.{AreTables, IsTable};

use crate::lanes::LANES;
use crate::rows::{Four, load_four, load_row, store_four, store_row};
use crate::steps::{cross, cross_two, evaluate_four, interpolate_first, interpolate_four};
use crate::tables::{table_of, tables_of};
use std::simd::u8x32;

/// Whether there is a transform for so many blocks: 2, 4 or 8.
pub fn is_foldable(count: usize) -> bool
    ensures { result ≡ is_foldable count }
{
    count == 2 || count == 4 || count == 8
}

/// Fills `out` with the first `rows` sums over `count` blocks, of one width, with the weights that interpolation gives
/// where the blocks are the values at 0, 1, .. `count - 1` and the sums those from `count` on.
pub fn fold_into(count: usize, blocks: &[u8], width: usize, rows: usize, out: &mut [u8])
    requires foldable { IsTrue (is_foldable count) }
    requires wide { 32 ≤ width }
    requires rows { rows ≤ count }
    requires blocks { length blocks.now ≡ count * width }
    requires out { length out.old ≡ rows * width }
    ensures { (row k : ℕ) → row < rows → k < width →
        slice_index out.new (row * width + k) ≡ fold_at count width blocks.now row k }
{
    match count {
        2 => fold_two(blocks, width, rows, out),
        4 => fold_four(blocks, width, rows, out),
        _ => fold_eight(blocks, width, rows, out),
    }
}

fn fold_two(blocks: &[u8], width: usize, rows: usize, out: &mut [u8])
    requires wide { 32 ≤ width }
    requires rows { rows ≤ 2 }
    requires blocks { length blocks.now ≡ 2 * width }
    requires out { length out.old ≡ rows * width }
    ensures { (row k : ℕ) → row < rows → k < width →
        slice_index out.new (row * width + k) ≡ fold_at 2 width blocks.now row k }
{
    let table = table_of(2);
    for index in 0..width / LANES + 1 {
        let end = width - LANES * index;
        let at = end.saturating_sub(LANES);
        let sums = two_rows(&table, blocks, width, at);
        store_row(out, width, rows, 0, at, sums.0);
        store_row(out, width, rows, 1, at, sums.1);
    }
}

#[inline(always)]
fn two_rows(table: &[u8; 32], blocks: &[u8], width: usize, at: usize) -> (u8x32, u8x32)
    requires table { IsTable 2 table.now }
    requires blocks { length blocks.now ≡ 2 * width }
    requires within { at + 32 ≤ width }
    ensures first { HasLanes result.0 (λ k. fold_at 2 width blocks.now 0 (at + k)) }
    ensures second { HasLanes result.1 (λ k. fold_at 2 width blocks.now 1 (at + k)) }
{
    let first = load_row(blocks, width, at, 0);
    let second = load_row(blocks, width, at, 1);
    cross_two(first, second, table)
}

fn fold_four(blocks: &[u8], width: usize, rows: usize, out: &mut [u8])
    requires wide { 32 ≤ width }
    requires rows { rows ≤ 4 }
    requires blocks { length blocks.now ≡ 4 * width }
    requires out { length out.old ≡ rows * width }
    ensures { (row k : ℕ) → row < rows → k < width →
        slice_index out.new (row * width + k) ≡ fold_at 4 width blocks.now row k }
{
    // n_0 at 2, 4 and 6. The last is n_1(4) too.
    let tables = tables_of(&[2, 4, 6]);
    for index in 0..width / LANES + 1 {
        let end = width - LANES * index;
        let at = end.saturating_sub(LANES);
        let sums = four_rows(&tables, blocks, width, at);
        store_four(out, width, rows, 0, at, sums);
    }
}

#[inline(always)]
fn four_rows(tables: &[[u8; 32]; 16], blocks: &[u8], width: usize, at: usize) -> Four
    requires tables { AreTables (2 ∷ 4 ∷ 6 ∷ []) tables.now }
    requires blocks { length blocks.now ≡ 4 * width }
    requires within { at + 32 ≤ width }
    ensures { AreRows (fold_at 4 width blocks.now) 0 at result.first result.second result.third result.fourth }
{
    let values = load_four(blocks, width, at, 0);
    let coefficients = interpolate_first(values, &tables[0]);
    evaluate_four(coefficients, &tables[2], &tables[1], &tables[2])
}

fn fold_eight(blocks: &[u8], width: usize, rows: usize, out: &mut [u8])
    requires wide { 32 ≤ width }
    requires rows { rows ≤ 8 }
    requires blocks { length blocks.now ≡ 8 * width }
    requires out { length out.old ≡ rows * width }
    ensures { (row k : ℕ) → row < rows → k < width →
        slice_index out.new (row * width + k) ≡ fold_at 8 width blocks.now row k }
{
    // n_0 at 2, 4 and 6, n_2(8), n_1(8) and n_0 at 8 and 10, n_1(12) and n_0 at 12 and 14.
    let tables = tables_of(&[2, 4, 6, 22, 28, 8, 10, 26, 12, 14]);
    for index in 0..width / LANES + 1 {
        let end = width - LANES * index;
        let at = end.saturating_sub(LANES);
        let (low, high) = eight_rows(&tables, blocks, width, at);
        store_four(out, width, rows, 0, at, low);
        store_four(out, width, rows, 4, at, high);
    }
}

#[inline(always)]
fn eight_rows(tables: &[[u8; 32]; 16], blocks: &[u8], width: usize, at: usize) -> (Four, Four)
    requires tables { AreTables (2 ∷ 4 ∷ 6 ∷ 22 ∷ 28 ∷ 8 ∷ 10 ∷ 26 ∷ 12 ∷ 14 ∷ []) tables.now }
    requires blocks { length blocks.now ≡ 8 * width }
    requires within { at + 32 ≤ width }
    ensures low { AreRows (fold_at 8 width blocks.now) 0 at result.0.first result.0.second result.0.third result.0.fourth }
    ensures high { AreRows (fold_at 8 width blocks.now) 4 at result.1.first result.1.second result.1.third result.1.fourth }
{
    let low = interpolate_first(load_four(blocks, width, at, 0), &tables[0]);
    let upper = load_four(blocks, width, at, 4);
    let high = interpolate_four(upper, &tables[2], &tables[1], &tables[2]);
    let (low, high) = cross(low, high, &tables[3]);
    let low = evaluate_four(low, &tables[4], &tables[5], &tables[6]);
    let high = evaluate_four(high, &tables[7], &tables[8], &tables[9]);
    (low, high)
}
