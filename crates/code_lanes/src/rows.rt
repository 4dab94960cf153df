//! Four blocks at a time: what stands at 32 places of each.

ghost use Rattle.std.specs.Prelude.{◌≡◌, ℕ, ◌+◌, ◌*◌, ◌≤◌, length};
ghost use Rattle.code_lanes.specs.Lanes.{HasLanes};
ghost use Rattle.code_lanes.specs.Rows.{AreMade, AreRows};
ghost use Rattle.code_lanes.specs.Steps.{AreFour, IsCombination, only, only_four, values_at};

use crate::lanes::{load, store};
use std::simd::u8x32;

/// The same 32 places of four blocks.
#[derive(Clone, Copy)]
pub(crate) struct Four {
    pub(crate) first: u8x32,
    pub(crate) second: u8x32,
    pub(crate) third: u8x32,
    pub(crate) fourth: u8x32,
}

/// The places from `at` on of a block.
#[inline(always)]
pub(crate) fn load_row(blocks: &[u8], width: usize, at: usize, row: usize) -> u8x32
    requires within { at + 32 ≤ width }
    requires row { (row + 1) * width ≤ length blocks.now }
    ensures { (count : ℕ) → row + 1 ≤ count → IsCombination count (values_at width blocks.now at) (only row) result }
{
    load(blocks, row * width + at)
}

/// The places from `at` on of the blocks from `row` on.
#[inline(always)]
pub(crate) fn load_four(blocks: &[u8], width: usize, at: usize, row: usize) -> Four
    requires within { at + 32 ≤ width }
    requires rows { (row + 4) * width ≤ length blocks.now }
    ensures { (count : ℕ) → row + 4 ≤ count →
        AreFour count (values_at width blocks.now at) (only_four row) result.first result.second result.third result.fourth }
{
    Four {
        first: load_row(blocks, width, at, row),
        second: load_row(blocks, width, at, row + 1),
        third: load_row(blocks, width, at, row + 2),
        fourth: load_row(blocks, width, at, row + 3),
    }
}

/// Stores a vector in the block `row` of a target that has so many, if it has that one.
#[inline(always)]
pub(crate) fn store_row(out: &mut [u8], width: usize, rows: usize, row: usize, at: usize, v: u8x32)
    requires out { length out.old ≡ rows * width }
    requires within { at + 32 ≤ width }
    ensures { (sums : ℕ → ℕ → ℕ) (end : ℕ) → HasLanes v (λ k. sums row (at + k)) →
        AreMade sums width rows end row at out.old → AreMade sums width rows end (row + 1) at out.new }
{
    if row < rows {
        store(out, row * width + at, v);
    }
}

/// Does so with four blocks, from `row` on.
#[inline(always)]
pub(crate) fn store_four(out: &mut [u8], width: usize, rows: usize, row: usize, at: usize, v: Four)
    requires out { length out.old ≡ rows * width }
    requires within { at + 32 ≤ width }
    requires row { row + 4 ≤ 8 }
    ensures { (sums : ℕ → ℕ → ℕ) (end : ℕ) → AreRows sums row at v.first v.second v.third v.fourth →
        AreMade sums width rows end row at out.old → AreMade sums width rows end (row + 4) at out.new }
{
    store_row(out, width, rows, row, at, v.first);
    store_row(out, width, rows, row + 1, at, v.second);
    store_row(out, width, rows, row + 2, at, v.third);
    store_row(out, width, rows, row + 3, at, v.fourth);
}
