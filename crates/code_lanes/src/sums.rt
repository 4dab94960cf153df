//! Sums of products over several blocks, in one pass over the target.
//!
//! With t the sum of the weights w_0, w_1, .. the sum over v_0, v_1, .. is t v_0 + w_1 (v_0 + v_1) + w_2 (v_0 + v_2) + ..,
//! so there is one product fewer where t is 1. The weights of interpolation add up to 1.

ghost use Rattle.std.specs.Prelude.{◌≡◌, ℕ, ◌+◌, ◌*◌, ◌<◌, ◌≤◌, List, length, slice_index};
ghost use Rattle.code_lanes.specs.Lanes.{HasLanes};
ghost use Rattle.code_lanes.specs.Sums.{AreSums, byte_of_block, sum_at};
ghost use Rattle.code_lanes.specs.Tables.{AreSumTables};

use crate::lanes::{LANES, add, load, store, times, times_total};
use crate::tables::{SumTables, sum_tables_of};
use gf256::mul;
use std::simd::u8x32;

/// Fills `out` with the sums, byte by byte, of the products of each weight with the block of its index. `blocks` has
/// as many blocks as there are weights, up to 16, one after another, of the width of `out`.
pub fn sum_into(weights: &[u8], blocks: &[u8], out: &mut [u8])
    requires few { length weights.now ≤ 16 }
    requires blocks { length blocks.now ≡ length weights.now * length out.old }
    ensures { AreSums weights.now blocks.now out.new }
{
    if out.len() < LANES || weights.is_empty() {
        sum_bytes(weights, blocks, out);
        return;
    }
    let tables = sum_tables_of(weights);
    // Where the count is written down the loop over the blocks is unrolled.
    match weights.len() {
        2 => sum_strips(&tables, 2, blocks, out),
        3 => sum_strips(&tables, 3, blocks, out),
        4 => sum_strips(&tables, 4, blocks, out),
        6 => sum_strips(&tables, 6, blocks, out),
        8 => sum_strips(&tables, 8, blocks, out),
        count => sum_strips(&tables, count, blocks, out),
    }
}

/// Fills `out` with the sums over so many blocks.
#[inline(always)]
fn sum_strips(tables: &SumTables, count: usize, blocks: &[u8], out: &mut [u8])
    requires some { 0 < count }
    requires few { count ≤ 16 }
    requires wide { 32 ≤ length out.old }
    requires blocks { length blocks.now ≡ count * length out.old }
    ensures { (weights : List ℕ) → AreSumTables weights tables.now.total tables.now.whole tables.now.each → length weights ≡ count →
        AreSums weights blocks.now out.new }
{
    let width = out.len();
    for index in 0..width / LANES + 1 {
        let end = width - LANES * index;
        let at = end.saturating_sub(LANES);
        store(out, at, strip(tables, count, blocks, width, at));
    }
}

/// The sums at 32 places from `at` on.
#[inline(always)]
fn strip(tables: &SumTables, count: usize, blocks: &[u8], width: usize, at: usize) -> u8x32
    requires some { 0 < count }
    requires few { count ≤ 16 }
    requires blocks { length blocks.now ≡ count * width }
    requires within { at + 32 ≤ width }
    ensures { (weights : List ℕ) → AreSumTables weights tables.now.total tables.now.whole tables.now.each → length weights ≡ count →
        HasLanes result (λ k. sum_at weights width blocks.now (at + k)) }
{
    let first = load(blocks, at);
    let mut sums = times_total(tables.total, &tables.whole, first);
    for index in 1..count {
        let moved = add(first, load(blocks, index * width + at));
        sums = add(sums, times(&tables.each[index], moved));
    }
    sums
}

/// The same as `sum_into`, for blocks that are shorter than a vector.
pub(crate) fn sum_bytes(weights: &[u8], blocks: &[u8], out: &mut [u8])
    requires { length blocks.now ≡ length weights.now * length out.old }
    ensures { AreSums weights.now blocks.now out.new }
{
    let width = out.len();
    for k in 0..width {
        out[k] = byte_sum(weights, blocks, width, k);
    }
}

fn byte_sum(weights: &[u8], blocks: &[u8], width: usize, k: usize) -> u8
    requires blocks { length blocks.now ≡ length weights.now * width }
    requires within { k < width }
    ensures { result ≡ sum_at weights.now width blocks.now k }
{
    let mut sum = 0;
    for index in 0..weights.len() {
        sum ^= mul(weights[index], blocks[index * width + k]);
    }
    sum
}
