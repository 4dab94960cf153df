//! Two sums over the same blocks, each of which is read once.

ghost use Rattle.std.specs.Prelude.{◌≡◌, ℕ, ◌+◌, ◌*◌, ◌<◌, ◌≤◌, List, length};
ghost use Rattle.code_lanes.specs.Lanes.{HasLanes};
ghost use Rattle.code_lanes.specs.Sums.{AreSums, sum_at};
ghost use Rattle.code_lanes.specs.Tables.{AreSumTables};

use crate::lanes::{LANES, add, load, store, times, times_total};
use crate::sums::sum_bytes;
use crate::tables::{SumTables, sum_tables_of};
use std::simd::u8x32;

/// Does what [`sum_into`](crate::sum_into) does with the weights `first` and the target `out`, and with the weights
/// `second` and the target `other`, and reads the blocks once for both.
pub fn two_sums_into(first: &[u8], second: &[u8], blocks: &[u8], out: &mut [u8], other: &mut [u8])
    requires few { length first.now ≤ 16 }
    requires second { length second.now ≡ length first.now }
    requires blocks { length blocks.now ≡ length first.now * length out.old }
    requires other { length other.old ≡ length out.old }
    ensures first { AreSums first.now blocks.now out.new }
    ensures second { AreSums second.now blocks.now other.new }
{
    let width = out.len();
    if width < LANES || first.is_empty() {
        sum_bytes(first, blocks, out);
        sum_bytes(second, blocks, other);
        return;
    }
    let (tables, others) = (sum_tables_of(first), sum_tables_of(second));
    for index in 0..width / LANES + 1 {
        let end = width - LANES * index;
        let at = end.saturating_sub(LANES);
        let strips = two_strips(&tables, &others, first.len(), blocks, width, at);
        store(out, at, strips.0);
        store(other, at, strips.1);
    }
}

/// Both sums at 32 places from `at` on.
#[inline(always)]
fn two_strips(
    first: &SumTables,
    second: &SumTables,
    count: usize,
    blocks: &[u8],
    width: usize,
    at: usize,
) -> (u8x32, u8x32)
    requires some { 0 < count }
    requires few { count ≤ 16 }
    requires blocks { length blocks.now ≡ count * width }
    requires within { at + 32 ≤ width }
    ensures first { (weights : List ℕ) → AreSumTables weights first.now.total first.now.whole first.now.each → length weights ≡ count →
        HasLanes result.0 (λ k. sum_at weights width blocks.now (at + k)) }
    ensures second { (weights : List ℕ) → AreSumTables weights second.now.total second.now.whole second.now.each → length weights ≡ count →
        HasLanes result.1 (λ k. sum_at weights width blocks.now (at + k)) }
{
    let begin = load(blocks, at);
    let mut sums = times_total(first.total, &first.whole, begin);
    let mut others = times_total(second.total, &second.whole, begin);
    for index in 1..count {
        let moved = add(begin, load(blocks, index * width + at));
        sums = add(sums, times(&first.each[index], moved));
        others = add(others, times(&second.each[index], moved));
    }
    (sums, others)
}
