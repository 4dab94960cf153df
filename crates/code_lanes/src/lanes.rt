//! Vectors of 32 bytes, lane by lane.

ghost use Rattle.std.specs.Prelude.{◌≡◌, ℕ, ◌+◌, ◌%◌, ◌≤◌, bit_xor, length, slice_index};
ghost use Rattle.std.specs.Simd.Lanes.{put_chunk};
ghost use Rattle.gf256.specs.Field.{product};
ghost use Rattle.code_lanes.specs.Lanes.{HasLanes};
ghost use Rattle.code_lanes.specs.Tables.{IsTable};

use std::simd::prelude::*;

/// How many bytes a vector has.
pub(crate) const LANES: usize = 32;

#[inline(always)]
pub(crate) fn load(bytes: &[u8], at: usize) -> u8x32
    requires { at + 32 ≤ length bytes.now }
    ensures { HasLanes result (λ k. slice_index bytes.now (at + k)) }
{
    u8x32::from_slice(&bytes[at..])
}

#[inline(always)]
pub(crate) fn store(out: &mut [u8], at: usize, v: u8x32)
    requires room { at + 32 ≤ length out.old }
    ensures { out.new ≡ put_chunk at out.old v }
{
    v.copy_to_slice(&mut out[at..]);
}

#[inline(always)]
pub(crate) fn add(a: u8x32, b: u8x32) -> u8x32
    ensures { HasLanes result (λ k. bit_xor (slice_index a k) (slice_index b k)) }
{
    a ^ b
}

/// The products of an element with each lane, by its table.
#[inline(always)]
pub(crate) fn times(table: &[u8; 32], v: u8x32) -> u8x32
    ensures { (element : ℕ) → IsTable element table.now → HasLanes result (λ k. product element (slice_index v k)) }
{
    let low = half(table, 0).swizzle_dyn_within::<16>(v & u8x32::splat(15));
    let high = half(table, 16).swizzle_dyn_within::<16>(v >> u8x32::splat(4));
    low ^ high
}

/// The products of the sum of the weights with each lane. With the sum 1 the lanes stay.
#[inline(always)]
pub(crate) fn times_total(total: u8, table: &[u8; 32], v: u8x32) -> u8x32
    ensures { IsTable total table.now → HasLanes result (λ k. product total (slice_index v k)) }
{
    if total == 1 {
        return v;
    }
    times(table, v)
}

/// Sixteen bytes of a table, twice.
#[inline(always)]
fn half(table: &[u8], at: usize) -> u8x32
    requires { at + 16 ≤ length table.now }
    ensures { HasLanes result (λ k. slice_index table.now (at + k % 16)) }
{
    u8x16::from_slice(&table[at..]).swizzle([
        0, 1, 2, 3, 4, 5, 6, 7, 8, 9, 10, 11, 12, 13, 14, 15, 0, 1, 2, 3, 4, 5, 6, 7, 8, 9, 10, 11,
        12, 13, 14, 15,
    ])
}
