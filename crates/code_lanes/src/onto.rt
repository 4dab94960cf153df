//! The product of one element with a block, added to another block.

ghost use Rattle.std.specs.Prelude.{◌≡◌, ℕ, ◌*◌, ◌/◌, ◌≤◌, length};
ghost use Rattle.code_lanes.specs.Sums.{AreAdded};

use crate::lanes::{LANES, add, load, store, times};
use crate::tables::table_of;
use gf256::mul;

/// Adds to each byte of `onto` the product of `by` with the byte of `from` at its place. For the sum of several
/// products [`sum_into`](crate::sum_into) is faster.
pub fn mul_into(by: u8, from: &[u8], onto: &mut [u8])
    requires { length from.now ≡ length onto.old }
    ensures { AreAdded by 0 (length onto.old) from.now onto.old onto.new }
{
    let strips = onto.len() / LANES;
    mul_strips(by, from, onto, strips);
    mul_bytes(by, from, onto, LANES * strips);
}

/// Does so for the bytes of so many whole vectors.
fn mul_strips(by: u8, from: &[u8], onto: &mut [u8], strips: usize)
    requires same { length from.now ≡ length onto.old }
    requires within { 32 * strips ≤ length onto.old }
    ensures { AreAdded by 0 (32 * strips) from.now onto.old onto.new }
{
    let table = table_of(by);
    for index in 0..strips {
        let at = LANES * index;
        store(onto, at, add(load(onto, at), times(&table, load(from, at))));
    }
}

/// Does so for the bytes from a place on.
fn mul_bytes(by: u8, from: &[u8], onto: &mut [u8], at: usize)
    requires same { length from.now ≡ length onto.old }
    requires within { at ≤ length onto.old }
    ensures { AreAdded by at (length onto.old) from.now onto.old onto.new }
{
    for k in at..onto.len() {
        onto[k] ^= mul(by, from[k]);
    }
}
