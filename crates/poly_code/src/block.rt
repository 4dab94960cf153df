//! The arithmetic of whole blocks.

ghost use Rattle.std.specs.Prelude.{◌≡◌, ℕ, ◌+◌, ◌*◌, ◌<◌, ◌≤◌, length, slice_index};
ghost use Rattle.poly_code.specs.Codeword.{AreDistinct};
ghost use Rattle.poly_code.specs.Columns.{byte_of_block};
ghost use Rattle.poly_code.specs.Lagrange.{IsValueThrough, weight};

use crate::weight::weight_of;
use code_lanes::{sum_into, two_sums_into};

/// Fills a block with the values at a point, byte by byte, of the polynomial that has the values of the blocks of
/// `have` at the rows.
pub fn fill_block(rows: &[u8], have: &[u8], point: u8, out: &mut [u8])
    requires few { length rows.now ≤ 16 }
    requires distinct { AreDistinct rows.now }
    requires have { length have.now ≡ length rows.now * length out.old }
    ensures { (k : ℕ) → k < length out.old →
        IsValueThrough rows.now (byte_of_block (length out.old) k have.now) point (slice_index out.new k) }
{
    sum_into(&weights_of(rows, point)[..rows.len()], have, out);
}

/// Fills `count` blocks of one width, with the values at a point and at those after it.
pub fn fill_blocks(rows: &[u8], have: &[u8], width: usize, point: u8, count: u8, out: &mut [u8])
    requires few { length rows.now ≤ 16 }
    requires distinct { AreDistinct rows.now }
    requires have { length have.now ≡ length rows.now * width }
    requires points { point + count < 256 }
    requires out { length out.old ≡ count * width }
    ensures { (p k : ℕ) → p < count → k < width →
        IsValueThrough rows.now (byte_of_block width k have.now) (point + p) (slice_index out.new (p * width + k)) }
{
    fill_pairs(rows, have, width, point, count / 2, out);
    if count % 2 == 1 {
        let last = count - 1;
        let from = last as usize * width;
        fill_block(rows, have, point + last, &mut out[from..from + width]);
    }
}

/// Fills the first `pairs` pairs of such blocks.
fn fill_pairs(rows: &[u8], have: &[u8], width: usize, point: u8, pairs: u8, out: &mut [u8])
    requires few { length rows.now ≤ 16 }
    requires distinct { AreDistinct rows.now }
    requires have { length have.now ≡ length rows.now * width }
    requires points { point + 2 * pairs < 256 }
    requires out { 2 * pairs * width ≤ length out.old }
    ensures { (p k : ℕ) → p < 2 * pairs → k < width →
        IsValueThrough rows.now (byte_of_block width k have.now) (point + p) (slice_index out.new (p * width + k)) }
{
    for pair in 0..pairs {
        let row = 2 * pair;
        let from = row as usize * width;
        fill_two_blocks(
            rows,
            have,
            width,
            point + row,
            &mut out[from..from + 2 * width],
        );
    }
}

fn fill_two_blocks(rows: &[u8], have: &[u8], width: usize, point: u8, out: &mut [u8])
    requires few { length rows.now ≤ 16 }
    requires distinct { AreDistinct rows.now }
    requires have { length have.now ≡ length rows.now * width }
    requires points { point < 255 }
    requires out { length out.old ≡ 2 * width }
    ensures { (p k : ℕ) → p < 2 → k < width →
        IsValueThrough rows.now (byte_of_block width k have.now) (point + p) (slice_index out.new (p * width + k)) }
{
    let weights = weights_of(rows, point);
    let others = weights_of(rows, point + 1);
    let count = rows.len();
    let (first, second) = out.split_at_mut(width);
    two_sums_into(&weights[..count], &others[..count], have, first, second);
}

/// How often the value at each row is counted in the value at a point.
fn weights_of(rows: &[u8], point: u8) -> [u8; 16]
    requires few { length rows.now ≤ 16 }
    requires distinct { AreDistinct rows.now }
    ensures { (i : ℕ) → i < length rows.now → slice_index result i ≡ weight rows.now i point }
{
    let mut weights = [0; 16];
    for index in 0..rows.len() {
        weights[index] = weight_of(rows, index, point);
    }
    weights
}
