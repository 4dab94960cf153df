//! The weights of Lagrange's interpolation.

ghost use Rattle.std.specs.Prelude.{◌≡◌, ◌<◌, length};
ghost use Rattle.poly_code.specs.Codeword.{AreDistinct};
ghost use Rattle.poly_code.specs.Lagrange.{differences, weight};

use gf256::{inv, mul};

/// The product of the differences of a point from each row but one.
fn differences_from(rows: &[u8], skipped: usize, point: u8) -> u8
    ensures { result ≡ differences rows.now skipped point (length rows.now) }
{
    let mut product = 1;
    for (index, row) in rows.iter().enumerate() {
        if index != skipped {
            product = mul(product, point ^ *row);
        }
    }
    product
}

/// How often the value at the row of this index is counted in the value at a point.
pub fn weight_of(rows: &[u8], index: usize, point: u8) -> u8
    requires distinct { AreDistinct rows.now }
    requires within { index < length rows.now }
    ensures { result ≡ weight rows.now index point }
{
    let above = differences_from(rows, index, point);
    let below = differences_from(rows, index, rows[index]);
    mul(above, inv(below))
}
