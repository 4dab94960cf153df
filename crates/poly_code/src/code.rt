//! Parity and rebuilt blocks.

ghost use Rattle.std.specs.Prelude.{◌≡◌, ℕ, ◌*◌, ◌<◌, ◌++◌, All, IfSome, length, slice_index};
ghost use Rattle.drive_base.specs.Plan.{data_drives};
ghost use Rattle.poly_code.specs.Codeword.{AreDistinct, Codeword, IsOfCodeword};
ghost use Rattle.poly_code.specs.Columns.{column};

use crate::block::{fill_block, fill_blocks};
use code_lanes::{fold_into, is_foldable};
use drive_base::SetPlan;

/// The numbers of the drives of a set. The first D are those of the data blocks.
static ROWS: [u8; 16] = [0, 1, 2, 3, 4, 5, 6, 7, 8, 9, 10, 11, 12, 13, 14, 15];

/// The width from which on blocks can be folded.
const SHORTEST_FOLD: usize = 32;

/// Makes the parity of a stripe. `blocks` has the D data blocks of a set in their order, of one width, and `out` becomes
/// the P parity blocks of that width, those with the numbers D, D + 1, .. N - 1: byte by byte, the N blocks are a
/// codeword.
pub fn encode(set: SetPlan, blocks: &[u8], out: &mut [u8])
    requires { (width : ℕ) × ((length blocks.now ≡ data_drives set.drives set.parity * width) × (length out.old ≡ set.parity * width)) }
    ensures { (width : ℕ) → length blocks.now ≡ data_drives set.drives set.parity * width →
        (k : ℕ) → k < width →
        Codeword set.drives (data_drives set.drives set.parity)
        (column (data_drives set.drives set.parity) width k blocks.now ++ column set.parity width k out.new) }
{
    let data_blocks = set.read_quorum();
    let width = out.len() / set.parity as usize;
    let count = data_blocks as usize;
    if width >= SHORTEST_FOLD && is_foldable(count) {
        fold_into(count, blocks, width, set.parity as usize, out);
        return;
    }
    fill_blocks(&ROWS[..count], blocks, width, data_blocks, set.parity, out);
}

/// Rebuilds one block of a stripe. `rows` are the numbers of D blocks of a set, no two the same, and `have` has these
/// blocks in the same order, of one width. `out`, of that width, becomes the block with the number `which`: byte by
/// byte, the one that a codeword has there which has the bytes of `have` at the rows.
pub fn rebuild(set: SetPlan, rows: &[u8], have: &[u8], which: u8, out: &mut [u8])
    requires count { length rows.now ≡ data_drives set.drives set.parity }
    requires below { All (λ row. row < set.drives) rows.now }
    requires distinct { AreDistinct rows.now }
    requires have { length have.now ≡ length rows.now * length out.old }
    requires which { which < set.drives }
    ensures { (k : ℕ) → k < length out.old →
        IsOfCodeword set.drives (data_drives set.drives set.parity) rows.now
        (column (data_drives set.drives set.parity) (length out.old) k have.now) which (slice_index out.new k) }
{
    if let Some(index) = place_of(rows, which) {
        let from = index * out.len();
        let end = from + out.len();
        out.copy_from_slice(&have[from..end]);
        return;
    }
    fill_block(rows, have, which, out);
}

/// The place of a number among the rows.
fn place_of(rows: &[u8], which: u8) -> Option<usize>
    ensures { IfSome result (λ index. (index < length rows.now) × (slice_index rows.now index ≡ which)) }
{
    for index in 0..rows.len() {
        if rows[index] == which {
            return Some(index);
        }
    }
    None
}
