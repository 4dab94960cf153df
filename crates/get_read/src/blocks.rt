//! Blocks of a stripe from several drives: their comparison with their digests, and the stripe that they make.

ghost use Rattle.std.specs.Prelude.{◌≡◌, ◌<◌, ◌≤◌, ◌+◌, ◌*◌, ◌++◌, ◌∷◌, [], ℕ, List, IfOk, IsOk, IsTrue, false, length, map, slice_index, slice_index_or, take};
ghost use Rattle.std.specs.List.{remove, remove_range};
ghost use Rattle.sha2.specs.Sha256.{sha256};
ghost use Rattle.call_types.specs.declared.why.Why.{Why};
ghost use Rattle.drive_base.specs.Plan.{data_drives};
ghost use Rattle.shard_file.specs.Stripes.{pieces};
ghost use Rattle.get_read.specs.Stripes.{EachStripeOf, MakeStripe};
ghost use Rattle.get_read.specs.Blocks.{AreAtHand, AreSifted, block_at};
ghost use Rattle.get_read.specs.declared.blocks.Blocks.{Blocks};

use crate::calls::ShownBlock;
use call_types::{Why, Whys};
use drive_base::{MOST_DRIVES, SetPlan};
use poly_code::rebuild;
use seal_file::Damage;
use shard_file::block_digests;
use std::alloc::{AllocError, Global};

/// Blocks of a stripe, of one size: the numbers of their drives, the digests that the tables have for them, and the
/// blocks joined.
#[derive(Drop)]
pub struct Blocks {
    /// The numbers of the drives, rising.
    pub rows: Vec<u8>,
    /// The digest that each drive's table has for its block.
    pub stored: Vec<[u8; 32]>,
    /// The blocks, in the order of the drives.
    pub bytes: Vec<u8>,
}

/// Adds the block of one more drive.
pub fn add_block(found: &mut Blocks, index: u8, fetched: &ShownBlock) -> Result<(), AllocError>
    ensures rows { IsOk result → found.new.rows.items ≡ found.old.rows.items ++ index ∷ [] }
    ensures stored { IsOk result → found.new.stored.items ≡ found.old.stored.items ++ fetched.now.stored ∷ [] }
    ensures bytes { IsOk result → found.new.bytes.items ≡ found.old.bytes.items ++ fetched.now.block.items }
{
    found.rows.push(index)?;
    found.stored.push(fetched.stored)?;
    found.bytes.extend_from_slice(fetched.block.as_slice())
}

/// Compares all blocks with their digests, which are computed together. A block that has another digest is taken out,
/// and the `Why` of its drive says so. Those that are left are verified.
pub fn sift(found: &mut Blocks, whys: &mut Whys, size: usize)
    requires few { length found.old.rows.items ≤ 16 }
    requires at_hand { AreAtHand size found.old whys.old }
    ensures { AreSifted size 0 found.old found.new whys.old whys.new }
{
    let count = found.rows.len();
    let mut digests = [[0; 32]; MOST_DRIVES as usize];
    let digests = &mut digests[..count];
    block_digests(found.bytes.as_slice(), size, digests);
    keep_verified(found, whys, size, digests);
}

/// Whether there are as many blocks as are wanted, and all verify. They are compared only where there are as many.
pub fn are_enough(found: &mut Blocks, whys: &mut Whys, size: usize, wanted: usize) -> bool
    requires few { length found.old.rows.items ≤ 16 }
    requires most { length found.old.rows.items ≤ wanted }
    requires at_hand { AreAtHand size found.old whys.old }
    ensures sifted { (place : ℕ) × AreSifted size place found.old found.new whys.old whys.new }
    ensures verified { IsTrue result → AreSifted size 0 found.old found.new whys.old whys.new }
    ensures enough { IsTrue result → length found.new.rows.items ≡ wanted }
    ensures fewer { result ≡ false → length found.new.rows.items < wanted }
{
    if found.rows.len() < wanted {
        return false;
    }
    sift(found, whys, size);
    found.rows.len() == wanted
}

/// Takes the blocks out that haven't their stored digest, given the digests of all.
fn keep_verified(found: &mut Blocks, whys: &mut Whys, size: usize, digests: &[[u8; 32]])
    requires at_hand { AreAtHand size found.old whys.old }
    requires count { length digests.now ≡ length found.old.rows.items }
    requires digests { digests.now ≡ map sha256 (pieces size (length found.old.rows.items) found.old.bytes.items) }
    ensures { AreSifted size 0 found.old found.new whys.old whys.new }
{
    let mut place = found.rows.len();
    while place > 0 {
        place -= 1;
        compare(found, whys, place, size, digests[place]);
    }
}

/// Takes the block at a place out if it hasn't its stored digest, given the one that was computed. The `Why` of its
/// drive tells both.
fn compare(found: &mut Blocks, whys: &mut Whys, place: usize, size: usize, computed: [u8; 32])
    requires place { place < length found.old.rows.items }
    requires at_hand { AreAtHand size found.old whys.old }
    requires computed { computed ≡ sha256 (block_at size found.old place) }
    ensures { (from : Blocks) (causes : List Why) → AreSifted size (place + 1) from found.old causes whys.old → AreSifted size place from found.new causes whys.new }
{
    let stored = found.stored.as_slice()[place];
    if stored == computed {
        return;
    }
    let row = found.rows.as_slice()[place];
    whys.set(
        row as usize,
        Why::Damaged(Damage::Digest { stored, computed }),
    );
    take_out(found, place, size);
}

/// Takes the block at a place out.
fn take_out(found: &mut Blocks, place: usize, size: usize)
    requires rows { place < length found.old.rows.items }
    requires stored { length found.old.stored.items ≡ length found.old.rows.items }
    requires size { length found.old.bytes.items ≡ length found.old.rows.items * size }
    ensures rows { found.new.rows.items ≡ remove found.old.rows.items place }
    ensures stored { found.new.stored.items ≡ remove found.old.stored.items place }
    ensures bytes { found.new.bytes.items ≡ remove_range found.old.bytes.items (size * place) (size * place + size) }
{
    let from = size * place;
    found.rows.remove(place);
    found.stored.remove(place);
    found.bytes.drain(from..from + size);
}

/// The bytes of a stripe of so many bytes, from verified blocks of this size. Where these are its data blocks no byte is copied.
pub fn stripe_of(
    alloc: Global,
    set: &SetPlan,
    blocks: Blocks,
    size: usize,
    long: usize,
) -> Result<Vec<u8>, AllocError>
    requires { MakeStripe set.now size long blocks }
    ensures long { IfOk result (λ bytes. length bytes.items ≡ long) }
    ensures stripe { IfOk result (λ bytes. EachStripeOf set.now size long blocks (λ stripe _. bytes.items ≡ stripe)) }
{
    if are_data(blocks.rows.as_slice()) {
        let mut bytes = blocks.bytes;
        bytes.truncate(long);
        return Ok(bytes);
    }
    let mut bytes = Vec::with_capacity(alloc, blocks.bytes.len())?;
    add_stripe(alloc, set, &blocks, size, long, &mut bytes)?;
    Ok(bytes)
}

/// Whether each of these rows is that of the data block at its place.
pub fn are_data(rows: &[u8]) -> bool
    ensures { IsTrue result → (j : ℕ) → j < length rows.now → slice_index rows.now j ≡ j }
{
    for place in 0..rows.len() {
        if rows[place] as usize != place {
            return false;
        }
    }
    true
}

/// Adds the bytes of a stripe of so many bytes to the body, from verified blocks of this size.
pub fn add_stripe(
    alloc: Global,
    set: &SetPlan,
    blocks: &Blocks,
    size: usize,
    long: usize,
    body: &mut Vec<u8>,
) -> Result<(), AllocError>
    requires { MakeStripe set.now size long blocks.now }
    ensures long { IsOk result → length body.new.items ≡ length body.old.items + long }
    ensures kept { IsOk result → take (length body.old.items) body.new.items ≡ body.old.items }
    ensures stripe { IsOk result → EachStripeOf set.now size long blocks.now (λ stripe _. body.new.items ≡ body.old.items ++ stripe) }
{
    let wanted = body.len() + long;
    for which in 0..set.read_quorum() {
        add_data_block(alloc, set, blocks, size, long, which, body)?;
    }
    body.truncate(wanted);
    Ok(())
}

/// Adds a data block of a stripe of so many bytes, from verified blocks. Where it is at hand at its own place it is copied from there.
fn add_data_block(
    alloc: Global,
    set: &SetPlan,
    blocks: &Blocks,
    size: usize,
    long: usize,
    which: u8,
    body: &mut Vec<u8>,
) -> Result<(), AllocError>
    requires blocks { MakeStripe set.now size long blocks.now }
    requires which { which < data_drives set.now.drives set.now.parity }
    ensures long { IsOk result → length body.new.items ≡ length body.old.items + size }
    ensures kept { IsOk result → take (length body.old.items) body.new.items ≡ body.old.items }
    ensures block { IsOk result → EachStripeOf set.now size long blocks.now (λ _ shards. body.new.items ≡ body.old.items ++ slice_index_or shards which []) }
{
    let own = which as usize;
    if blocks.rows.as_slice()[own] == which {
        let from = own * size;
        return body.extend_from_slice(&blocks.bytes.as_slice()[from..from + size]);
    }
    let mut out = vec![in alloc; 0; size]?;
    rebuild(
        *set,
        blocks.rows.as_slice(),
        blocks.bytes.as_slice(),
        which,
        out.as_mut_slice(),
    );
    body.extend_from_slice(out.as_slice())?;
    Ok(())
}
