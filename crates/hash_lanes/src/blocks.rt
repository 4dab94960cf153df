//! Blocks anywhere in memory, of any lengths.

ghost use Rattle.std.specs.Prelude.{◌≡◌, ◌+◌, ◌<◌, ◌≤◌, ◌++◌, length, map, take};
ghost use Rattle.sha2.specs.Sha256.{sha256};
ghost use Rattle.hash_lanes.specs.Blocks.{digests_of};

use crate::four::hash_four;
use crate::places::put_four;
use sha2::{Digest, Sha256};

/// Writes the SHA-256 (FIPS 180-4) of each block, in the order of the blocks. Any number of blocks of any
/// lengths will do. Four neighbours of one length are hashed side by side, in about half the time. It
/// takes no memory.
pub fn hash_blocks(blocks: &[&[u8]], digests: &mut [[u8; 32]])
    requires { length digests.old ≡ length blocks.now }
    ensures { digests.new ≡ map (λ block. sha256 block.now) blocks.now }
{
    let mut at = 0;
    'groups: while at < blocks.len() {
        at = hash_next(blocks, digests, at);
    }
}

/// Writes the digest of block `at`, or of it and the three after it where the four have one length. The
/// result is the place of the next block.
fn hash_next(blocks: &[&[u8]], digests: &mut [[u8; 32]], at: usize) -> usize
    requires long { length digests.old ≡ length blocks.now }
    requires at { at < length blocks.now }
    ensures more { at < result }
    ensures within { result ≤ length blocks.now }
    ensures digests { take at digests.old ≡ take at (digests_of blocks.now)
        → take result digests.new ≡ take result (digests_of blocks.now) }
{
    if blocks.len() - at >= 4 {
        let (a, b, c, d) = (blocks[at], blocks[at + 1], blocks[at + 2], blocks[at + 3]);
        if b.len() == a.len() && c.len() == a.len() && d.len() == a.len() {
            put_four(digests, at, hash_four(a, b, c, d));
            return at + 4;
        }
    }
    digests[at] = Sha256::digest(blocks[at]);
    at + 1
}
