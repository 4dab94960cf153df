//! Blocks of one length that lie one after another in a buffer.

ghost use Rattle.std.specs.Prelude.{◌≡◌, ◌+◌, ◌*◌, ◌≤◌, length, take};
ghost use Rattle.hash_lanes.specs.Blocks.{block_at, block_digests};

use crate::four::hash_four;
use crate::places::put_four;
use sha2::{Digest, Sha256};

/// Writes the SHA-256 (FIPS 180-4) of each block of `size` bytes, in order, where `bytes` is as many blocks,
/// one after another, as there are digests. Any number of blocks of any size will do, the size 0 too. Four
/// blocks at a time are hashed side by side, in about half the time, and the last three if three are left,
/// in two thirds of it. It takes no memory.
pub fn hash_equal_blocks(bytes: &[u8], size: usize, digests: &mut [[u8; 32]])
    requires { length bytes.now ≡ size * length digests.old }
    ensures { digests.new ≡ block_digests size bytes.now (length digests.old) }
{
    let count = digests.len();
    'groups: for group in 0..count / 4 {
        let at = 4 * group;
        let four = hash_four(
            block(bytes, size, at),
            block(bytes, size, at + 1),
            block(bytes, size, at + 2),
            block(bytes, size, at + 3),
        );
        put_four(digests, at, four);
    }
    hash_rest(bytes, size, digests, count / 4 * 4);
}

/// Writes the digests from place `at` on. Where three are left, they are hashed side by side with the last of
/// them once more, which takes less time than one after another.
fn hash_rest(bytes: &[u8], size: usize, digests: &mut [[u8; 32]], at: usize)
    requires bytes { length bytes.now ≡ size * length digests.old }
    requires at { at ≤ length digests.old }
    ensures { let wanted = block_digests size bytes.now (length digests.old) in
        take at digests.old ≡ take at wanted → digests.new ≡ wanted }
{
    if digests.len() - at == 3 {
        let a = block(bytes, size, at);
        let b = block(bytes, size, at + 1);
        let c = block(bytes, size, at + 2);
        let [a_digest, b_digest, c_digest, _] = hash_four(a, b, c, c);
        digests[at] = a_digest;
        digests[at + 1] = b_digest;
        digests[at + 2] = c_digest;
        return;
    }
    'rest: for i in at..digests.len() {
        digests[i] = Sha256::digest(block(bytes, size, i));
    }
}

/// Block `i` of a buffer of blocks of `size` bytes.
fn block(bytes: &[u8], size: usize, i: usize) -> &[u8]
    requires { size * (i + 1) ≤ length bytes.now }
    ensures block { result.now ≡ block_at size bytes.now i }
    ensures long { length result.now ≡ size }
{
    let from = size * i;
    &bytes[from..from + size]
}
