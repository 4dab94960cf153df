//! Four messages of one length, hashed side by side.

ghost use Rattle.std.specs.Prelude.{◌≡◌, ℕ, ◌/◌, ◌<◌, List, [], ◌∷◌, length};
ghost use Rattle.sha2.specs.Sha256.{digest_bytes, hash_after, initial_hash_256, sha256};
ghost use Rattle.hash_lanes.specs.Lanes.{lane, one_of};

use crate::constants::FIRST_HASH;
use crate::padding::{end_length, end_of};
use crate::rounds::compress;
use std::simd::u32x4;

/// The SHA-256 of each of four messages of one length, in their order.
pub(crate) fn hash_four(a: &[u8], b: &[u8], c: &[u8], d: &[u8]) -> [[u8; 32]; 4]
    requires b { length b.now ≡ length a.now }
    requires c { length c.now ≡ length a.now }
    requires d { length d.now ≡ length a.now }
    ensures { result ≡ sha256 a.now ∷ sha256 b.now ∷ sha256 c.now ∷ sha256 d.now ∷ [] }
{
    let mut hash = first_hash();
    take_in(&mut hash, a, b, c, d);
    let end = end_length(a.len());
    take_in(
        &mut hash,
        &end_of(a)[..end],
        &end_of(b)[..end],
        &end_of(c)[..end],
        &end_of(d)[..end],
    );
    [
        digest_of(&hash, 0),
        digest_of(&hash, 1),
        digest_of(&hash, 2),
        digest_of(&hash, 3),
    ]
}

/// The hash value before the first chunk, in each lane.
fn first_hash() -> [u32x4; 8]
    ensures { (j : ℕ) → j < 4 → lane j result ≡ initial_hash_256 }
{
    [
        u32x4::splat(FIRST_HASH[0]),
        u32x4::splat(FIRST_HASH[1]),
        u32x4::splat(FIRST_HASH[2]),
        u32x4::splat(FIRST_HASH[3]),
        u32x4::splat(FIRST_HASH[4]),
        u32x4::splat(FIRST_HASH[5]),
        u32x4::splat(FIRST_HASH[6]),
        u32x4::splat(FIRST_HASH[7]),
    ]
}

/// Takes the whole chunks of four messages of one length into the hash values, one after another.
fn take_in(hash: &mut [u32x4; 8], a: &[u8], b: &[u8], c: &[u8], d: &[u8])
    requires b { length b.now ≡ length a.now }
    requires c { length c.now ≡ length a.now }
    requires d { length d.now ≡ length a.now }
    ensures { (j : ℕ) → j < 4 → lane j hash.new
        ≡ hash_after (lane j hash.old) (one_of a.now b.now c.now d.now j) (length a.now / 64) }
{
    'chunks: for i in 0..a.len() / 64 {
        let at = 64 * i;
        compress(
            hash,
            &a[at..at + 64],
            &b[at..at + 64],
            &c[at..at + 64],
            &d[at..at + 64],
        );
    }
}

/// The digest of the message in lane `j`: the words of its hash value, each with its high byte first.
fn digest_of(hash: &[u32x4; 8], j: usize) -> [u8; 32]
    requires { j < 4 }
    ensures { result ≡ digest_bytes (lane j hash.now) 8 }
{
    let mut digest = [0u8; 32];
    'words: for i in 0..8 {
        let word = hash[i].to_array()[j];
        digest[4 * i..4 * i + 4].copy_from_slice(&word.to_be_bytes());
    }
    digest
}
