//! The work of FIPS 180-4, 6.2.2, on a chunk of 64 bytes, which the standard calls a block, for four chunks
//! at once.

ghost use Rattle.std.specs.Prelude.{◌≡◌, ℕ, ◌+◌, ◌*◌, ◌<◌, ◌≤◌, List, length, slice_index};
ghost use Rattle.sha2.specs.Sha256.{IsWindow, compress, round, rounds, schedule};
ghost use Rattle.hash_lanes.specs.Lanes.{lane, one_of, window_of};

use crate::constants::K;
use crate::window::{first_window, next_window};
use crate::words::{add, big_sigma0, big_sigma1, ch, maj};
use std::simd::u32x4;

/// One round.
#[inline(always)]
fn round(v: [u32x4; 8], k: u32, words: u32x4) -> [u32x4; 8]
    ensures { (j : ℕ) → j < 4 → lane j result ≡ round (lane j v) k (slice_index words j) }
{
    let [a, b, c, d, e, f, g, h] = v;
    let first = add(
        add(add(add(h, big_sigma1(e)), ch(e, f, g)), u32x4::splat(k)),
        words,
    );
    let second = add(big_sigma0(a), maj(a, b, c));
    [add(first, second), a, b, c, add(d, first), e, f, g]
}

/// Round `16 * turn + place`, with the window of the turn's sixteen words.
#[inline(always)]
fn round_of(window: &[u32x4; 16], v: [u32x4; 8], turn: usize, place: usize) -> [u32x4; 8]
    requires turn { turn < 4 }
    requires place { place < 16 }
    ensures { (j : ℕ) (chunk h : List ℕ) → j < 4
        → IsWindow (window_of j window.now) (schedule chunk 48) (16 * turn + 16)
        → lane j v ≡ rounds h (schedule chunk 48) (16 * turn + place)
        → lane j result ≡ rounds h (schedule chunk 48) (16 * turn + (place + 1)) }
{
    round(v, K[16 * turn + place], window[place])
}

#[inline(always)]
fn four_rounds(window: &[u32x4; 16], v: [u32x4; 8], turn: usize, place: usize) -> [u32x4; 8]
    requires turn { turn < 4 }
    requires place { place + 4 ≤ 16 }
    ensures { (j : ℕ) (chunk h : List ℕ) → j < 4
        → IsWindow (window_of j window.now) (schedule chunk 48) (16 * turn + 16)
        → lane j v ≡ rounds h (schedule chunk 48) (16 * turn + place)
        → lane j result ≡ rounds h (schedule chunk 48) (16 * turn + (place + 4)) }
{
    let v = round_of(window, v, turn, place);
    let v = round_of(window, v, turn, place + 1);
    let v = round_of(window, v, turn, place + 2);
    round_of(window, v, turn, place + 3)
}

/// Rounds `16 * turn` to `16 * turn + 15`.
#[inline(always)]
fn sixteen_rounds(window: &[u32x4; 16], v: [u32x4; 8], turn: usize) -> [u32x4; 8]
    requires { turn < 4 }
    ensures { (j : ℕ) (chunk h : List ℕ) → j < 4
        → IsWindow (window_of j window.now) (schedule chunk 48) (16 * turn + 16)
        → lane j v ≡ rounds h (schedule chunk 48) (16 * turn)
        → lane j result ≡ rounds h (schedule chunk 48) (16 * turn + 16) }
{
    let v = four_rounds(window, v, turn, 0);
    let v = four_rounds(window, v, turn, 4);
    let v = four_rounds(window, v, turn, 8);
    four_rounds(window, v, turn, 12)
}

/// The 64 rounds over a chunk for each lane, and the sum with the hash values before it.
pub(crate) fn compress(hash: &mut [u32x4; 8], a: &[u8], b: &[u8], c: &[u8], d: &[u8])
    requires a { length a.now ≡ 64 }
    requires b { length b.now ≡ 64 }
    requires c { length c.now ≡ 64 }
    requires d { length d.now ≡ 64 }
    ensures { (j : ℕ) → j < 4
        → lane j hash.new ≡ compress (lane j hash.old) (one_of a.now b.now c.now d.now j) }
{
    let mut window = first_window(a, b, c, d);
    let mut v = sixteen_rounds(&window, *hash, 0);
    'turns: for turn in 1..4 {
        next_window(&mut window, turn);
        v = sixteen_rounds(&window, v, turn);
    }
    *hash = [
        add(hash[0], v[0]),
        add(hash[1], v[1]),
        add(hash[2], v[2]),
        add(hash[3], v[3]),
        add(hash[4], v[4]),
        add(hash[5], v[5]),
        add(hash[6], v[6]),
        add(hash[7], v[7]),
    ];
}
