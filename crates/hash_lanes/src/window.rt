//! The schedule of FIPS 180-4, 6.2.2, of four chunks at once, sixteen words of each at a time.

ghost use Rattle.std.specs.Prelude.{◌≡◌, ℕ, ◌+◌, ◌*◌, ◌<◌, ◌≤◌, List, length, slice_index};
ghost use Rattle.sha2.specs.Sha256.{IsWindow, schedule, word_at};
ghost use Rattle.hash_lanes.specs.Lanes.{one_of, window_of};

use crate::words::{add, small_sigma0, small_sigma1};
use std::simd::u32x4;

/// The word at byte `i` of a chunk, high byte first.
#[inline(always)]
fn word_at(chunk: &[u8], i: usize) -> u32
    requires { i + 4 ≤ length chunk.now }
    ensures { result ≡ word_at chunk.now i }
{
    u32::from_be_bytes([chunk[i], chunk[i + 1], chunk[i + 2], chunk[i + 3]])
}

/// The words at byte `i` of four chunks.
#[inline(always)]
fn words_at(a: &[u8], b: &[u8], c: &[u8], d: &[u8], i: usize) -> u32x4
    requires a { i + 4 ≤ length a.now }
    requires b { i + 4 ≤ length b.now }
    requires c { i + 4 ≤ length c.now }
    requires d { i + 4 ≤ length d.now }
    ensures { (j : ℕ) → j < 4 → slice_index result j ≡ word_at (one_of a.now b.now c.now d.now j) i }
{
    u32x4::from_array([word_at(a, i), word_at(b, i), word_at(c, i), word_at(d, i)])
}

/// The first window: the sixteen words of each chunk.
#[inline(always)]
pub(crate) fn first_window(a: &[u8], b: &[u8], c: &[u8], d: &[u8]) -> [u32x4; 16]
    requires a { length a.now ≡ 64 }
    requires b { length b.now ≡ 64 }
    requires c { length c.now ≡ 64 }
    requires d { length d.now ≡ 64 }
    ensures { (j : ℕ) → j < 4
        → IsWindow (window_of j result) (schedule (one_of a.now b.now c.now d.now j) 48) 16 }
{
    let mut window = [u32x4::splat(0); 16];
    'fill: for i in 0..16 {
        window[i] = words_at(a, b, c, d, 4 * i);
    }
    window
}

/// Puts word `16 * turn + place` of each schedule over the word 16 before it, which is no longer needed.
#[inline(always)]
fn next_word(window: &mut [u32x4; 16], turn: usize, place: usize)
    requires low { 1 ≤ turn }
    requires high { turn < 4 }
    requires place { place < 16 }
    ensures { (j : ℕ) (chunk : List ℕ) → j < 4
        → IsWindow (window_of j window.old) (schedule chunk 48) (16 * turn + place)
        → IsWindow (window_of j window.new) (schedule chunk 48) (16 * turn + (place + 1)) }
{
    let recent = add(
        small_sigma1(window[(place + 14) % 16]),
        window[(place + 9) % 16],
    );
    let older = add(small_sigma0(window[(place + 1) % 16]), window[place]);
    window[place] = add(recent, older);
}

#[inline(always)]
fn next_four_words(window: &mut [u32x4; 16], turn: usize, place: usize)
    requires low { 1 ≤ turn }
    requires high { turn < 4 }
    requires place { place + 4 ≤ 16 }
    ensures { (j : ℕ) (chunk : List ℕ) → j < 4
        → IsWindow (window_of j window.old) (schedule chunk 48) (16 * turn + place)
        → IsWindow (window_of j window.new) (schedule chunk 48) (16 * turn + (place + 4)) }
{
    next_word(window, turn, place);
    next_word(window, turn, place + 1);
    next_word(window, turn, place + 2);
    next_word(window, turn, place + 3);
}

/// The window of words `16 * turn` to `16 * turn + 15`, from the one before it.
#[inline(always)]
pub(crate) fn next_window(window: &mut [u32x4; 16], turn: usize)
    requires low { 1 ≤ turn }
    requires high { turn < 4 }
    ensures { (j : ℕ) (chunk : List ℕ) → j < 4
        → IsWindow (window_of j window.old) (schedule chunk 48) (16 * turn)
        → IsWindow (window_of j window.new) (schedule chunk 48) (16 * turn + 16) }
{
    next_four_words(window, turn, 0);
    next_four_words(window, turn, 4);
    next_four_words(window, turn, 8);
    next_four_words(window, turn, 12);
}
