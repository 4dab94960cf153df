//! The functions of FIPS 180-4, 4.1.2, on four words at once, one in each lane of a vector.

ghost use Rattle.std.specs.Prelude.{◌≡◌, ℕ, ◌*◌, ◌/◌, ◌%◌, ◌^◌, ◌<◌, bit_and, bit_or, bit_xor, slice_index};
ghost use Rattle.std.specs.Int.{w32, bit_not, rotate_right};
ghost use Rattle.sha2.specs.Sha256.{add32, big_sigma0, big_sigma1, ch, maj, small_sigma0, small_sigma1};

use std::simd::u32x4;

/// The sums of words, without the carry.
#[inline(always)]
pub(crate) fn add(x: u32x4, y: u32x4) -> u32x4
    ensures { (j : ℕ) → j < 4 → slice_index result j ≡ add32 (slice_index x j) (slice_index y j) }
{
    x + y
}

#[inline(always)]
fn xor(x: u32x4, y: u32x4) -> u32x4
    ensures { (j : ℕ) → j < 4 → slice_index result j ≡ bit_xor (slice_index x j) (slice_index y j) }
{
    x ^ y
}

#[inline(always)]
fn and(x: u32x4, y: u32x4) -> u32x4
    ensures { (j : ℕ) → j < 4 → slice_index result j ≡ bit_and (slice_index x j) (slice_index y j) }
{
    x & y
}

#[inline(always)]
fn not(x: u32x4) -> u32x4
    ensures { (j : ℕ) → j < 4 → slice_index result j ≡ bit_not w32 (slice_index x j) }
{
    !x
}

#[inline(always)]
fn or(x: u32x4, y: u32x4) -> u32x4
    ensures { (j : ℕ) → j < 4 → slice_index result j ≡ bit_or (slice_index x j) (slice_index y j) }
{
    x | y
}

/// Words shifted to the right by `k` bits.
#[inline(always)]
fn shift_right(x: u32x4, k: u32) -> u32x4
    requires { k < 32 }
    ensures { (j : ℕ) → j < 4 → slice_index result j ≡ slice_index x j / 2 ^ k }
{
    x >> u32x4::splat(k)
}

/// Words shifted to the left by `k` bits, without the bits that leave the word.
#[inline(always)]
fn shift_left(x: u32x4, k: u32) -> u32x4
    requires { k < 32 }
    ensures { (j : ℕ) → j < 4 → slice_index result j ≡ slice_index x j * 2 ^ k % 2 ^ 32 }
{
    x << u32x4::splat(k)
}

/// Words rotated to the right by `k` bits.
#[inline(always)]
fn rotate(x: u32x4, k: u32) -> u32x4
    requires low { 0 < k }
    requires high { k < 32 }
    ensures { (j : ℕ) → j < 4 → slice_index result j ≡ rotate_right w32 (slice_index x j) k }
{
    or(shift_right(x, k), shift_left(x, 32 - k))
}

/// Bits of `y` where `x` has a 1, and of `z` where it has a 0.
#[inline(always)]
pub(crate) fn ch(x: u32x4, y: u32x4, z: u32x4) -> u32x4
    ensures { (j : ℕ) → j < 4
        → slice_index result j ≡ ch (slice_index x j) (slice_index y j) (slice_index z j) }
{
    xor(and(x, y), and(not(x), z))
}

/// Bits that two or three of the words have. It takes two operations fewer than the standard's form, since
/// one round's `x ^ y` is the next round's `y ^ z`.
#[inline(always)]
pub(crate) fn maj(x: u32x4, y: u32x4, z: u32x4) -> u32x4
    ensures { (j : ℕ) → j < 4
        → slice_index result j ≡ maj (slice_index x j) (slice_index y j) (slice_index z j) }
{
    xor(y, and(xor(x, y), xor(y, z)))
}

#[inline(always)]
pub(crate) fn big_sigma0(x: u32x4) -> u32x4
    ensures { (j : ℕ) → j < 4 → slice_index result j ≡ big_sigma0 (slice_index x j) }
{
    xor(xor(rotate(x, 2), rotate(x, 13)), rotate(x, 22))
}

#[inline(always)]
pub(crate) fn big_sigma1(x: u32x4) -> u32x4
    ensures { (j : ℕ) → j < 4 → slice_index result j ≡ big_sigma1 (slice_index x j) }
{
    xor(xor(rotate(x, 6), rotate(x, 11)), rotate(x, 25))
}

#[inline(always)]
pub(crate) fn small_sigma0(x: u32x4) -> u32x4
    ensures { (j : ℕ) → j < 4 → slice_index result j ≡ small_sigma0 (slice_index x j) }
{
    xor(xor(rotate(x, 7), rotate(x, 18)), shift_right(x, 3))
}

#[inline(always)]
pub(crate) fn small_sigma1(x: u32x4) -> u32x4
    ensures { (j : ℕ) → j < 4 → slice_index result j ≡ small_sigma1 (slice_index x j) }
{
    xor(xor(rotate(x, 17), rotate(x, 19)), shift_right(x, 10))
}
