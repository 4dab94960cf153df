//! The steps of the additive transform, which takes the values of a polynomial at the numbers 0 to 2^k - 1 to its
//! coefficients, and these to its values at 2^k numbers after them.
//!
//! Let n_i be the polynomial of degree 2^i that is 0 at the numbers below 2^i, and 1 at 2^i. It takes sums to sums, so it is
//! some constant c over 2^i numbers that differ in their bits below i only, and c + 1 over the 2^i numbers after them.
//! A polynomial of degree below 2^(i + 1) is a + n_i b, with a and b of degree below 2^i. Over the first of these numbers
//! it is a + c b, and over the next that plus b: one product for two coefficients. The layers go from the highest i down to
//! 0, where a coefficient is a value, and backwards they take values to coefficients.

ghost use Rattle.std.specs.Prelude.{ℕ};
ghost use Rattle.code_lanes.specs.Steps.{AreFour, FourFactors, IsCombination, added, first_coefficients, four_coefficients, four_values, high_value, low_coefficient, low_value, lower_across, upper_across};
ghost use Rattle.code_lanes.specs.Tables.{IsTable};

use crate::lanes::{add, times};
use crate::rows::Four;
use std::simd::u8x32;

/// The values of two coefficients: `low` plus the multiple of `high`, and that plus `high`.
#[inline(always)]
pub(crate) fn evaluate_two(low: u8x32, high: u8x32, table: &[u8; 32]) -> (u8x32, u8x32)
    ensures { (count : ℕ) (values : ℕ → ℕ → ℕ) (f g : ℕ → ℕ) (c : ℕ) → IsTable c table.now →
        IsCombination count values f low → IsCombination count values g high →
        IsCombination count values (low_value c f g) result.0 × IsCombination count values (high_value c f g) result.1 }
{
    let first = add(low, times(table, high));
    (first, add(first, high))
}

/// The two coefficients for two values.
#[inline(always)]
fn interpolate_two(low: u8x32, high: u8x32, table: &[u8; 32]) -> (u8x32, u8x32)
    ensures { (count : ℕ) (values : ℕ → ℕ → ℕ) (f g : ℕ → ℕ) (c : ℕ) → IsTable c table.now →
        IsCombination count values f low → IsCombination count values g high →
        IsCombination count values (low_coefficient c f g) result.0 × IsCombination count values (added f g) result.1 }
{
    let second = add(low, high);
    (add(low, times(table, second)), second)
}

/// The values of four coefficients, by the constants of the outer layer and of the two halves of the inner one.
#[inline(always)]
pub(crate) fn evaluate_four(v: Four, outer: &[u8; 32], low: &[u8; 32], high: &[u8; 32]) -> Four
    ensures { (count : ℕ) (values : ℕ → ℕ → ℕ) (m : FourFactors) (a b c : ℕ) →
        IsTable a outer.now → IsTable b low.now → IsTable c high.now →
        AreFour count values m v.first v.second v.third v.fourth →
        AreFour count values (four_values a b c m) result.first result.second result.third result.fourth }
{
    let (a, c) = evaluate_two(v.first, v.third, outer);
    let (b, d) = evaluate_two(v.second, v.fourth, outer);
    let (first, second) = evaluate_two(a, b, low);
    let (third, fourth) = evaluate_two(c, d, high);
    Four {
        first,
        second,
        third,
        fourth,
    }
}

/// The coefficients for four values.
#[inline(always)]
pub(crate) fn interpolate_four(v: Four, outer: &[u8; 32], low: &[u8; 32], high: &[u8; 32]) -> Four
    ensures { (count : ℕ) (values : ℕ → ℕ → ℕ) (m : FourFactors) (a b c : ℕ) →
        IsTable a outer.now → IsTable b low.now → IsTable c high.now →
        AreFour count values m v.first v.second v.third v.fourth →
        AreFour count values (four_coefficients a b c m) result.first result.second result.third result.fourth }
{
    let (a, b) = interpolate_two(v.first, v.second, low);
    let (c, d) = interpolate_two(v.third, v.fourth, high);
    let (first, third) = interpolate_two(a, c, outer);
    let (second, fourth) = interpolate_two(b, d, outer);
    Four {
        first,
        second,
        third,
        fourth,
    }
}

/// The coefficients for the values at 0, 1, 2 and 3, where two of the constants are 0.
#[inline(always)]
pub(crate) fn interpolate_first(v: Four, high: &[u8; 32]) -> Four
    ensures { (count : ℕ) (values : ℕ → ℕ → ℕ) (m : FourFactors) (c : ℕ) → IsTable c high.now →
        AreFour count values m v.first v.second v.third v.fourth →
        AreFour count values (first_coefficients c m) result.first result.second result.third result.fourth }
{
    let b = add(v.first, v.second);
    let (c, d) = interpolate_two(v.third, v.fourth, high);
    Four {
        first: v.first,
        second: b,
        third: add(v.first, c),
        fourth: add(b, d),
    }
}

/// The layer that joins two fours, whose constant is 0 for the coefficients: these are made and evaluated again.
#[inline(always)]
pub(crate) fn cross(v: Four, w: Four, table: &[u8; 32]) -> (Four, Four)
    ensures { (count : ℕ) (values : ℕ → ℕ → ℕ) (m n : FourFactors) (c : ℕ) → IsTable c table.now →
        AreFour count values m v.first v.second v.third v.fourth →
        AreFour count values n w.first w.second w.third w.fourth →
        AreFour count values (lower_across c m n) result.0.first result.0.second result.0.third result.0.fourth
        × AreFour count values (upper_across c m n) result.1.first result.1.second result.1.third result.1.fourth }
{
    let (a, e) = cross_two(v.first, w.first, table);
    let (b, f) = cross_two(v.second, w.second, table);
    let (c, g) = cross_two(v.third, w.third, table);
    let (d, h) = cross_two(v.fourth, w.fourth, table);
    let low = Four {
        first: a,
        second: b,
        third: c,
        fourth: d,
    };
    let high = Four {
        first: e,
        second: f,
        third: g,
        fourth: h,
    };
    (low, high)
}

#[inline(always)]
pub(crate) fn cross_two(low: u8x32, high: u8x32, table: &[u8; 32]) -> (u8x32, u8x32)
    ensures { (count : ℕ) (values : ℕ → ℕ → ℕ) (f g : ℕ → ℕ) (c : ℕ) → IsTable c table.now →
        IsCombination count values f low → IsCombination count values g high →
        IsCombination count values (low_coefficient c f g) result.0
        × IsCombination count values (added (low_coefficient c f g) (added f g)) result.1 }
{
    evaluate_two(low, add(low, high), table)
}
