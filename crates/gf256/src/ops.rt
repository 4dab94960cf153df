//! Product, inverse and power, by the logarithms to the generator 2.

ghost use Rattle.std.specs.Prelude.{◌≡◌, ◌<◌};
ghost use Rattle.gf256.specs.Field.{product, power};

use crate::tables::{logarithm, power_of_two};

/// The product of two elements.
pub fn mul(a: u8, b: u8) -> u8
    ensures { result ≡ product a b }
{
    if a == 0 || b == 0 {
        return 0;
    }
    power_of_two(logarithm(a) as usize + logarithm(b) as usize)
}

/// The inverse of an element that is not 0: their product is 1.
pub fn inv(a: u8) -> u8
    requires { 0 < a }
    ensures { product a result ≡ 1 }
{
    power_of_two(255 - logarithm(a) as usize)
}

/// The n-th power of an element. The power of exponent 0 is 1, also that of 0.
pub fn pow(a: u8, n: u32) -> u8
    ensures { result ≡ power a n }
{
    if n == 0 {
        return 1;
    }
    if a == 0 {
        return 0;
    }
    power_of_two((logarithm(a) as u64 * n as u64 % 255) as usize)
}
