//! The field of 256 elements, in which the erasure code computes.
//!
//! An element is a byte: the polynomial over the bits whose coefficient of x^i is bit i. Elements are added by
//! exclusive or, and multiplied modulo x^8 + x^4 + x^3 + x^2 + 1 (0x11D), which makes 2 a generator: its powers
//! are all elements but 0.
//!
//! The crate stands on nothing. It promises that [`mul`], [`inv`] and [`pow`] are the field's product, inverse and
//! power, by their definition and not by any table, that the field obeys its laws ([`field_laws`]), and that two
//! polynomials over it are equal where they agree at as many elements as they have coefficients
//! ([`polynomial_laws`]).
#![tactic(auto)]

mod laws;
mod ops;
mod tables;

pub use laws::{field_laws, polynomial_laws};
pub use ops::{inv, mul, pow};
