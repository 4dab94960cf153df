//! The erasure code of a set: parity blocks, and any block of a stripe from as many others as it has data blocks.
//!
//! A stripe has D data blocks of one width and P parity blocks of that width, N in all. Byte by byte, the N blocks
//! are the values of one polynomial over the field of 256 elements at the points 0, 1, .. N - 1, with D
//! coefficients ([`Codeword`] of the specs). So any D blocks determine the others.
//!
//! The crate stands on `gf256` for the field, on `code_lanes` for sums of products of whole blocks, and on `drive_base`
//! for the plan of a set. It promises that [`encode`] gives the parity of which every column is a codeword, that
//! [`rebuild`] gives the block of the one codeword through the D blocks that it is given, and that this codeword is one
//! ([`codeword_laws`]). It takes no memory and refuses nothing.
//!
//! Where D is 2, 4 or 8 the parity comes of the transform of `code_lanes`, else of weighted sums. A lost block is one such
//! sum of the D blocks at hand, and one that is at hand is copied. The weights are Lagrange's: a row of the inverse of the
//! code's matrix at the rows at hand. They are worked out once a call, and add up to 1, so a byte takes D - 1 products.
#![tactic(auto)]

mod block;
mod code;
mod laws;
mod weight;

pub use code::{encode, rebuild};
pub use laws::codeword_laws;
