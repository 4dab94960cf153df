//! Sums of products of whole blocks over the field of 256 elements, in vectors of 32 bytes.
//!
//! [`sum_into`] makes the sum of several blocks, each times a weight, [`two_sums_into`] makes two such sums over the
//! same blocks, and [`mul_into`] adds one product to a block. [`fold_into`] makes several sums over 2, 4 or 8 blocks
//! at once, with the weights by which a polynomial's values at 0, 1, .. are taken to its values at the elements after
//! them, and needs far fewer products than one a weight.
//!
//! The product of a byte is looked up by its two halves, in two tables of sixteen bytes for each weight. A target of sums
//! is walked down in steps of the 32 bytes of a vector, and the last step begins at its front, however far it overlaps
//! the one before. The sums of a step stay in vectors over all blocks and are written once. Where the weights of a sum
//! add up to 1, as those of interpolation do, it takes one product fewer than it has weights.
//!
//! The crate stands on `gf256` alone, and knows of no plans and codewords. It promises that each byte of a target is the
//! sum, by the field's product, of the bytes at its place. It takes no memory, and can't fail.
#![tactic(auto)]

mod fold;
mod lanes;
mod onto;
mod rows;
mod steps;
mod sums;
mod tables;
mod twin;

pub use fold::{fold_into, is_foldable};
pub use onto::mul_into;
pub use sums::sum_into;
pub use twin::two_sums_into;
