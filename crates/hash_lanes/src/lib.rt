//! SHA-256 (FIPS 180-4) of several blocks at once.
//!
//! [`hash_blocks`] takes blocks that lie anywhere and have any lengths, and [`hash_equal_blocks`] takes blocks
//! of one length that lie one after another in a buffer, as a stripe's do. Blocks of one length need the same
//! padding and the same number of rounds, so four of them are hashed side by side: each 32-bit word of the
//! standard's text is a vector of `std::simd` with a lane for each block. What has no such company is hashed
//! by `sha2`.
//!
//! The crate stands on `sha2`, and cites its definition of SHA-256. It promises that each digest is the
//! SHA-256 of its block, for every number and length of blocks. It takes no memory, and can't fail.
//!
//! What FIPS 180-4 calls a block, of 64 bytes, is called a chunk here.
#![tactic(auto)]

mod blocks;
mod constants;
mod equal;
mod four;
mod padding;
mod places;
mod rounds;
mod window;
mod words;

pub use blocks::hash_blocks;
pub use equal::hash_equal_blocks;
