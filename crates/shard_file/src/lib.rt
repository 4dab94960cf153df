//! Shard files: what a drive holds of a body, and where in the file each block and its digest stand.
//!
//! A body is cut into stripes of 1,048,576 bytes, the last one shorter, and a stripe of n bytes into D data
//! blocks of n / D bytes, rounded up, the last of them filled up with zeros. Each stripe gives a shard one
//! block, data or parity. The shard's file is its blocks in the order of stripes, then their SHA-256 digests
//! (FIPS 180-4) in the same order. The root of a shard is the SHA-256 of these digests joined.
//!
//! The crate stands on `drive_base` for the plan of a set, on `seal_file` for the name of a damage, and on
//! `hash_lanes` and `sha2` for digests. It promises that [`layout`] and [`file_len`] tell where a shard file has a stripe's
//! block and that block's digest, and how long it is, for bodies of every length ([`shard_laws`]), that
//! [`check_block`] names a damage exactly where a block isn't the one that was digested, and that a body
//! comes back from its data blocks ([`shard_laws`]). It takes no memory, and reads and writes no file.
#![tactic(auto)]

mod digests;
mod laws;
mod places;

pub use digests::{block_digests, check_block, root};
pub use laws::shard_laws;
pub use places::{Place, STRIPE, block_len, file_len, layout};
