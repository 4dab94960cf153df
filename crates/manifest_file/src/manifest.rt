//! What a manifest holds, and its limits.

use crate::lists::{Parts, Roots};
use seal_file::Text;
use stamp_id::VersionId;

/// The kind of a manifest's file.
pub const KIND: [u8; 4] = *b"OMAN";

/// The most parts of a body.
pub const MOST_PARTS: usize = 10_000;

/// The most bytes of a part, as Amazon S3 limits the body of one PUT.
pub const MOST_PART_BYTES: u64 = 5_368_709_120;

/// The length in bytes of the longest file of a manifest for a set of at most 16 drives: the 36 of its seal, 7 for the
/// numbers before its parts, a name of 65,535 bytes, and 10,000 parts, each with an id of 16, a length of 8 and 16 roots of
/// 32 bytes.
pub const LONGEST_FILE: u64 = 36 + 7 + 65_535 + 10_000 * (16 + 8 + 16 * 32);

/// The manifest of a body.
#[derive(Drop)]
pub struct Manifest {
    /// The name of the register that the body is for, of fewer than 2^16 bytes.
    pub name: Text,
    /// How many drives the set had. Any number is spelled.
    pub drives: u8,
    /// How many of them were parity. Any number is spelled.
    pub parity: u8,
    /// The parts of the body in their order, 1 to 10,000. A single PUT has one, also where it is empty.
    pub parts: Parts,
}

/// A part of a body.
#[derive(Drop)]
pub struct ManifestPart {
    /// The id of its data.
    pub id: VersionId,
    /// Its length, of at most 5,368,709,120 bytes.
    pub length: u64,
    /// The root of its shard on each drive, in the order of the drives.
    pub roots: Roots,
}
