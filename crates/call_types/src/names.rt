//! What a call names: modes, keys, versions of a key and parts of a body.

use seal_file::Text;
use stamp_id::VersionId;

/// The versioning of a bucket. A bucket never returns to `Never`.
#[derive(Clone, Copy, PartialEq, Eq)]
pub enum Mode {
    /// Versioning was never set.
    Never,
    /// Each write makes a version of its own.
    Enabled,
    /// Each write replaces the version `null`.
    Suspended,
}

/// A key of a bucket.
#[derive(Drop)]
pub struct Key {
    /// The bucket's name.
    pub bucket: Text,
    /// The key: 1 to 1,024 bytes of UTF-8.
    pub key: Text,
}

/// The version that a read or a delete names by its `versionId`.
#[derive(Clone, Copy, PartialEq, Eq)]
pub enum Pick {
    /// No version: the call is about the current one.
    Current,
    /// The version `null`.
    Null,
    /// The version of this id.
    Id(VersionId),
}

/// The name of a version of a key.
#[derive(Clone, Copy, PartialEq, Eq)]
pub enum VersionName {
    /// The version `null`, of a bucket without versioning.
    Null,
    /// The version of this id.
    Id(VersionId),
}

/// The part of a body that a request asks for (RFC 9110, one range of bytes).
#[derive(Clone, Copy, PartialEq, Eq)]
pub enum RangeAsk {
    /// All of it.
    Whole,
    /// From the first place to the second, both included. The first is not above the second.
    FromTo(u64, u64),
    /// From this place on.
    From(u64),
    /// The last bytes, so many.
    Last(u64),
}

/// A part of a body: `length` bytes from the place `at` on.
#[derive(Clone, Copy, PartialEq, Eq)]
pub struct Span {
    /// The first byte's place.
    pub at: u64,
    /// The number of bytes.
    pub length: u64,
}

/// An entity tag: the MD5 with the number of parts.
#[derive(Clone, Copy, PartialEq, Eq)]
pub struct Etag {
    /// The MD5 of a body, or that of the joined MD5s of its parts.
    pub md5: [u8; 16],
    /// The number of parts, 0 for a single PUT.
    pub parts: u16,
}
