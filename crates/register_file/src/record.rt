//! What a lane holds of a register.

use seal_file::Bytes;
use stamp_id::{Ballot, ChangeId, VersionId};

/// The kind of a register's file.
pub const KIND: [u8; 4] = *b"OREG";

/// What one lane holds of a register. A lane without a file holds a base of ballot (0, 0), change (0, 0) and empty
/// content, and no next.
#[derive(Drop)]
pub struct RegFile {
    /// What is settled on this lane.
    pub base: Base,
    /// The change that was prepared on it, if any.
    pub next: Option<Next>,
}

/// A settled content.
#[derive(PartialEq, Eq, Drop)]
pub struct Base {
    /// The ballot under which it was marked.
    pub ballot: Ballot,
    /// The change that gave it.
    pub change: ChangeId,
    /// The content, of fewer than 2^32 bytes.
    pub content: Bytes,
}

/// A change that was prepared and is not settled yet.
#[derive(Drop)]
pub struct Next {
    /// The ballot under which it was prepared.
    pub ballot: Ballot,
    /// The change.
    pub change: ChangeId,
    /// The change that it follows, which is the base's.
    pub parent: ChangeId,
    /// The data that it adds, if any.
    pub adds: Option<Adds>,
    /// The content that it gives, of fewer than 2^32 bytes.
    pub content: Bytes,
}

/// Data that a change adds.
#[derive(Clone, Copy, PartialEq, Eq)]
pub struct Adds {
    /// The id of the data.
    pub id: VersionId,
    /// The SHA-256 that names the data.
    pub print: [u8; 32],
}
