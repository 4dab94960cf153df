//! What a survey tells.

use call_types::Listing;

/// What was found on a drive in place of its format.
#[derive(Clone, Copy, PartialEq, Eq)]
pub enum Seen {
    /// The drive's format in this set.
    Good,
    /// No format.
    Absent,
    /// A damaged format.
    Damaged,
    /// Nothing: the drive failed.
    Failed,
    /// The format of another set, or of another drive of this one.
    Other,
}

/// What was found on each drive of a set.
pub type Seens = Listing<Seen>;

/// What the drives of a set have for formats.
#[derive(Drop)]
pub struct Survey {
    /// What was found on each drive.
    pub formats: Seens,
    /// The greatest term of all formats that were read, 0 where there is none.
    pub term: u64,
}
