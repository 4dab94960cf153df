//! The state of a key, and its limits.

use call_types::{Uploads, Versions};

/// The most versions that a key has.
pub const MOST_VERSIONS: usize = 10_000;

/// The most open uploads that a key has.
pub const MOST_UPLOADS: usize = 1_000;

/// The first second of the year 10000, in Unix seconds. Each moment of a state is before it.
pub const MOMENT_LIMIT: u64 = 253_402_300_800;

/// What a key holds.
#[derive(Drop)]
pub struct KeyState {
    /// Its versions, newest first.
    pub versions: Versions,
    /// Its open uploads, in order of opening.
    pub uploads: Uploads,
}
