//! What a listing is asked.

use desk_base::{ListAsk, VersionsAsk};

/// What a listing is asked: ListObjectsV2, or ListObjectVersions.
#[derive(Drop)]
pub enum Asked {
    /// For keys.
    Keys(ListAsk),
    /// For versions.
    Versions(VersionsAsk),
}
