//! What a listing asks for.

use call_types::VersionName;
use seal_file::Text;

/// What ListObjectsV2 asks for.
#[derive(Drop)]
pub struct ListAsk {
    /// What the keys begin with.
    pub prefix: Text,
    /// What ends a group behind the prefix; empty for none.
    pub delimiter: Text,
    /// How many rows at most, up to 1,000.
    pub most: u16,
    /// Whether names are percent-encoded in the document (`encoding-type=url`).
    pub encoded: bool,
    /// `start-after`: keys not above it are left out.
    pub start_after: Option<Text>,
    /// `continuation-token`, decoded: rows not above it are left out.
    pub token: Option<Text>,
}

/// What ListObjectVersions asks for.
#[derive(Drop)]
pub struct VersionsAsk {
    /// What the keys begin with.
    pub prefix: Text,
    /// What ends a group behind the prefix; empty for none.
    pub delimiter: Text,
    /// How many rows at most, up to 1,000.
    pub most: u16,
    /// Whether names are percent-encoded in the document (`encoding-type=url`).
    pub encoded: bool,
    /// `key-marker`.
    pub key_marker: Option<Text>,
    /// `version-id-marker`, which comes only with a `key-marker`.
    pub id_marker: Option<VersionName>,
}
