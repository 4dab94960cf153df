//! Replies to calls.

use crate::list::Listing;
use crate::names::{Etag, Mode, Span, VersionName};
use crate::refusal::Refusal;
use crate::version::Version;
use seal_file::Text;
use stamp_id::VersionId;

/// The reply to a call. `id` is the version id that the reply tells, none where it tells none.
#[derive(Drop)]
pub enum Reply {
    /// The call is done, and nothing more is told.
    Plain,
    /// The buckets.
    Buckets(BucketRows),
    /// The mode of a bucket.
    Mode(Mode),
    /// An object or a part is stored.
    Stored {
        /// Its entity tag.
        etag: Etag,
        /// Its version.
        id: Option<VersionName>,
    },
    /// A version of a key is there.
    Found {
        /// The version.
        version: Version,
        /// The part of its body that is given.
        span: Span,
        /// Its id.
        id: Option<VersionName>,
    },
    /// A version is deleted, or a delete marker is made.
    Deleted {
        /// The version that is deleted or made.
        id: Option<VersionName>,
        /// Whether that is a delete marker.
        marker: bool,
    },
    /// A page of keys.
    Page(PageRows, PageCut),
    /// A page of versions.
    Versions(VersionRows, PageCut),
    /// An upload of this id is open.
    Opened(VersionId),
    /// A multipart object is there.
    Completed {
        /// Its entity tag.
        etag: Etag,
        /// Its version.
        id: Option<VersionName>,
    },
    /// The call is refused.
    Refused(Refusal),
}

/// A row of a list of buckets.
#[derive(Drop)]
pub struct BucketRow {
    /// The bucket's name.
    pub name: Text,
    /// When it was made, in Unix seconds.
    pub created: u64,
}

/// A row of a list of keys.
#[derive(Drop)]
pub enum PageRow {
    /// A key whose current version is an object.
    Object {
        /// The key.
        key: Text,
        /// When the version was made, in Unix seconds.
        modified: u64,
        /// The length of its body in bytes.
        length: u64,
        /// Its entity tag.
        etag: Etag,
    },
    /// The keys that begin with this text.
    Group(Text),
}

/// A row of a list of versions.
#[derive(Drop)]
pub enum VersionRow {
    /// An object.
    Object {
        /// The key.
        key: Text,
        /// The version's name.
        id: VersionName,
        /// Whether it is the key's current version.
        latest: bool,
        /// When it was made, in Unix seconds.
        modified: u64,
        /// The length of its body in bytes.
        length: u64,
        /// Its entity tag.
        etag: Etag,
    },
    /// A delete marker.
    Marker {
        /// The key.
        key: Text,
        /// The version's name.
        id: VersionName,
        /// Whether it is the key's current version.
        latest: bool,
        /// When it was made, in Unix seconds.
        modified: u64,
    },
    /// The keys that begin with this text.
    Group(Text),
}

/// Where a page of a list ends.
#[derive(Drop)]
pub struct PageCut {
    /// Whether there is a further row.
    pub truncated: bool,
    /// The name of the page's last row, told exactly where there is a further row.
    pub next: Option<Text>,
    /// The version of that row, where it has one.
    pub next_id: Option<VersionName>,
}

/// The buckets, by name.
pub type BucketRows = Listing<BucketRow>;

/// The rows of a page of keys, in order of their names.
pub type PageRows = Listing<PageRow>;

/// The rows of a page of versions, by key and newest first.
pub type VersionRows = Listing<VersionRow>;
