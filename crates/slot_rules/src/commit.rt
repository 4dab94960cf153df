//! What a slot commits.

use call_types::{Act, Key, Mode, PartRecord, Reply};
use seal_file::Text;
use stamp_id::VersionId;

/// A change of a register.
#[derive(Drop)]
pub enum Commit {
    /// A change of a key, in a bucket of this mode. A Put and a Complete bring data that was put under a flight's id.
    Key {
        /// The key.
        at: Key,
        /// The mode of its bucket.
        mode: Mode,
        /// The change.
        act: Act,
    },
    /// The store of a part of an upload that its key has open. Its data was put under a flight's id.
    Part {
        /// The key.
        at: Key,
        /// The upload.
        upload: VersionId,
        /// The part's number, from 1 to 10,000.
        number: u16,
        /// The part. When it was stored is set as it is committed.
        part: PartRecord,
    },
    /// CreateBucket.
    MakeBucket(Text),
    /// PutBucketVersioning, with the mode Enabled or Suspended.
    SetMode(Text, Mode),
}

/// A deed that was done.
#[derive(Drop)]
pub struct Committed {
    /// What its call is replied; a bucket may refuse it.
    pub done: Reply,
}
