//! What a call does to the state of a key, and a call or a reply as plain data.

use crate::names::{Key, Mode, Pick};
use crate::reply::Reply;
use crate::version::{PartRecord, PartRefs};
use seal_file::Text;
use stamp_id::{ChangeId, VersionId};

/// What a call does to the state of a key.
#[derive(Drop)]
pub enum Act {
    /// PutObject: a version of this data.
    Put {
        /// The id of the data.
        data_id: VersionId,
        /// The SHA-256 that names the data.
        print: [u8; 32],
        /// The length of the body in bytes.
        length: u64,
        /// The MD5 of the body.
        md5: [u8; 16],
        /// The content type, of at most 255 bytes.
        kind: Text,
    },
    /// DeleteObject.
    Delete(Pick),
    /// CreateMultipartUpload.
    Create {
        /// The content type of the object, of at most 255 bytes.
        kind: Text,
    },
    /// CompleteMultipartUpload: a version of the joined parts.
    Complete {
        /// The upload.
        upload: VersionId,
        /// The number of parts, from 1 to 10,000.
        parts: u16,
        /// The id of the data.
        data_id: VersionId,
        /// The SHA-256 that names the data.
        print: [u8; 32],
        /// The length of the body in bytes.
        length: u64,
        /// The MD5 of the joined MD5s of the parts.
        md5: [u8; 16],
    },
    /// AbortMultipartUpload.
    Abort {
        /// The upload.
        upload: VersionId,
    },
}

/// A call or a reply as plain data, without the bytes of a body. `change` is what the call drew for the
/// change that it made, and `now` the second at which it was made.
#[derive(Drop)]
pub enum Brief {
    /// A read of a key in a bucket of this mode.
    Read {
        /// The key.
        at: Key,
        /// The mode of its bucket.
        mode: Mode,
        /// The version.
        pick: Pick,
    },
    /// The first step of a Complete, which reads the parts that it lists.
    Gather {
        /// The key.
        at: Key,
        /// The upload.
        upload: VersionId,
        /// The parts.
        parts: PartRefs,
    },
    /// A change of a key in a bucket of this mode.
    Change {
        /// The key.
        at: Key,
        /// The mode of its bucket.
        mode: Mode,
        /// What is done.
        act: Act,
        /// The change, none where the call drew none.
        change: Option<ChangeId>,
        /// The Unix second.
        now: u64,
    },
    /// The store of a part.
    Part {
        /// The key.
        at: Key,
        /// The upload.
        upload: VersionId,
        /// The part's number, from 1 to 10,000.
        number: u16,
        /// The part.
        part: PartRecord,
        /// The change, none where the call drew none.
        change: Option<ChangeId>,
        /// The Unix second.
        now: u64,
    },
    /// CreateBucket.
    MakeBucket {
        /// The bucket's name.
        bucket: Text,
        /// The change, none where the call drew none.
        change: Option<ChangeId>,
        /// The Unix second.
        now: u64,
    },
    /// PutBucketVersioning.
    SetMode {
        /// The bucket's name.
        bucket: Text,
        /// The new mode.
        mode: Mode,
        /// The change, none where the call drew none.
        change: Option<ChangeId>,
        /// The Unix second.
        now: u64,
    },
    /// A reply.
    Answer(Reply),
}
