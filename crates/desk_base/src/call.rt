//! Calls.

ghost use Rattle.std.specs.Prelude.{◌≡◌};
ghost use Rattle.desk_base.specs.Calls.{stated_length};

use crate::asks::{ListAsk, VersionsAsk};
use call_types::{Key, Pick, RangeAsk};
use seal_file::Text;
use stamp_id::VersionId;

/// A call of the S3 API, as its head states it. `length` is the stated length of its body in bytes, and `upload` is none for a text that is no
/// version id, which no upload has.
#[derive(Drop)]
pub enum Call {
    /// ListBuckets.
    ListBuckets,
    /// CreateBucket.
    CreateBucket {
        bucket: Text,
    },
    /// HeadBucket.
    HeadBucket {
        bucket: Text,
    },
    /// GetBucketVersioning.
    GetVersioning {
        bucket: Text,
    },
    /// PutBucketVersioning, with a document.
    PutVersioning {
        bucket: Text,
        length: u64,
    },
    /// PutObject, with the content type and the stated MD5 of its body.
    Put {
        at: Key,
        kind: Text,
        md5: Option<[u8; 16]>,
        length: u64,
    },
    /// GetObject, with the value of its `If-Match`.
    Get {
        at: Key,
        pick: Pick,
        ask: RangeAsk,
        matches: Option<Text>,
    },
    /// HeadObject, with the value of its `If-Match`.
    Head {
        at: Key,
        pick: Pick,
        matches: Option<Text>,
    },
    /// DeleteObject.
    Delete {
        at: Key,
        pick: Pick,
    },
    /// ListObjectsV2.
    List2 {
        bucket: Text,
        page: ListAsk,
    },
    /// ListObjectVersions.
    ListVersions {
        bucket: Text,
        page: VersionsAsk,
    },
    /// CreateMultipartUpload, with the content type of the object.
    Create {
        at: Key,
        kind: Text,
    },
    /// UploadPart, with the part's number, from 1 to 10,000, and the stated MD5 of its body.
    Part {
        at: Key,
        upload: Option<VersionId>,
        number: u16,
        md5: Option<[u8; 16]>,
        length: u64,
    },
    /// CompleteMultipartUpload, with a document.
    Complete {
        at: Key,
        upload: Option<VersionId>,
        length: u64,
    },
    /// AbortMultipartUpload.
    Abort {
        at: Key,
        upload: Option<VersionId>,
    },
}

impl Call {
    /// The stated length of the body that the call takes, 0 for a call that takes none.
    pub fn stated_length(&self) -> u64
        ensures { result ≡ stated_length self.now }
    {
        match self {
            Call::PutVersioning { length, .. }
            | Call::Put { length, .. }
            | Call::Part { length, .. }
            | Call::Complete { length, .. } => *length,
            _ => 0,
        }
    }
}
