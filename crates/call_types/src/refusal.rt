//! Refusals of calls, and of content that is read.

ghost use Rattle.std.specs.Prelude.{◌≡◌};
ghost use Rattle.call_types.specs.Refusals.{refusal_of};

use crate::names::VersionName;
use crate::why::Whys;
use seal_file::Text;
use stamp_id::VersionId;

/// Why the state of a key refuses a call.
#[derive(Clone, Copy, PartialEq, Eq)]
pub enum KeyRefusal {
    /// The key has no version, or its current version is this delete marker.
    NoSuchKey {
        /// The marker.
        marker: Option<VersionName>,
    },
    /// The key has no version of that name.
    NoSuchVersion,
    /// The version of that name is a delete marker.
    MarkerNamed {
        /// The marker's name.
        id: VersionName,
        /// When it was made, in Unix seconds.
        modified: u64,
    },
    /// The key has 10,000 versions.
    VersionLimit,
    /// The key has no open upload of that id.
    NoSuchUpload,
    /// A listed part was not found.
    InvalidPart,
    /// The listed parts are not in rising order.
    PartOrder,
    /// A part other than the last is smaller than 5,242,880 bytes.
    PartSmall,
    /// The key has 1,000 open uploads.
    UploadLimit,
}

/// Why a call is refused, as plain data. The code and the text that a client gets are the reply's matter.
#[derive(Drop)]
pub enum Refusal {
    /// The request head is malformed.
    BadHead,
    /// The request head is too long.
    HeadTooLong,
    /// The Content-Length header is missing.
    NoLength,
    /// Chunked bodies are not served.
    ChunkedBody,
    /// The target is not a path in UTF-8.
    InvalidURI,
    /// This call is not served.
    NotImplemented,
    /// The bucket name is not valid.
    InvalidBucketName,
    /// The key is longer than 1,024 bytes.
    KeyTooLong,
    /// The value of the argument of this name is not valid.
    InvalidArgument(Text),
    /// The Content-MD5 is not valid.
    InvalidDigest,
    /// The body is longer than the limit.
    EntityTooLarge,
    /// The document is not well formed at this byte.
    MalformedXML(u64),
    /// The bucket is not there.
    NoSuchBucket,
    /// The bucket is there already.
    BucketThere,
    /// The Content-MD5 differs from the MD5 of the body.
    BadDigest {
        /// What the header says.
        stated: [u8; 16],
        /// That of the body.
        computed: [u8; 16],
    },
    /// The key has no version, or its current version is this delete marker.
    NoSuchKey {
        /// The marker.
        marker: Option<VersionName>,
    },
    /// The key has no version of that name.
    NoSuchVersion,
    /// The version of that name is a delete marker.
    MarkerNamed {
        /// The marker's name.
        id: VersionName,
        /// When it was made, in Unix seconds.
        modified: u64,
    },
    /// The key has 10,000 versions.
    VersionLimit,
    /// The key has 1,000 open uploads.
    UploadLimit,
    /// The key has no open upload of that id.
    NoSuchUpload,
    /// A listed part was not found.
    InvalidPart,
    /// The listed parts are not in rising order.
    PartOrder,
    /// A part other than the last is smaller than 5,242,880 bytes.
    PartSmall,
    /// The version has none of the entity tags of the call's `If-Match`.
    PreconditionFailed,
    /// The range is not satisfiable in a body of this length.
    InvalidRange(u64),
    /// Too few drives gave a good copy of the register.
    ReadQuorum(Whys),
    /// Too few drives took the write.
    WriteQuorum(Whys),
    /// It is not decided whether a change took effect.
    Undecided {
        /// The drives that have the change.
        k: u8,
        /// The drives that are not known.
        u: u8,
        /// Why each drive is as it is.
        whys: Whys,
    },
    /// Too few drives gave a good shard.
    ShardQuorum(Whys),
    /// The slot's numbers are spent.
    SeqSpent,
    /// The write of this id is not in flight.
    NotInFlight(VersionId),
    /// The audit failed: its count of faults before and after.
    AuditFailed {
        /// The count before.
        before: u64,
        /// The count after.
        after: u64,
    },
}

/// A refusal of a key as that of the call.
impl From<KeyRefusal> for Refusal {
    ghost from_gives = { λ why refusal. refusal ≡ refusal_of why };

    fn from(why: KeyRefusal) -> Refusal {
        match why {
            KeyRefusal::NoSuchKey { marker } => Refusal::NoSuchKey { marker },
            KeyRefusal::NoSuchVersion => Refusal::NoSuchVersion,
            KeyRefusal::MarkerNamed { id, modified } => Refusal::MarkerNamed { id, modified },
            KeyRefusal::VersionLimit => Refusal::VersionLimit,
            KeyRefusal::NoSuchUpload => Refusal::NoSuchUpload,
            KeyRefusal::InvalidPart => Refusal::InvalidPart,
            KeyRefusal::PartOrder => Refusal::PartOrder,
            KeyRefusal::PartSmall => Refusal::PartSmall,
            KeyRefusal::UploadLimit => Refusal::UploadLimit,
        }
    }
}

/// Why the content of a key's state is not read.
#[derive(Clone, Copy, PartialEq, Eq)]
pub enum ListFault {
    /// The content spells no state: the place of its first fault, from 0.
    NotCanonical(u64),
    /// There was not enough memory.
    NoMemory,
}
