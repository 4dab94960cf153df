//! Clones: each is equal to its original. The only error is want of memory.

ghost use Rattle.std.specs.Prelude.{◌≡◌, IfOk};

use crate::act::{Act, Brief};
use crate::names::Key;
use crate::refusal::Refusal;
use crate::reply::{BucketRow, PageCut, PageRow, Reply, VersionRow};
use crate::version::{Upload, Version, What};
use seal_file::Text;
use std::alloc::AllocError;

/// A copy of a text that may be missing.
fn copied(text: &Option<Text>) -> Result<Option<Text>, AllocError>
    ensures { IfOk result (λ copy. copy ≡ text.now) }
{
    match text {
        None => Ok(None),
        Some(text) => Ok(Some(text.clone()?)),
    }
}

impl Clone for Key {
    ghost is_clone = { λ key copy. copy ≡ key };

    fn clone(&self) -> Result<Key, AllocError> {
        let bucket = self.bucket.clone()?;
        let key = self.key.clone()?;
        Ok(Key { bucket, key })
    }
}

impl Clone for What {
    ghost is_clone = { λ what copy. copy ≡ what };

    fn clone(&self) -> Result<What, AllocError> {
        match self {
            What::Marker => Ok(What::Marker),
            What::Object {
                data_id,
                print,
                length,
                md5,
                parts,
                upload,
                kind,
            } => Ok(What::Object {
                data_id: *data_id,
                print: *print,
                length: *length,
                md5: *md5,
                parts: *parts,
                upload: *upload,
                kind: kind.clone()?,
            }),
        }
    }
}

impl Clone for Version {
    ghost is_clone = { λ version copy. copy ≡ version };

    fn clone(&self) -> Result<Version, AllocError> {
        let what = self.what.clone()?;
        Ok(Version {
            id: self.id,
            modified: self.modified,
            what,
        })
    }
}

impl Clone for Upload {
    ghost is_clone = { λ upload copy. copy ≡ upload };

    fn clone(&self) -> Result<Upload, AllocError> {
        let kind = self.kind.clone()?;
        Ok(Upload {
            id: self.id,
            opened: self.opened,
            kind,
        })
    }
}

impl Clone for Act {
    ghost is_clone = { λ act copy. copy ≡ act };

    fn clone(&self) -> Result<Act, AllocError> {
        match self {
            Act::Put {
                data_id,
                print,
                length,
                md5,
                kind,
            } => Ok(Act::Put {
                data_id: *data_id,
                print: *print,
                length: *length,
                md5: *md5,
                kind: kind.clone()?,
            }),
            Act::Delete(pick) => Ok(Act::Delete(*pick)),
            Act::Create { kind } => Ok(Act::Create {
                kind: kind.clone()?,
            }),
            Act::Complete {
                upload,
                parts,
                data_id,
                print,
                length,
                md5,
            } => Ok(Act::Complete {
                upload: *upload,
                parts: *parts,
                data_id: *data_id,
                print: *print,
                length: *length,
                md5: *md5,
            }),
            Act::Abort { upload } => Ok(Act::Abort { upload: *upload }),
        }
    }
}

impl Clone for Brief {
    ghost is_clone = { λ brief copy. copy ≡ brief };

    fn clone(&self) -> Result<Brief, AllocError> {
        match self {
            Brief::Read { at, mode, pick } => Ok(Brief::Read {
                at: at.clone()?,
                mode: *mode,
                pick: *pick,
            }),
            Brief::Gather { at, upload, parts } => {
                let at = at.clone()?;
                let parts = parts.clone()?;
                Ok(Brief::Gather {
                    at,
                    upload: *upload,
                    parts,
                })
            }
            Brief::Change {
                at,
                mode,
                act,
                change,
                now,
            } => {
                let at = at.clone()?;
                let act = act.clone()?;
                Ok(Brief::Change {
                    at,
                    mode: *mode,
                    act,
                    change: *change,
                    now: *now,
                })
            }
            Brief::Part {
                at,
                upload,
                number,
                part,
                change,
                now,
            } => Ok(Brief::Part {
                at: at.clone()?,
                upload: *upload,
                number: *number,
                part: *part,
                change: *change,
                now: *now,
            }),
            Brief::MakeBucket {
                bucket,
                change,
                now,
            } => Ok(Brief::MakeBucket {
                bucket: bucket.clone()?,
                change: *change,
                now: *now,
            }),
            Brief::SetMode {
                bucket,
                mode,
                change,
                now,
            } => Ok(Brief::SetMode {
                bucket: bucket.clone()?,
                mode: *mode,
                change: *change,
                now: *now,
            }),
            Brief::Answer(reply) => Ok(Brief::Answer(reply.clone()?)),
        }
    }
}

impl Clone for Reply {
    ghost is_clone = { λ reply copy. copy ≡ reply };

    fn clone(&self) -> Result<Reply, AllocError> {
        match self {
            Reply::Plain => Ok(Reply::Plain),
            Reply::Buckets(rows) => Ok(Reply::Buckets(rows.clone()?)),
            Reply::Mode(mode) => Ok(Reply::Mode(*mode)),
            Reply::Stored { etag, id } => Ok(Reply::Stored {
                etag: *etag,
                id: *id,
            }),
            Reply::Found { version, span, id } => Ok(Reply::Found {
                version: version.clone()?,
                span: *span,
                id: *id,
            }),
            Reply::Deleted { id, marker } => Ok(Reply::Deleted {
                id: *id,
                marker: *marker,
            }),
            Reply::Page(rows, cut) => {
                let rows = rows.clone()?;
                Ok(Reply::Page(rows, cut.clone()?))
            }
            Reply::Versions(rows, cut) => {
                let rows = rows.clone()?;
                Ok(Reply::Versions(rows, cut.clone()?))
            }
            Reply::Opened(upload) => Ok(Reply::Opened(*upload)),
            Reply::Completed { etag, id } => Ok(Reply::Completed {
                etag: *etag,
                id: *id,
            }),
            Reply::Refused(why) => Ok(Reply::Refused(why.clone()?)),
        }
    }
}

impl Clone for BucketRow {
    ghost is_clone = { λ row copy. copy ≡ row };

    fn clone(&self) -> Result<BucketRow, AllocError> {
        let name = self.name.clone()?;
        Ok(BucketRow {
            name,
            created: self.created,
        })
    }
}

impl Clone for PageRow {
    ghost is_clone = { λ row copy. copy ≡ row };

    fn clone(&self) -> Result<PageRow, AllocError> {
        match self {
            PageRow::Object {
                key,
                modified,
                length,
                etag,
            } => Ok(PageRow::Object {
                key: key.clone()?,
                modified: *modified,
                length: *length,
                etag: *etag,
            }),
            PageRow::Group(prefix) => Ok(PageRow::Group(prefix.clone()?)),
        }
    }
}

impl Clone for VersionRow {
    ghost is_clone = { λ row copy. copy ≡ row };

    fn clone(&self) -> Result<VersionRow, AllocError> {
        match self {
            VersionRow::Object {
                key,
                id,
                latest,
                modified,
                length,
                etag,
            } => Ok(VersionRow::Object {
                key: key.clone()?,
                id: *id,
                latest: *latest,
                modified: *modified,
                length: *length,
                etag: *etag,
            }),
            VersionRow::Marker {
                key,
                id,
                latest,
                modified,
            } => Ok(VersionRow::Marker {
                key: key.clone()?,
                id: *id,
                latest: *latest,
                modified: *modified,
            }),
            VersionRow::Group(prefix) => Ok(VersionRow::Group(prefix.clone()?)),
        }
    }
}

impl Clone for PageCut {
    ghost is_clone = { λ cut copy. copy ≡ cut };

    fn clone(&self) -> Result<PageCut, AllocError> {
        let next = copied(&self.next)?;
        Ok(PageCut {
            truncated: self.truncated,
            next,
            next_id: self.next_id,
        })
    }
}

impl Clone for Refusal {
    ghost is_clone = { λ refusal copy. copy ≡ refusal };

    fn clone(&self) -> Result<Refusal, AllocError> {
        Ok(match self {
            Refusal::InvalidArgument(name) => Refusal::InvalidArgument(name.clone()?),
            Refusal::BadHead => Refusal::BadHead,
            Refusal::HeadTooLong => Refusal::HeadTooLong,
            Refusal::NoLength => Refusal::NoLength,
            Refusal::ChunkedBody => Refusal::ChunkedBody,
            Refusal::InvalidURI => Refusal::InvalidURI,
            Refusal::NotImplemented => Refusal::NotImplemented,
            Refusal::InvalidBucketName => Refusal::InvalidBucketName,
            Refusal::KeyTooLong => Refusal::KeyTooLong,
            Refusal::InvalidDigest => Refusal::InvalidDigest,
            Refusal::EntityTooLarge => Refusal::EntityTooLarge,
            Refusal::MalformedXML(place) => Refusal::MalformedXML(*place),
            Refusal::NoSuchBucket => Refusal::NoSuchBucket,
            Refusal::BucketThere => Refusal::BucketThere,
            Refusal::BadDigest { stated, computed } => Refusal::BadDigest {
                stated: *stated,
                computed: *computed,
            },
            Refusal::NoSuchKey { marker } => Refusal::NoSuchKey { marker: *marker },
            Refusal::NoSuchVersion => Refusal::NoSuchVersion,
            Refusal::MarkerNamed { id, modified } => Refusal::MarkerNamed {
                id: *id,
                modified: *modified,
            },
            Refusal::VersionLimit => Refusal::VersionLimit,
            Refusal::UploadLimit => Refusal::UploadLimit,
            Refusal::NoSuchUpload => Refusal::NoSuchUpload,
            Refusal::InvalidPart => Refusal::InvalidPart,
            Refusal::PartOrder => Refusal::PartOrder,
            Refusal::PartSmall => Refusal::PartSmall,
            Refusal::PreconditionFailed => Refusal::PreconditionFailed,
            Refusal::InvalidRange(length) => Refusal::InvalidRange(*length),
            Refusal::ReadQuorum(whys) => Refusal::ReadQuorum(*whys),
            Refusal::WriteQuorum(whys) => Refusal::WriteQuorum(*whys),
            Refusal::Undecided { k, u, whys } => Refusal::Undecided {
                k: *k,
                u: *u,
                whys: *whys,
            },
            Refusal::ShardQuorum(whys) => Refusal::ShardQuorum(*whys),
            Refusal::SeqSpent => Refusal::SeqSpent,
            Refusal::NotInFlight(id) => Refusal::NotInFlight(*id),
            Refusal::AuditFailed { before, after } => Refusal::AuditFailed {
                before: *before,
                after: *after,
            },
        })
    }
}
