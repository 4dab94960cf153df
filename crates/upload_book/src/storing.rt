//! Storing a part.

ghost use Rattle.std.specs.Prelude.{◌≡◌};
ghost use Rattle.upload_book.specs.Storing.{is_open, AnswersStore};

use call_types::{Etag, KeyRefusal, PartRecord, Reply};
use stamp_id::VersionId;
use version_list::{KeyState, find_upload};

/// A part that is stored, and the reply.
#[derive(Drop)]
pub struct StoredPart {
    /// What its register holds from now on.
    pub part: PartRecord,
    /// The reply.
    pub reply: Reply,
}

/// Stores a part of an upload of this key in the Unix second `now`, in the place of an earlier one of its number.
///
/// `NoSuchUpload` where the key has no open upload of that id. The part's register stays as it is then.
pub fn store_part(
    key: &KeyState,
    upload: VersionId,
    part: &PartRecord,
    now: u64,
) -> Result<StoredPart, KeyRefusal>
    ensures { AnswersStore key.now upload part.now now result }
{
    if !is_open(key, upload) {
        return Err(KeyRefusal::NoSuchUpload);
    }
    let PartRecord {
        data_id,
        print,
        length,
        md5,
        ..
    } = *part;
    let part = PartRecord {
        data_id,
        print,
        length,
        md5,
        modified: now,
    };
    let etag = Etag { md5, parts: 0 };
    Ok(StoredPart {
        part,
        reply: Reply::Stored { etag, id: None },
    })
}

/// Whether the key has an open upload of this id.
pub(crate) fn is_open(key: &KeyState, upload: VersionId) -> bool
    ensures { result ≡ is_open upload key.now }
{
    find_upload(key, upload).is_some()
}
