//! The upload that a call names.

ghost use Rattle.std.specs.Prelude.{◌≡◌};
ghost use Rattle.receipts.specs.Uploads.{nobody, upload_of};

use stamp_id::{Ballot, ChangeId, VersionId};

/// An id that no slot ever draws, for a text that is none: no state has an upload of it.
pub fn nobody() -> VersionId
    ensures { result ≡ nobody }
{
    let change = ChangeId(Ballot {
        term: 1,
        seq: 0x3fff_ffff_ffff_ffff,
    });
    VersionId::from_parts(change, 0)
}

/// The upload of this id, and nobody's where a call's text was no id.
pub fn upload_of(upload: Option<VersionId>) -> VersionId
    ensures { result ≡ upload_of upload }
{
    match upload {
        Some(id) => id,
        None => nobody(),
    }
}
