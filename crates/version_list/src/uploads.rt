//! Changes of a list of open uploads.

ghost use Rattle.std.specs.Prelude.{◌≡◌, false, [], ◌∷◌, ◌++◌, find, position, IfOk, MatchOption};
ghost use Rattle.std.specs.List.{list_any};
ghost use Rattle.std.specs.Option.{option_copied};
ghost use Rattle.version_list.specs.Naming.{is_upload, still_open, HasUploadAt};

use crate::state::KeyState;
use call_types::{Upload, Uploads};
use fault_base::NoMemory;
use stamp_id::VersionId;
use std::alloc::Global;

/// The place in `state.uploads` of the open upload of this id. There is none exactly where no open upload has it.
pub fn find_upload(state: &KeyState, id: VersionId) -> Option<usize>
    ensures value { result ≡ position (is_upload id) state.now.uploads }
    ensures found { MatchOption result (list_any (is_upload id) state.now.uploads ≡ false) (HasUploadAt id state.now.uploads) }
{
    place_of(state.uploads.as_slice(), id)
}

fn place_of(uploads: &[Upload], id: VersionId) -> Option<usize>
    ensures { result ≡ position (is_upload id) uploads.now }
{
    uploads.iter().position(|upload| upload.id == id)
}

/// The first upload of this id.
pub fn upload_of(uploads: &[Upload], id: VersionId) -> Option<&Upload>
    ensures { option_copied result ≡ find (is_upload id) uploads.now }
{
    uploads.iter().find(|upload| upload.id == id)
}

/// Copies of the uploads that stay open where that of this id is closed.
pub fn without_upload(alloc: Global, uploads: &[Upload], id: VersionId) -> Result<Uploads, NoMemory>
    ensures { IfOk result (λ list. list ≡ still_open id uploads.now) }
{
    let mut list = Vec::with_capacity(alloc, uploads.len())?;
    for upload in uploads {
        if upload.id != id {
            let copy = upload.clone()?;
            list.push(copy)?;
        }
    }
    Ok(Uploads::from_vec(list))
}

/// Copies of the uploads, and this one at the end.
pub fn with_upload(alloc: Global, uploads: &[Upload], opened: Upload) -> Result<Uploads, NoMemory>
    ensures { IfOk result (λ list. list ≡ uploads.now ++ opened ∷ []) }
{
    let mut list = Vec::with_capacity(alloc, uploads.len() + 1)?;
    for upload in uploads {
        let copy = upload.clone()?;
        list.push(copy)?;
    }
    list.push(opened)?;
    Ok(Uploads::from_vec(list))
}

/// Whether an upload has this id.
pub fn any_upload(uploads: &[Upload], id: VersionId) -> bool
    ensures { result ≡ list_any (is_upload id) uploads.now }
{
    uploads.iter().any(|upload| upload.id == id)
}
