//! New states of a key, made of the old one.

ghost use Rattle.std.specs.Prelude.{◌≡◌, ◌⊎◌, true, ◌∷◌, [], ◌++◌, Some, IsSome, IsNone, IfOk, find};
ghost use Rattle.version_list.specs.Answers.{Leaves};
ghost use Rattle.version_list.specs.Naming.{is_named, kept, is_upload, still_open};

use crate::edit::{any_named, is_unchanged_by, with_front, without};
use crate::outcome::Outcome;
use crate::state::KeyState;
use crate::uploads::{with_upload, without_upload};
use call_types::{Upload, Uploads, Version, VersionName, Versions};
use fault_base::NoMemory;
use seal_file::Bytes;
use stamp_id::VersionId;
use std::alloc::Global;

/// Puts `front` in front, in the place of the versions of the name `goes`.
pub fn add_version(
    alloc: Global,
    state: &KeyState,
    front: Version,
    goes: Option<VersionName>,
) -> Result<Outcome, NoMemory>
    requires { IsNone goes ⊎ (is_named goes front ≡ true) }
    ensures { IfOk result (Leaves state.now record { versions = front ∷ kept goes state.now.versions; uploads = state.now.uploads }) }
{
    let versions = state.versions.as_slice();
    if is_unchanged_by(&front, versions, goes) {
        return Ok(Outcome::none(alloc));
    }
    let edited = with_front(alloc, front, versions, goes)?;
    let uploads = copied_uploads(&state.uploads)?;
    let state = KeyState {
        versions: edited.versions,
        uploads,
    };
    Ok(Outcome {
        state: Some(state),
        gone: edited.gone,
    })
}

/// Removes the versions of this name for good.
pub fn remove_version(
    alloc: Global,
    state: &KeyState,
    name: VersionName,
) -> Result<Outcome, NoMemory>
    ensures { IfOk result (Leaves state.now record { versions = kept (Some name) state.now.versions; uploads = state.now.uploads }) }
{
    let versions = state.versions.as_slice();
    if !any_named(versions, name) {
        return Ok(Outcome::none(alloc));
    }
    let edited = without(alloc, versions, Some(name))?;
    let uploads = copied_uploads(&state.uploads)?;
    let state = KeyState {
        versions: edited.versions,
        uploads,
    };
    Ok(Outcome {
        state: Some(state),
        gone: edited.gone,
    })
}

/// Puts `front` in front, in the place of the versions of the name `goes`, and closes the upload that made it.
pub fn complete_upload(
    alloc: Global,
    state: &KeyState,
    front: Version,
    goes: Option<VersionName>,
    upload: VersionId,
) -> Result<Outcome, NoMemory>
    requires { IsSome (find (is_upload upload) state.now.uploads) }
    ensures { IfOk result (Leaves state.now
        record { versions = front ∷ kept goes state.now.versions; uploads = still_open upload state.now.uploads }) }
{
    let versions = state.versions.as_slice();
    let edited = with_front(alloc, front, versions, goes)?;
    let uploads = without_upload(alloc, state.uploads.as_slice(), upload)?;
    let state = KeyState {
        versions: edited.versions,
        uploads,
    };
    Ok(Outcome {
        state: Some(state),
        gone: edited.gone,
    })
}

/// Opens an upload.
pub fn open_upload(alloc: Global, state: &KeyState, opened: Upload) -> Result<Outcome, NoMemory>
    ensures { IfOk result (Leaves state.now
        record { versions = state.now.versions; uploads = state.now.uploads ++ opened ∷ [] }) }
{
    let uploads = with_upload(alloc, state.uploads.as_slice(), opened)?;
    let versions = copied_versions(&state.versions)?;
    Ok(Outcome {
        state: Some(KeyState { versions, uploads }),
        gone: Bytes::empty(alloc),
    })
}

/// Closes an upload.
pub fn close_upload(alloc: Global, state: &KeyState, upload: VersionId) -> Result<Outcome, NoMemory>
    requires { IsSome (find (is_upload upload) state.now.uploads) }
    ensures { IfOk result (Leaves state.now
        record { versions = state.now.versions; uploads = still_open upload state.now.uploads }) }
{
    let uploads = without_upload(alloc, state.uploads.as_slice(), upload)?;
    let versions = copied_versions(&state.versions)?;
    Ok(Outcome {
        state: Some(KeyState { versions, uploads }),
        gone: Bytes::empty(alloc),
    })
}

/// A copy of the versions.
pub fn copied_versions(versions: &Versions) -> Result<Versions, NoMemory>
    ensures { IfOk result (λ copy. copy ≡ versions.now) }
{
    Ok(versions.clone()?)
}

/// A copy of the uploads.
fn copied_uploads(uploads: &Uploads) -> Result<Uploads, NoMemory>
    ensures { IfOk result (λ copy. copy ≡ uploads.now) }
{
    Ok(uploads.clone()?)
}
