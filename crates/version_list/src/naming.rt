//! Whether the state of a key names an id.

ghost use Rattle.std.specs.Prelude.{◌≡◌};
ghost use Rattle.std.specs.List.{list_any};
ghost use Rattle.version_list.specs.Naming.{SameIdIsEquality, SameNameIsEquality};
ghost use Rattle.version_list.specs.NamesId.{is_made_by, what_names, version_names, names_id, UnnamedIsNothing, StepsNameNoOthers};

use crate::state::KeyState;
use crate::uploads::any_upload;
use call_types::{Version, VersionName, What};
use stamp_id::VersionId;

/// Whether the key names this id: as that of a version, of a version's data, of the upload that made a version, or of an
/// open upload. A change is made under an id that the key doesn't name.
pub fn names_id(state: &KeyState, id: VersionId) -> bool
    ensures { result ≡ names_id id state.now }
{
    any_names(state.versions.as_slice(), id) || any_upload(state.uploads.as_slice(), id)
}

fn any_names(versions: &[Version], id: VersionId) -> bool
    ensures { result ≡ list_any (version_names id) versions.now }
{
    versions.iter().any(|version| version_names(version, id))
}

fn version_names(version: &Version, id: VersionId) -> bool
    ensures { result ≡ version_names id version.now }
{
    version.id == VersionName::Id(id) || what_names(&version.what, id)
}

fn what_names(what: &What, id: VersionId) -> bool
    ensures { result ≡ what_names id what.now }
{
    match what {
        What::Marker => false,
        What::Object {
            data_id,
            upload,
            ..
        } => *data_id == id || is_made_by(*upload, id),
    }
}

/// Whether the upload that made an object, if one did, has this id.
pub fn is_made_by(upload: Option<VersionId>, id: VersionId) -> bool
    ensures { result ≡ is_made_by id upload }
{
    match upload {
        None => false,
        Some(upload) => upload == id,
    }
}

/// The laws of ids and names, for a caller's proof: the tests of them are those of equality, a key has nothing of an id
/// that it doesn't name, and a step names no others than the old state, the act's data and the id that was drawn. It does
/// nothing.
pub fn naming_laws()
    ensures ids { SameIdIsEquality }
    ensures names { SameNameIsEquality }
    ensures unnamed { UnnamedIsNothing }
    ensures steps { StepsNameNoOthers }
{}
