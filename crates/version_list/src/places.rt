//! Where the spelling of a state names an id.

ghost use Rattle.std.specs.Prelude.{◌≡◌, ◌+◌, ◌≤◌, length, is_some};
ghost use Rattle.std.specs.List.{AllByRecursion, flat_map};
ghost use Rattle.stamp_id.specs.VersionId.{id_bytes};
ghost use Rattle.version_list.specs.NamesId.{names_id};
ghost use Rattle.version_list.specs.Places.{version_parts, object_parts, upload_parts, place_from, id_place, PlacesAreInContents};
ghost use Rattle.version_list.specs.Rows.{object_row, version_row, upload_row};
ghost use Rattle.version_list.specs.Spelling.{spelling};
ghost use Rattle.version_list.specs.State.{IsCanonicalWhat, IsCanonicalVersion, IsCanonicalUpload, IsCanonical};
ghost use Rattle.version_list.specs.Limits.{most_versions, most_uploads};

use crate::edit::is_named;
use crate::naming::is_made_by;
use crate::sizes::{upload_size, version_size, versions_size};
use crate::state::KeyState;
use call_types::{Upload, Version, VersionName, What};
use stamp_id::VersionId;

/// The bytes of the count that stands before the versions, and of that before the uploads.
const COUNT_BYTES: usize = 4;

/// The bytes of a version before the id of its data: its name, class and moment.
const BYTES_BEFORE_DATA: usize = 25;

/// The bytes of an object from the id of its data to that of the upload that made it.
const BYTES_BEFORE_UPLOAD: usize = 74;

/// The place of the first id like this among the fields of an object, which start at `at`.
fn place_in_what(what: &What, id: VersionId, at: usize) -> Option<usize>
    requires canonical { IsCanonicalWhat what.now }
    requires at { at ≤ 10000000 }
    ensures { result ≡ place_from at (id_bytes id) (object_parts (object_row what.now)) }
{
    match what {
        What::Marker => None,
        What::Object {
            data_id,
            upload,
            ..
        } => {
            if *data_id == id {
                return Some(at);
            }
            if is_made_by(*upload, id) {
                return Some(at + BYTES_BEFORE_UPLOAD);
            }
            None
        }
    }
}

/// The same of a version.
fn place_in_version(version: &Version, id: VersionId, at: usize) -> Option<usize>
    requires canonical { IsCanonicalVersion version.now }
    requires at { at ≤ 9000000 }
    ensures { result ≡ place_from at (id_bytes id) (version_parts (version_row version.now)) }
{
    if is_named(version, Some(VersionName::Id(id))) {
        return Some(at);
    }
    place_in_what(&version.what, id, at + BYTES_BEFORE_DATA)
}

/// The same of versions.
fn place_in_versions(versions: &[Version], id: VersionId, at: usize) -> Option<usize>
    requires few { length versions.now ≤ most_versions }
    requires canonical { AllByRecursion IsCanonicalVersion versions.now }
    requires at { at ≤ 4 }
    ensures { result ≡ place_from at (id_bytes id) (flat_map (λ v. version_parts (version_row v)) versions.now) }
{
    let mut next = at;
    for version in versions {
        let place = place_in_version(version, id, next);
        if place.is_some() {
            return place;
        }
        next += version_size(version);
    }
    None
}

/// The same of uploads.
fn place_in_uploads(uploads: &[Upload], id: VersionId, at: usize) -> Option<usize>
    requires few { length uploads.now ≤ most_uploads }
    requires canonical { AllByRecursion IsCanonicalUpload uploads.now }
    requires at { at ≤ 5000000 }
    ensures { result ≡ place_from at (id_bytes id) (flat_map (λ u. upload_parts (upload_row u)) uploads.now) }
{
    let mut next = at;
    for upload in uploads {
        if upload.id == id {
            return Some(next);
        }
        next += upload_size(upload);
    }
    None
}

/// The place, from 0, at which the spelling of a state first names this id: that of the first of its fields of an id that
/// has the id's 16 bytes. There is one exactly where the state names the id.
pub fn place_of_id(state: &KeyState, id: VersionId) -> Option<u64>
    requires { IsCanonical state.now }
    ensures value { result ≡ id_place (id_bytes id) (spelling state.now) }
    ensures named { is_some result ≡ names_id id state.now }
{
    let versions = state.versions.as_slice();
    match place_in_versions(versions, id, COUNT_BYTES) {
        Some(place) => Some(place as u64),
        None => {
            let at = COUNT_BYTES + versions_size(versions) + COUNT_BYTES;
            let place = place_in_uploads(state.uploads.as_slice(), id, at)?;
            Some(place as u64)
        }
    }
}

/// The law of places, for a caller's proof: at the place of an id its bytes stand. It does nothing.
pub fn place_laws()
    ensures { PlacesAreInContents }
{}
