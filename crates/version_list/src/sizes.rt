//! How many bytes the spelling of a state has.

ghost use Rattle.std.specs.Prelude.{◌≡◌, ◌≤◌, length, map};
ghost use Rattle.std.specs.List.{AllByRecursion, flat_map};
ghost use Rattle.version_list.specs.Rows.{version_row, upload_row, rows_of};
ghost use Rattle.version_list.specs.Spelling.{version_bytes, upload_bytes, long_form};
ghost use Rattle.version_list.specs.State.{IsCanonicalVersion, IsCanonicalUpload, IsCanonical};
ghost use Rattle.version_list.specs.Limits.{most_versions, most_uploads};

use crate::state::KeyState;
use call_types::{Upload, Version, What};

/// The bytes of a version without the fields of an object.
const VERSION_BYTES: usize = 25;

/// The bytes of an object's fields, but for the text of its kind.
const OBJECT_BYTES: usize = 91;

/// The bytes of an upload, but for the text of its kind.
const UPLOAD_BYTES: usize = 25;

/// The bytes of a version.
pub fn version_size(version: &Version) -> usize
    requires { IsCanonicalVersion version.now }
    ensures value { result ≡ length (version_bytes (version_row version.now)) }
    ensures bound { result ≤ 400 }
{
    match &version.what {
        What::Marker => VERSION_BYTES,
        What::Object { kind, .. } => VERSION_BYTES + OBJECT_BYTES + kind.as_slice().len(),
    }
}

/// The bytes of versions.
pub fn versions_size(versions: &[Version]) -> usize
    requires few { length versions.now ≤ most_versions }
    requires canonical { AllByRecursion IsCanonicalVersion versions.now }
    ensures value { result ≡ length (flat_map version_bytes (map version_row versions.now)) }
    ensures bound { result ≤ 4000000 }
{
    let mut size = 0;
    for version in versions {
        size += version_size(version);
    }
    size
}

/// The bytes of an upload.
pub fn upload_size(upload: &Upload) -> usize
    requires { IsCanonicalUpload upload.now }
    ensures value { result ≡ length (upload_bytes (upload_row upload.now)) }
    ensures bound { result ≤ 400 }
{
    UPLOAD_BYTES + upload.kind.as_slice().len()
}

/// The bytes of uploads.
fn uploads_size(uploads: &[Upload]) -> usize
    requires few { length uploads.now ≤ most_uploads }
    requires canonical { AllByRecursion IsCanonicalUpload uploads.now }
    ensures value { result ≡ length (flat_map upload_bytes (map upload_row uploads.now)) }
    ensures bound { result ≤ 400000 }
{
    let mut size = 0;
    for upload in uploads {
        size += upload_size(upload);
    }
    size
}

/// The bytes of a state with a version or an upload, with its two counts.
pub fn state_size(state: &KeyState) -> usize
    requires { IsCanonical state.now }
    ensures { result ≡ length (long_form (rows_of state.now).versions (rows_of state.now).uploads) }
{
    8 + versions_size(state.versions.as_slice()) + uploads_size(state.uploads.as_slice())
}
