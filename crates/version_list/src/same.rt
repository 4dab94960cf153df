//! Whether two versions are the same, field by field.

ghost use Rattle.std.specs.Prelude.{◌≡◌, ◌↔◌, IsTrue};

use call_types::{Version, VersionName, What};
use seal_file::Text;
use stamp_id::VersionId;

/// Whether the versions are the same.
pub fn is_same(a: &Version, b: &Version) -> bool
    ensures { IsTrue result ↔ (a.now ≡ b.now) }
{
    is_same_name(a.id, b.id) && a.modified == b.modified && is_same_what(&a.what, &b.what)
}

fn is_same_name(a: VersionName, b: VersionName) -> bool
    ensures { IsTrue result ↔ (a ≡ b) }
{
    match (a, b) {
        (VersionName::Null, VersionName::Null) => true,
        (VersionName::Id(a), VersionName::Id(b)) => is_same_id(a, b),
        _ => false,
    }
}

fn is_same_what(a: &What, b: &What) -> bool
    ensures { IsTrue result ↔ (a.now ≡ b.now) }
{
    match (a, b) {
        (What::Marker, What::Marker) => true,
        (
            What::Object {
                data_id,
                print,
                length,
                md5,
                parts,
                upload,
                kind,
            },
            What::Object {
                data_id: other_data_id,
                print: other_print,
                length: other_length,
                md5: other_md5,
                parts: other_parts,
                upload: other_upload,
                kind: other_kind,
            },
        ) => {
            is_same_id(*data_id, *other_data_id)
                && print == other_print
                && length == other_length
                && md5 == other_md5
                && parts == other_parts
                && is_same_upload(*upload, *other_upload)
                && is_same_text(kind, other_kind)
        }
        _ => false,
    }
}

/// Whether the uploads that made the versions, if any, are the same.
fn is_same_upload(a: Option<VersionId>, b: Option<VersionId>) -> bool
    ensures { IsTrue result ↔ (a ≡ b) }
{
    match (a, b) {
        (None, None) => true,
        (Some(a), Some(b)) => is_same_id(a, b),
        _ => false,
    }
}

/// Whether the ids are the same.
fn is_same_id(a: VersionId, b: VersionId) -> bool
    ensures { IsTrue result ↔ (a ≡ b) }
{
    a == b
}

/// Whether the texts are the same.
fn is_same_text(a: &Text, b: &Text) -> bool
    ensures { IsTrue result ↔ (a.now ≡ b.now) }
{
    a == b
}
