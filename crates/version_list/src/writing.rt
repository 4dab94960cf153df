//! States as bytes.

ghost use Rattle.std.specs.Prelude.{◌≡◌, ◌≤◌, ◌*◌, ◌++◌, List, length, map, OnOk, IfOk};
ghost use Rattle.std.specs.List.{AllByRecursion, flat_map};
ghost use Rattle.version_list.specs.Rows.{name_field, upload_field, object_row, version_row, upload_row, rows_of};
ghost use Rattle.version_list.specs.Spelling.{object_bytes, version_bytes, upload_bytes, long_form, spelling};
ghost use Rattle.version_list.specs.State.{IsCanonicalWhat, IsCanonicalVersion, IsCanonicalUpload, IsCanonical};

use crate::sizes::state_size;
use crate::state::KeyState;
use call_types::{Upload, Version, VersionName, What};
use fault_base::NoMemory;
use field_reader::{put_bytes, put_short_text, put_u8, put_u16, put_u32, put_u64};
use stamp_id::VersionId;
use std::alloc::{AllocError, Global};

/// The bytes of a version's name.
#[tactic(auto, unfolding(crate::specs::Rows::no_id))]
fn name_bytes(name: VersionName) -> [u8; 16]
    ensures { result ≡ name_field name }
{
    match name {
        VersionName::Null => [0; 16],
        VersionName::Id(id) => id.bytes(),
    }
}

/// The bytes of an upload's id, where there is an upload.
#[tactic(auto, unfolding(crate::specs::Rows::no_id))]
fn upload_id_bytes(upload: Option<VersionId>) -> [u8; 16]
    ensures { result ≡ upload_field upload }
{
    match upload {
        None => [0; 16],
        Some(id) => id.bytes(),
    }
}

/// Appends the fields that an object has and a marker has not.
fn put_object(out: &mut Vec<u8>, what: &What) -> Result<(), AllocError>
    requires { IsCanonicalWhat what.now }
    ensures { OnOk result (out.new.items ≡ out.old.items ++ object_bytes (object_row what.now)) }
{
    match what {
        What::Marker => Ok(()),
        What::Object {
            data_id,
            print,
            length,
            md5,
            parts,
            upload,
            kind,
        } => {
            put_bytes(out, name_bytes(VersionName::Id(*data_id)).as_slice())?;
            put_bytes(out, print.as_slice())?;
            put_u64(out, *length)?;
            put_bytes(out, md5.as_slice())?;
            put_u16(out, *parts)?;
            put_bytes(out, upload_id_bytes(*upload).as_slice())?;
            put_short_text(out, kind.as_slice())?;
            Ok(())
        }
    }
}

/// Appends a version.
fn put_version(out: &mut Vec<u8>, version: &Version) -> Result<(), AllocError>
    requires { IsCanonicalWhat version.now.what }
    ensures { OnOk result (out.new.items ≡ out.old.items ++ version_bytes (version_row version.now)) }
{
    let class = match version.what {
        What::Marker => 0,
        What::Object { .. } => 1,
    };
    put_bytes(out, name_bytes(version.id).as_slice())?;
    put_u8(out, class)?;
    put_u64(out, version.modified)?;
    put_object(out, &version.what)?;
    Ok(())
}

/// Appends versions.
fn put_versions(out: &mut Vec<u8>, versions: &[Version]) -> Result<(), AllocError>
    requires { AllByRecursion IsCanonicalVersion versions.now }
    ensures { OnOk result (out.new.items ≡ out.old.items ++ flat_map version_bytes (map version_row versions.now)) }
{
    for version in versions {
        put_version(out, version)?;
    }
    Ok(())
}

/// Appends an upload.
fn put_upload(out: &mut Vec<u8>, upload: &Upload) -> Result<(), AllocError>
    requires { IsCanonicalUpload upload.now }
    ensures { OnOk result (out.new.items ≡ out.old.items ++ upload_bytes (upload_row upload.now)) }
{
    put_bytes(out, name_bytes(VersionName::Id(upload.id)).as_slice())?;
    put_u64(out, upload.opened)?;
    put_short_text(out, upload.kind.as_slice())?;
    Ok(())
}

/// Appends uploads.
fn put_uploads(out: &mut Vec<u8>, uploads: &[Upload]) -> Result<(), AllocError>
    requires { AllByRecursion IsCanonicalUpload uploads.now }
    ensures { OnOk result (out.new.items ≡ out.old.items ++ flat_map upload_bytes (map upload_row uploads.now)) }
{
    for upload in uploads {
        put_upload(out, upload)?;
    }
    Ok(())
}

/// The spelling of a state with a version or an upload. The buffer is reserved at once.
fn write_long(alloc: Global, state: &KeyState) -> Result<Vec<u8>, NoMemory>
    requires { IsCanonical state.now }
    ensures { IfOk result (λ content.
        content.items ≡ long_form (rows_of state.now).versions (rows_of state.now).uploads) }
{
    let mut out = Vec::with_capacity(alloc, state_size(state))?;
    put_u32(&mut out, state.versions.len() as u32)?;
    put_versions(&mut out, state.versions.as_slice())?;
    put_u32(&mut out, state.uploads.len() as u32)?;
    put_uploads(&mut out, state.uploads.as_slice())?;
    Ok(out)
}

/// The one spelling of a state. It takes memory once, for a state with a version or an upload.
pub fn write(alloc: Global, state: &KeyState) -> Result<Vec<u8>, NoMemory>
    requires { IsCanonical state.now }
    ensures { IfOk result (λ content. content.items ≡ spelling state.now) }
{
    if state.versions.is_empty() && state.uploads.is_empty() {
        return Ok(Vec::new(alloc));
    }
    write_long(alloc, state)
}
