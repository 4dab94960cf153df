//! The data that a key no longer has.

ghost use Rattle.std.specs.Prelude.{◌≡◌, List, [], ◌∷◌, ◌++◌, Option, IfOk, OnOk};
ghost use Rattle.std.specs.List.{list_any};
ghost use Rattle.call_types.specs.declared.version.Version.{Version};
ghost use Rattle.version_list.specs.Naming.{kept};
ghost use Rattle.version_list.specs.Gone.{data_of, is_data, has_data, gone_bytes};

use crate::edit::is_named;
use crate::state::KeyState;
use call_types::{Version, VersionName, What};
use fault_base::NoMemory;
use seal_file::Bytes;
use stamp_id::VersionId;
use std::alloc::Global;

/// The ids of the data that an old version has and no new one has, joined. The new versions are those that stay of the
/// old ones, where those of the name `goes` go, and others in front.
pub fn gone(
    alloc: Global,
    old: &[Version],
    new: &[Version],
    goes: Option<VersionName>,
) -> Result<Bytes, NoMemory>
    requires { (front : List Version) × (new.now ≡ front ++ kept goes old.now) }
    ensures { IfOk result (λ bytes. bytes ≡ gone_bytes old.now new.now) }
{
    let mut bytes = Vec::new(alloc);
    for version in old {
        if is_named(version, goes) {
            push_gone(&mut bytes, version, new)?;
        }
    }
    Ok(Bytes::from_vec(bytes))
}

/// Appends the id of the data of a version that goes, unless a new version has that data.
fn push_gone(bytes: &mut Vec<u8>, version: &Version, new: &[Version]) -> Result<(), NoMemory>
    ensures { OnOk result (bytes.new.items ≡ bytes.old.items ++ gone_bytes (version.now ∷ []) new.now) }
{
    if let Some(id) = data_id(&version.what) {
        if !any_has_data(new, id) {
            bytes.extend_from_slice(&id.bytes())?;
        }
    }
    Ok(())
}

/// Whether a version of the key has the data of this id.
pub fn has_data(state: &KeyState, id: VersionId) -> bool
    ensures { result ≡ list_any (has_data id) state.now.versions }
{
    any_has_data(state.versions.as_slice(), id)
}

fn data_id(what: &What) -> Option<VersionId>
    ensures { result ≡ data_of what.now }
{
    match what {
        What::Marker => None,
        What::Object { data_id, .. } => Some(*data_id),
    }
}

fn any_has_data(versions: &[Version], id: VersionId) -> bool
    ensures { result ≡ list_any (has_data id) versions.now }
{
    versions.iter().any(|version| is_data(&version.what, id))
}

fn is_data(what: &What, id: VersionId) -> bool
    ensures { result ≡ is_data id what.now }
{
    match what {
        What::Marker => false,
        What::Object { data_id, .. } => *data_id == id,
    }
}
