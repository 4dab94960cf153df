//! The names of the files of a body's data.

ghost use Rattle.std.specs.Prelude.{◌≡◌, ◌++◌, IfOk};
ghost use Rattle.std.specs.String.{string_bytes};
ghost use Rattle.body_print.specs.Names.{loose_manifest_name, loose_shard_name, manifest_name, shard_name};

use stamp_id::VersionId;
use std::alloc::{AllocError, Global};

/// The name of the manifest of an id.
pub fn name_of_manifest(alloc: Global, id: VersionId) -> Result<String, AllocError>
    ensures { IfOk result (λ name. string_bytes name ≡ manifest_name id) }
{
    let digits = hex::encode(alloc, id.bytes())?;
    joined(alloc, "m/", digits.as_str())
}

/// The name of the shard file of an id.
pub fn name_of_shard(alloc: Global, id: VersionId) -> Result<String, AllocError>
    ensures { IfOk result (λ name. string_bytes name ≡ shard_name id) }
{
    let digits = hex::encode(alloc, id.bytes())?;
    joined(alloc, "s/", digits.as_str())
}

/// The loose name under which the manifest of an id is written.
pub fn loose_name_of_manifest(alloc: Global, id: VersionId) -> Result<String, AllocError>
    ensures { IfOk result (λ name. string_bytes name ≡ loose_manifest_name id) }
{
    let digits = hex::encode(alloc, id.bytes())?;
    joined(alloc, "m", digits.as_str())
}

/// The loose name under which the shard file of an id is written.
pub fn loose_name_of_shard(alloc: Global, id: VersionId) -> Result<String, AllocError>
    ensures { IfOk result (λ name. string_bytes name ≡ loose_shard_name id) }
{
    let digits = hex::encode(alloc, id.bytes())?;
    joined(alloc, "s", digits.as_str())
}

/// Two texts, one after the other.
fn joined(alloc: Global, front: &str, back: &str) -> Result<String, AllocError>
    ensures { IfOk result (λ text. string_bytes text ≡ front.now ++ back.now) }
{
    let mut text = String::from_str(alloc, front)?;
    text.push_str(back)?;
    Ok(text)
}
