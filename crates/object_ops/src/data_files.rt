//! The files of an id's data, and removals of these.

ghost use Rattle.std.specs.Prelude.{◌≡◌, IfOk, string_bytes};
ghost use Rattle.object_ops.specs.DataNames.{name_by};

use body_print::{name_of_manifest, name_of_shard};
use fault_base::NoMemory;
use stamp_id::VersionId;
use std::alloc::Global;

/// A file of an id's data.
#[derive(Clone, Copy, PartialEq, Eq)]
pub enum DataFile {
    /// The shard.
    Shard,
    /// The manifest.
    Manifest,
}

/// A file that is to be removed from a drive.
#[derive(Drop)]
pub struct Removal {
    /// The id.
    pub(crate) id: VersionId,
    /// Which of its files.
    pub(crate) kind: DataFile,
    /// The index of the drive.
    pub(crate) drive: u8,
    /// The name of the file.
    pub(crate) name: String,
    pub ghost named: { string_bytes name ≡ name_by kind id },
}

/// The name of a file of an id.
pub(crate) fn name_of(alloc: Global, id: VersionId, kind: DataFile) -> Result<String, NoMemory>
    ensures { IfOk result (λ name. string_bytes name ≡ name_by kind id) }
{
    match kind {
        DataFile::Shard => Ok(name_of_shard(alloc, id)?),
        DataFile::Manifest => Ok(name_of_manifest(alloc, id)?),
    }
}
