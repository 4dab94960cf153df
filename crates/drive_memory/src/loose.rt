//! Files that are being written.

ghost use Rattle.std.specs.Prelude.{◌≡◌, ◌++◌, Some, None, true, false, is_some, OnOk, OnErr};
ghost use Rattle.std.specs.Bool.{OnTrue, OnFalse};
ghost use Rattle.drive_base.specs.Files.{LooseFile, with_name};
ghost use Rattle.drive_base.specs.Leaves.{loose_bytes};
ghost use Rattle.drive_memory.specs.Maps.{loose_file, loose_files};
ghost use Rattle.drive_memory.specs.Damage.{synced_only};
ghost use Rattle.drive_memory.specs.Does.{placed_bytes};

use crate::maps;
use std::alloc::{AllocError, Global};
use std::collections::BTreeMap;

/// A file that is being written.
#[derive(Drop)]
pub(crate) struct Loose {
    pub(crate) bytes: Vec<u8>,
    pub(crate) synced: bool,
}

impl Loose {
    /// Adds bytes at the end.
    fn add(&mut self, bytes: &[u8]) -> Result<(), AllocError>
        ensures ok { OnOk result (loose_file self.new ≡ record { bytes = self.old.bytes.items ++ bytes.now; synced = false }) }
        ensures err { OnErr result (loose_file self.new ≡ loose_file self.old) }
    {
        self.bytes.extend_from_slice(bytes)?;
        self.synced = false;
        Ok(())
    }

    /// The bytes to put in place: zeros where they weren't synced.
    pub(crate) fn into_placed(mut self) -> Vec<u8>
        ensures { result.items ≡ placed_bytes (loose_file self) }
    {
        if !self.synced {
            self.bytes.fill(0);
        }
        self.bytes
    }
}

/// Adds bytes at the end of a file, which is made where there is none.
pub(crate) fn append(
    files: &mut BTreeMap<String, Loose>,
    alloc: Global,
    name: &str,
    bytes: &[u8],
) -> Result<(), AllocError>
    ensures ok { OnOk result (loose_files files.new ≡ with_name (loose_files files.old) name.now
        (Some (record { bytes = loose_bytes (loose_files files.old name.now) ++ bytes.now; synced = false }))) }
    ensures err { OnErr result (loose_files files.new ≡ loose_files files.old) }
{
    if let Some(file) = files.get_mut(name) {
        file.add(bytes)?;
        return Ok(());
    }
    let file = Loose {
        bytes: Vec::from_slice(alloc, bytes)?,
        synced: false,
    };
    maps::put(files, alloc, name, file)?;
    Ok(())
}

/// Marks a file as synced, and answers whether it is there.
pub(crate) fn sync(files: &mut BTreeMap<String, Loose>, name: &str) -> bool
    ensures there { OnTrue result ((file : LooseFile) × (loose_files files.old name.now ≡ Some file)
        × (loose_files files.new ≡ with_name (loose_files files.old) name.now (Some (record { bytes = file.bytes; synced = true })))) }
    ensures absent { OnFalse result ((loose_files files.old name.now ≡ None) × (loose_files files.new ≡ loose_files files.old)) }
{
    match files.get_mut(name) {
        Some(file) => {
            file.synced = true;
            true
        }
        None => false,
    }
}

/// Drops the files that aren't synced.
pub(crate) fn stop(files: &mut BTreeMap<String, Loose>)
    ensures { loose_files files.new ≡ (λ name. synced_only (loose_files files.old name)) }
{
    files.retain(|_, file| file.synced);
}
