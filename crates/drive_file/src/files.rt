//! The calls of its folder that a drive makes on one file, by the file's name in the folder of files in place or of loose ones.

ghost use Rattle.std.specs.Prelude.{◌≤◌, IfOk, OnErr, OnOk, length};
ghost use Rattle.std.specs.Bool.{OnTrue, OnFalse};
ghost use Rattle.drive_file.specs.Asks.{Appends, AskedOnly, AsksOne, Forgets, ForgetsNot, IsOfAppend};
ghost use Rattle.drive_file.specs.Folder.{AskRead, AskRemove, AskSize, AskSync};
ghost use Rattle.drive_file.specs.Paths.{inner_folders, path_in};

use crate::{Folder, folders, paths};
use drive_base::DriveFault;
use std::alloc::Global;

/// The length of a file.
pub(crate) fn size<F: Folder>(
    system: &mut F,
    alloc: Global,
    folder: &str,
    name: &str,
) -> Result<u64, DriveFault>
    ensures { AsksOne (AskSize (path_in folder.now name.now)) result (F.calls system.old) (F.calls system.new) }
{
    let Ok(path) = paths::path_of(alloc, folder, name) else {
        return Err(DriveFault::NoMemory);
    };
    system.size(path.as_str())
}

/// Reads from a file.
pub(crate) fn read<F: Folder>(
    system: &mut F,
    alloc: Global,
    folder: &str,
    name: &str,
    at: u64,
    into: &mut [u8],
) -> Result<usize, DriveFault>
    ensures within { IfOk result (λ n. n ≤ length into.old) }
    ensures asked { AsksOne (λ answer. AskRead (path_in folder.now name.now) at into.old answer into.new) result (F.calls system.old) (F.calls system.new) }
{
    let Ok(path) = paths::path_of(alloc, folder, name) else {
        return Err(DriveFault::NoMemory);
    };
    system.read(path.as_str(), at, into)
}

/// Adds bytes to a file. Folders of a long name are made, and last no longer than they have to.
pub(crate) fn append<F: Folder>(
    system: &mut F,
    alloc: Global,
    folder: &str,
    name: &str,
    bytes: &[u8],
) -> Result<(), DriveFault>
    ensures all { OnOk result (Appends (inner_folders folder.now name.now) (path_in folder.now name.now) bytes.now (F.calls system.old) (F.calls system.new)) }
    ensures only { OnErr result (AskedOnly (IsOfAppend (inner_folders folder.now name.now) (path_in folder.now name.now) bytes.now)
        (F.calls system.old) (F.calls system.new)) }
{
    let Ok(path) = paths::path_of(alloc, folder, name) else {
        return Err(DriveFault::NoMemory);
    };
    let Ok(inner) = paths::folders_of(alloc, folder, name) else {
        return Err(DriveFault::NoMemory);
    };
    folders::make(system, inner.as_slice())?;
    system.append(path.as_str(), bytes)
}

/// Makes a file last.
pub(crate) fn sync<F: Folder>(
    system: &mut F,
    alloc: Global,
    folder: &str,
    name: &str,
) -> Result<(), DriveFault>
    ensures { AsksOne (AskSync (path_in folder.now name.now)) result (F.calls system.old) (F.calls system.new) }
{
    let Ok(path) = paths::path_of(alloc, folder, name) else {
        return Err(DriveFault::NoMemory);
    };
    system.sync(path.as_str())
}

/// Removes a file.
pub(crate) fn remove<F: Folder>(
    system: &mut F,
    alloc: Global,
    folder: &str,
    name: &str,
) -> Result<(), DriveFault>
    ensures { AsksOne (AskRemove (path_in folder.now name.now)) result (F.calls system.old) (F.calls system.new) }
{
    let Ok(path) = paths::path_of(alloc, folder, name) else {
        return Err(DriveFault::NoMemory);
    };
    system.remove(path.as_str())
}

/// Removes a file whose sync failed, and answers whether it isn't there any more: the system tells a failure once, so another sync
/// of it could succeed although the bytes aren't on the disk.
pub(crate) fn forget<F: Folder>(system: &mut F, alloc: Global, folder: &str, name: &str) -> bool
    ensures gone { OnTrue result (Forgets (path_in folder.now name.now) (F.calls system.old) (F.calls system.new)) }
    ensures there { OnFalse result (ForgetsNot (path_in folder.now name.now) (F.calls system.old) (F.calls system.new)) }
{
    match remove(system, alloc, folder, name) {
        Ok(()) | Err(DriveFault::Absent) => true,
        Err(_) => false,
    }
}
