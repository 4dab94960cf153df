//! What is done with a folder when it is opened as a drive.

ghost use Rattle.std.specs.Prelude.{◌≡◌, ◌≢◌, ◌⊎◌, [], codes, OnOk, map, string_bytes};
ghost use Rattle.drive_file.specs.Asks.{AskedOnly};
ghost use Rattle.drive_file.specs.Opening.{Empties, IsEmptying, IsFolderGiven, IsMakingReady, IsParent, IsReading, MakesReady, Opens, clears};

use crate::names::NameSet;
use crate::{FileFault, Folder, paths};
use drive_base::DriveFault;
use std::alloc::Global;

/// The folder, below a drive's, of the files that are being written. It is no spelling of a name.
pub(crate) const LOOSE: &str = "loose";

/// The path of a folder without the slashes behind it.
pub(crate) fn without_slashes(path: &str) -> &str
    ensures { IsFolderGiven path.now result.now }
{
    path.trim_end_matches('/')
}

/// Makes a drive's folder and its loose one where they aren't there, and waits until both outlast a loss of power.
fn make_ready<F: Folder>(system: &mut F, folder: &str, loose: &str) -> Result<(), DriveFault>
    ensures ready { OnOk result (MakesReady folder.now loose.now (F.calls system.old) (F.calls system.new)) }
    ensures only { AskedOnly (IsMakingReady folder.now loose.now) (F.calls system.old) (F.calls system.new) }
{
    system.make(folder)?;
    system.sync(parent_of(folder))?;
    system.make(loose)?;
    system.sync(folder)
}

/// Removes these entries of the folder of loose files.
fn clear_all<F: Folder>(
    system: &mut F,
    alloc: Global,
    loose: &str,
    entries: &[String],
) -> Result<(), FileFault>
    ensures all { OnOk result (F.calls system.new ≡ clears loose.now (map string_bytes entries.now) (F.calls system.old)) }
    ensures only { AskedOnly (IsEmptying loose.now) (F.calls system.old) (F.calls system.new) }
{
    for place in 0..entries.len() {
        let path = paths::below(alloc, loose, entries[place].as_str())?;
        system.clear(path.as_str())?;
    }
    Ok(())
}

/// Removes all that is in the folder of loose files.
fn empty<F: Folder>(system: &mut F, alloc: Global, loose: &str) -> Result<(), FileFault>
    ensures all { OnOk result (Empties loose.now (F.calls system.old) (F.calls system.new)) }
    ensures only { AskedOnly (IsEmptying loose.now) (F.calls system.old) (F.calls system.new) }
{
    let entries = system.list(alloc, loose)?;
    clear_all(system, alloc, loose, entries.as_slice())
}

/// The folder before the last slash of a path: the root where nothing stands there.
fn root_or(front: &str) -> &str
    ensures { ((front.now ≢ []) × (result.now ≡ front.now)) ⊎ ((front.now ≡ []) × (result.now ≡ codes "/")) }
{
    if front.is_empty() { "/" } else { front }
}

/// The folder that has the last part of a path as its entry.
fn parent_of(path: &str) -> &str
    ensures { IsParent path.now result.now }
{
    match path.rsplit_once('/') {
        Some((front, _)) => root_or(front),
        None => ".",
    }
}

/// Puts the names that stand among the entries of a group's folder into a set, and the folders of its groups to those that are
/// still to be read. What is spelled as no name is passed over.
fn sort_out(
    alloc: Global,
    group: &str,
    entries: Vec<String>,
    groups: &mut Vec<String>,
    names: &mut NameSet,
) -> Result<(), FileFault> {
    for entry in entries {
        let mut spelling = String::from_str(alloc, group)?;
        spelling.push_str(entry.as_str())?;
        if paths::is_group_folder(entry.as_str()) {
            spelling.push('/')?;
            groups.push(spelling)?;
        } else if let Some(name) = paths::name_of(alloc, spelling.as_str())? {
            names.add(alloc, name.as_str())?;
        }
    }
    Ok(())
}

/// Syncs the folder of a group and lists what is in it.
fn list_group<F: Folder>(
    system: &mut F,
    alloc: Global,
    folder: &str,
    group: &str,
) -> Result<Vec<String>, FileFault>
    ensures only { AskedOnly (IsReading folder.now) (F.calls system.old) (F.calls system.new) }
{
    let path = paths::below(alloc, folder, group)?;
    system.sync(path.as_str())?;
    Ok(system.list(alloc, path.as_str())?)
}

/// Reads what is in the folder of a group.
fn read_group<F: Folder>(
    system: &mut F,
    alloc: Global,
    folder: &str,
    group: &str,
    groups: &mut Vec<String>,
    names: &mut NameSet,
) -> Result<(), FileFault>
    ensures only { AskedOnly (IsReading folder.now) (F.calls system.old) (F.calls system.new) }
{
    let entries = list_group(system, alloc, folder, group)?;
    sort_out(alloc, group, entries, groups, names)
}

/// The names of the files in a drive's folder. What is spelled as no name is passed over. Each folder is synced, since
/// a process that was killed may have left entries in it that a loss of power takes away.
fn read_names<F: Folder>(system: &mut F, alloc: Global, folder: &str) -> Result<NameSet, FileFault>
    ensures only { AskedOnly (IsReading folder.now) (F.calls system.old) (F.calls system.new) }
{
    let mut names = NameSet::new(alloc);
    let mut groups = Vec::new(alloc);
    groups.push(String::new(alloc))?;
    // The walk ends where no folder is left.
    for _ in 0..u64::MAX {
        let Some(group) = groups.pop() else {
            break;
        };
        read_group(
            system,
            alloc,
            folder,
            group.as_str(),
            &mut groups,
            &mut names,
        )?;
    }
    Ok(names)
}

/// Makes a drive's folders, removes what is in the one of loose files, and reads the names of the files in place.
pub(crate) fn prepare<F: Folder>(
    system: &mut F,
    alloc: Global,
    folder: &str,
    loose: &str,
) -> Result<NameSet, FileFault>
    ensures { OnOk result (Opens folder.now loose.now (F.calls system.old) (F.calls system.new)) }
{
    make_ready(system, folder, loose)?;
    empty(system, alloc, loose)?;
    read_names(system, alloc, folder)
}
