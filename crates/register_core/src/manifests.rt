//! The manifests of a pending change's data, on the data drives.

ghost use Rattle.std.specs.Prelude.{◌≡◌, ◌<◌, ◌≤◌, IfOk, IfErr, length};
ghost use Rattle.std.specs.Int.{IsBitSet};
ghost use Rattle.body_print.specs.Names.{manifest_name};
ghost use Rattle.drive_base.specs.View.{AllOnlyRead, OnlyRead, view, views};
ghost use Rattle.manifest_file.specs.Canonical.{IsCanonical};
ghost use Rattle.manifest_file.specs.Spelling.{file_of};
ghost use Rattle.manifest_file.specs.declared.manifest.TheConstants.{LONGEST_FILE};
ghost use Rattle.register_core.specs.Manifests.{AreManifestLetters, LettersOf, ReadsManifestOn, TellsOf};
ghost use Rattle.register_core.specs.declared.faults.QuorumFault.TheVariants.{NoMemory};

use crate::faults::QuorumFault;
use body_print::name_of_manifest;
use call_types::{FileKind, Why, Whys};
use drive_base::{Drive, SetPlan};
use file_access::{FetchFault, file_on};
use manifest_file::{LONGEST_FILE, Manifest, print_of, read};
use register_file::Adds;
use seal_file::{Damage, RecordFault};
use std::alloc::Global;

/// Looks on every data drive for the manifest of the data that a change adds, and tells of each drive whether its manifest
/// verifies.
pub fn look_for_data<D: Drive>(
    alloc: Global,
    set: SetPlan,
    adds: &Adds,
    disks: &mut [D],
) -> Result<Whys, QuorumFault>
    requires { length disks.old ≡ set.drives }
    ensures letters { IfOk result (λ whys. AreManifestLetters D.Drive set adds.now whys disks.old disks.new) }
    ensures refused { IfErr result (λ fault. fault ≡ NoMemory) }
    ensures disks_read { AllOnlyRead (views D.Drive disks.old) (views D.Drive disks.new) }
{
    let name = name_of_manifest(alloc, adds.id)?;
    let mut whys = Whys::all_good(set.drives);
    let mut index = 0;
    for disk in disks.iter_mut() {
        match manifest_on(alloc, &set, index, disk, adds, name.as_str()) {
            Ok(()) => {}
            Err(FetchFault::Because(why)) => whys.set(index as usize, why),
            Err(FetchFault::NoMemory) => return Err(QuorumFault::NoMemory),
        }
        index += 1;
    }
    Ok(whys)
}

/// Whether the manifest of this name on a data drive that isn't out verifies.
fn manifest_on<D: Drive>(
    alloc: Global,
    set: &SetPlan,
    index: u8,
    disk: &mut D,
    adds: &Adds,
    name: &str,
) -> Result<(), FetchFault>
    requires { index < set.now.drives }
    ensures outcome { name.now ≡ manifest_name adds.now.id → ReadsManifestOn D.Drive set.now adds.now index result disk.old disk.new }
    ensures alone { IsBitSet set.now.out index → disk.new ≡ disk.old }
    ensures read { OnlyRead (view D.Drive disk.old) (view D.Drive disk.new) }
{
    if set.is_out(index) {
        return Err(FetchFault::Because(Why::Lacks(FileKind::Format)));
    }
    let file = file_on(alloc, disk, FileKind::Manifest, name, LONGEST_FILE)?;
    verified(alloc, set, adds.print, file.as_slice())
}

/// Whether a file is a manifest that verifies.
fn verified(alloc: Global, set: &SetPlan, print: [u8; 32], file: &[u8]) -> Result<(), FetchFault>
    requires { length file.now ≤ LONGEST_FILE }
    ensures { LettersOf set.now print file.now result }
{
    match read(alloc, file) {
        Ok(manifest) => checked(set, print, &manifest, file.len() as u64),
        Err(RecordFault::Unsealed(damage)) => Err(FetchFault::Because(Why::Damaged(damage))),
        Err(RecordFault::NotCanonical(place)) => {
            Err(FetchFault::Because(Why::Damaged(Damage::Spelling(place))))
        }
        Err(RecordFault::NoMemory) => Err(FetchFault::NoMemory),
    }
}

/// Whether a manifest verifies. Its file has so many bytes.
fn checked(set: &SetPlan, print: [u8; 32], manifest: &Manifest, long: u64) -> Result<(), FetchFault>
    requires canonical { IsCanonical manifest.now }
    requires long { long ≡ length (file_of manifest.now) }
    requires within { long ≤ LONGEST_FILE }
    ensures { LettersOf set.now print (file_of manifest.now) result }
{
    let computed = print_of(manifest);
    if computed != print {
        let stored = print;
        return Err(FetchFault::Because(Why::Damaged(Damage::Digest { stored, computed })));
    }
    if !names_set(set, manifest) {
        return Err(FetchFault::Because(Why::Damaged(Damage::Spelling(long - 36))));
    }
    Ok(())
}

/// Whether a manifest names a set's number of drives, and a parity that such a set can have.
fn names_set(set: &SetPlan, manifest: &Manifest) -> bool
    ensures { TellsOf set.now manifest.now result }
{
    if manifest.drives != set.drives {
        return false;
    }
    if manifest.parity == 0 {
        return false;
    }
    manifest.parity <= manifest.drives / 2
}
