//! What a drive over a folder asks of the system. Each `ask_` is a call of the trait but for the count of faults and the trail,
//! to which the caller adds it.

ghost use Rattle.std.specs.Prelude.{◌≡◌, ◌⊎◌, ◌≤◌, ◌∷◌, true, length, map, Some, IfOk, string_bytes};
ghost use Rattle.std.specs.Bool.{OnTrue, OnFalse};
ghost use Rattle.drive_base.specs.declared.fault.DriveFault.TheVariants.{Failed};
ghost use Rattle.drive_base.specs.Files.{with_name};
ghost use Rattle.drive_base.specs.Names.{IsPage};
ghost use Rattle.drive_base.specs.Trail.{Append, Discard, Names, Read, Remove, Rename, Size, Sync, listed};
ghost use Rattle.drive_file.specs.Calls.{KnowsTheSame, LooksUp, WritesLoose, SyncsLoose, PutsInPlace, TakesOut, ListsKnown};
ghost use Rattle.drive_file.specs.Asks.{AsksFolder, Places, PlacesNot};
ghost use Rattle.drive_file.specs.FileDrive.{calls_of, folder_view, known, is_lost};
ghost use Rattle.drive_file.specs.Paths.{inner_folders, path_in};

use crate::{FileDrive, Folder, files, folders, paths};
use drive_base::{DriveFault, LONGEST_NAME};
use std::alloc::Global;

impl<F: Folder + Drop> FileDrive<F> {
    /// `size`, but for the count and the trail.
    pub(crate) fn ask_size(&mut self, name: &str) -> Result<u64, DriveFault>
        ensures faults { self.new.faults ≡ self.old.faults }
        ensures known { LooksUp self.old name.now result self.new }
        ensures asks { AsksFolder (Size name.now result) (folder_view F.Folder self.old) (folder_view F.Folder self.new) }
        ensures trail { calls_of self.new ≡ calls_of self.old }
    {
        if self.lost {
            return Err(DriveFault::Failed);
        }
        if !self.names.has(name) {
            return Err(DriveFault::Absent);
        }
        match files::size(&mut self.system, self.alloc, self.folder.as_str(), name) {
            Ok(size) => Ok(size),
            Err(_) => Err(DriveFault::Failed),
        }
    }

    /// `read`, but for the count and the trail.
    pub(crate) fn ask_read(
        &mut self,
        name: &str,
        at: u64,
        into: &mut [u8],
    ) -> Result<usize, DriveFault>
        ensures within { IfOk result (λ n. n ≤ length into.old) }
        ensures faults { self.new.faults ≡ self.old.faults }
        ensures known { LooksUp self.old name.now result self.new }
        ensures asks { AsksFolder (Read name.now at into.old result into.new) (folder_view F.Folder self.old) (folder_view F.Folder self.new) }
        ensures trail { calls_of self.new ≡ calls_of self.old }
    {
        if self.lost {
            return Err(DriveFault::Failed);
        }
        if !self.names.has(name) {
            return Err(DriveFault::Absent);
        }
        match files::read(
            &mut self.system,
            self.alloc,
            self.folder.as_str(),
            name,
            at,
            into,
        ) {
            Ok(count) => Ok(count),
            Err(_) => Err(DriveFault::Failed),
        }
    }

    /// `append`, but for the count and the trail.
    pub(crate) fn ask_append(&mut self, loose: &str, bytes: &[u8]) -> Result<(), DriveFault>
        ensures faults { self.new.faults ≡ self.old.faults }
        ensures known { WritesLoose self.old result self.new }
        ensures asks { AsksFolder (Append loose.now bytes.now result) (folder_view F.Folder self.old) (folder_view F.Folder self.new) }
        ensures trail { calls_of self.new ≡ calls_of self.old }
    {
        if self.lost {
            return Err(DriveFault::Failed);
        }
        match files::append(
            &mut self.system,
            self.alloc,
            self.loose.as_str(),
            loose,
            bytes,
        ) {
            Ok(()) => Ok(()),
            Err(_) => Err(DriveFault::Failed),
        }
    }

    /// `sync`, but for the count and the trail.
    pub(crate) fn ask_sync(&mut self, loose: &str) -> Result<(), DriveFault>
        ensures faults { self.new.faults ≡ self.old.faults }
        ensures known { SyncsLoose self.old result self.new }
        ensures asks { AsksFolder (Sync loose.now result) (folder_view F.Folder self.old) (folder_view F.Folder self.new) }
        ensures trail { calls_of self.new ≡ calls_of self.old }
    {
        if self.lost {
            return Err(DriveFault::Failed);
        }
        if loose.is_empty() {
            return Err(DriveFault::Absent);
        }
        match files::sync(&mut self.system, self.alloc, self.loose.as_str(), loose) {
            Ok(()) => Ok(()),
            Err(DriveFault::Absent) => Err(DriveFault::Absent),
            Err(DriveFault::Failed | DriveFault::NoMemory) => {
                if files::forget(&mut self.system, self.alloc, self.loose.as_str(), loose) {
                    return Err(DriveFault::Failed);
                }
                self.lost = true;
                Err(DriveFault::Failed)
            }
        }
    }

    /// `rename`, but for the count and the trail.
    pub(crate) fn ask_rename(&mut self, loose: &str, name: &str) -> Result<(), DriveFault>
        requires { length name.now ≤ LONGEST_NAME }
        ensures faults { self.new.faults ≡ self.old.faults }
        ensures known { PutsInPlace self.old name.now result self.new }
        ensures asks { AsksFolder (Rename loose.now name.now result) (folder_view F.Folder self.old) (folder_view F.Folder self.new) }
        ensures trail { calls_of self.new ≡ calls_of self.old }
    {
        if self.lost {
            return Err(DriveFault::Failed);
        }
        if loose.is_empty() {
            return Err(DriveFault::Absent);
        }
        match files::size(&mut self.system, self.alloc, self.loose.as_str(), loose) {
            Ok(_) => {}
            Err(DriveFault::Absent) => return Err(DriveFault::Absent),
            Err(DriveFault::Failed | DriveFault::NoMemory) => return Err(DriveFault::Failed),
        }
        if !self.put_in_place(loose, name) {
            return Err(DriveFault::Failed);
        }
        Ok(())
    }

    /// `discard`, but for the count and the trail.
    pub(crate) fn ask_discard(&mut self, loose: &str) -> Result<(), DriveFault>
        ensures faults { self.new.faults ≡ self.old.faults }
        ensures known { WritesLoose self.old result self.new }
        ensures asks { AsksFolder (Discard loose.now result) (folder_view F.Folder self.old) (folder_view F.Folder self.new) }
        ensures trail { calls_of self.new ≡ calls_of self.old }
    {
        if self.lost {
            return Err(DriveFault::Failed);
        }
        if loose.is_empty() {
            return Err(DriveFault::Absent);
        }
        match files::remove(&mut self.system, self.alloc, self.loose.as_str(), loose) {
            Ok(()) => Ok(()),
            Err(DriveFault::Absent) => Err(DriveFault::Absent),
            Err(DriveFault::Failed | DriveFault::NoMemory) => Err(DriveFault::Failed),
        }
    }

    /// `remove`, but for the count and the trail.
    pub(crate) fn ask_remove(&mut self, name: &str) -> Result<(), DriveFault>
        ensures faults { self.new.faults ≡ self.old.faults }
        ensures known { TakesOut self.old name.now result self.new }
        ensures asks { AsksFolder (Remove name.now result) (folder_view F.Folder self.old) (folder_view F.Folder self.new) }
        ensures trail { calls_of self.new ≡ calls_of self.old }
    {
        if self.lost {
            return Err(DriveFault::Failed);
        }
        if !self.names.has(name) {
            return Err(DriveFault::Absent);
        }
        match files::remove(&mut self.system, self.alloc, self.folder.as_str(), name) {
            Ok(()) => {
                self.names.take(name);
                Ok(())
            }
            Err(_) => Err(DriveFault::Failed),
        }
    }

    /// `names`, but for the count and the trail.
    pub(crate) fn ask_names(
        &mut self,
        alloc: Global,
        from: &str,
        most: u32,
    ) -> Result<Vec<String>, DriveFault>
        ensures page { IfOk result (λ names. IsPage from.now most LONGEST_NAME (map string_bytes names.items)) }
        ensures faults { self.new.faults ≡ self.old.faults }
        ensures known { ListsKnown self.old from.now most LONGEST_NAME result self.new }
        ensures asks { AsksFolder (Names from.now most (listed result)) (folder_view F.Folder self.old) (folder_view F.Folder self.new) }
        ensures trail { calls_of self.new ≡ calls_of self.old }
    {
        if self.lost {
            return Err(DriveFault::Failed);
        }
        let Ok(names) = self.names.page(alloc, from, most) else {
            return Err(DriveFault::NoMemory);
        };
        Ok(names)
    }

    /// Puts a loose file in place under a name, and answers whether it did so. Where the system refuses one of its calls, the
    /// drive is lost, since nobody knows what a loss of power would leave.
    fn put_in_place(&mut self, loose: &str, name: &str) -> bool
        ensures done { OnTrue result ((known self.new ≡ with_name (known self.old) name.now (Some tt)) × (is_lost self.new ≡ is_lost self.old)) }
        ensures placed { OnTrue result (Places (string_bytes self.old.folder) (inner_folders (string_bytes self.old.folder) name.now)
            (path_in (string_bytes self.old.loose) loose.now) (path_in (string_bytes self.old.folder) name.now)
            (F.calls self.old.system) (F.calls self.new.system)) }
        ensures failed { OnFalse result ((is_lost self.new ≡ true) ⊎ KnowsTheSame self.old self.new) }
        ensures asked { OnFalse result (PlacesNot (string_bytes self.old.folder ∷ inner_folders (string_bytes self.old.folder) name.now)
            (path_in (string_bytes self.old.loose) loose.now) (path_in (string_bytes self.old.folder) name.now)
            (is_lost self.new) (F.calls self.old.system) (F.calls self.new.system)) }
        ensures paths { (self.new.folder ≡ self.old.folder) × (self.new.loose ≡ self.old.loose) }
        ensures faults { self.new.faults ≡ self.old.faults }
        ensures trail { calls_of self.new ≡ calls_of self.old }
    {
        if name.is_empty() {
            return false;
        }
        let Ok(from) = paths::path_of(self.alloc, self.loose.as_str(), loose) else {
            return false;
        };
        let Ok(to) = paths::path_of(self.alloc, self.folder.as_str(), name) else {
            return false;
        };
        let Ok(inner) = paths::folders_of(self.alloc, self.folder.as_str(), name) else {
            return false;
        };
        if self.names.add(self.alloc, name).is_err() {
            return false;
        }
        let top = self.folder.as_str();
        match folders::place(
            &mut self.system,
            from.as_str(),
            to.as_str(),
            top,
            inner.as_slice(),
        ) {
            Ok(()) => true,
            Err(_) => {
                self.lost = true;
                false
            }
        }
    }
}
