//! A drive over a folder, and the calls of the trait: each asks the system (`asking`), and is then added to the trail.

ghost use Rattle.std.specs.Prelude.{◌≡◌, ◌≤◌, true, false, [], length, map, IfOk, string_bytes};
ghost use Rattle.drive_base.specs.Faults.{Counts, CountsAppend, CountsNames};
ghost use Rattle.drive_base.specs.Files.{no_files};
ghost use Rattle.drive_base.specs.Names.{IsPage};
ghost use Rattle.drive_base.specs.Trail.{Append, Discard, Names, Read, Remove, Rename, Size, Sync, listed, and_append, and_discard, and_names, and_read, and_remove, and_rename, and_size, and_sync};
ghost use Rattle.drive_file.specs.Calls.{LooksUp, WritesLoose, SyncsLoose, PutsInPlace, TakesOut, ListsKnown};
ghost use Rattle.drive_file.specs.Asks.{AsksFolder};
ghost use Rattle.drive_file.specs.FileDrive.{calls_of, folder_view, is_lost};
ghost use Rattle.drive_file.specs.Opening.{IsFolderGiven, Opens, loose_in};

use crate::counting::faults_after;
use crate::names::NameSet;
use crate::opening::{self, LOOSE};
use crate::{FileFault, Folder, paths};
use drive_base::{Before, Drive, DriveFault, LONGEST_NAME, Trail};
use std::alloc::Global;

/// A drive over a folder. It tells nothing.
#[derive(Drop)]
pub struct FileDrive<F> {
    /// The folder in the system, of which each call asks.
    pub(crate) system: F,
    pub(crate) alloc: Global,
    /// The path of the folder, without a slash at its end.
    pub(crate) folder: String,
    /// The path of the folder of loose files.
    pub(crate) loose: String,
    /// The names of the files in place.
    pub(crate) names: NameSet,
    /// Whether every call fails.
    pub(crate) lost: bool,
    /// How many calls failed.
    pub(crate) faults: u64,
    /// The calls that were made of it.
    pub(crate) trail: Trail,
}

impl<F: Folder + Drop> FileDrive<F> {
    /// The drive over the folder of this path. The folder is made where it isn't there, in one that has to be; loose files
    /// are removed, and the names of the others are read. What in the folder isn't a name's spelling is passed over.
    ///
    /// `Failed` where the system refuses one of its calls, `NoMemory` where no memory was found.
    pub fn open(mut system: F, alloc: Global, folder: &str) -> Result<FileDrive<F>, FileFault>
        ensures tells { IfOk result (λ drive. ⟦<FileDrive<F> as Drive>⟧.tells drive ≡ false) }
        ensures count { IfOk result (λ drive. ⟦<FileDrive<F> as Drive>⟧.count drive ≡ 0) }
        ensures present { IfOk result (λ drive. is_lost drive ≡ false) }
        ensures trail { IfOk result (λ drive. calls_of drive ≡ []) }
        ensures folder { IfOk result (λ drive. IsFolderGiven folder.now (folder_view F.Folder drive).folder) }
        ensures loose { IfOk result (λ drive. (folder_view F.Folder drive).loose ≡ loose_in (folder_view F.Folder drive).folder) }
        ensures asked { IfOk result (λ drive. let here = folder_view F.Folder drive in Opens here.folder here.loose (F.calls system) here.calls) }
    {
        let folder = String::from_str(alloc, opening::without_slashes(folder))?;
        if folder.is_empty() {
            return Err(FileFault::Failed);
        }
        let loose = paths::below(alloc, folder.as_str(), LOOSE)?;
        let names = opening::prepare(&mut system, alloc, folder.as_str(), loose.as_str())?;
        Ok(FileDrive {
            system,
            alloc,
            folder,
            loose,
            names,
            lost: false,
            faults: 0,
            trail: Trail::new(),
        })
    }

    /// A drive whose every call fails and is counted. It stands for a folder that can't be opened, and takes no memory.
    pub fn closed(system: F, alloc: Global) -> FileDrive<F>
        ensures tells { ⟦<FileDrive<F> as Drive>⟧.tells result ≡ false }
        ensures count { ⟦<FileDrive<F> as Drive>⟧.count result ≡ 0 }
        ensures lost { is_lost result ≡ true }
        ensures trail { calls_of result ≡ [] }
    {
        FileDrive {
            system,
            alloc,
            folder: String::new(alloc),
            loose: String::new(alloc),
            names: NameSet::new(alloc),
            lost: true,
            faults: 0,
            trail: Trail::new(),
        }
    }
}

#[tactic(auto, using(crate::proofs::TrailLemmas::looks_up, crate::proofs::TrailLemmas::writes_loose, crate::proofs::TrailLemmas::syncs_loose, crate::proofs::TrailLemmas::puts_in_place, crate::proofs::TrailLemmas::takes_out, crate::proofs::TrailLemmas::lists_known, crate::proofs::CountLemmas::counts_size, crate::proofs::CountLemmas::counts_read, crate::proofs::CountLemmas::counts_append, crate::proofs::CountLemmas::counts_sync, crate::proofs::CountLemmas::counts_rename, crate::proofs::CountLemmas::counts_discard, crate::proofs::CountLemmas::counts_remove, crate::proofs::CountLemmas::counts_names))]
impl<F: Folder + Drop> Drive for FileDrive<F> {
    ghost tells = { λ _. false };

    ghost files = { λ _. no_files };

    ghost count = { λ drive. drive.faults };

    ghost trail = { calls_of };

    fn size(&mut self, name: &str) -> Result<u64, DriveFault>
        ensures count { Counts result self.old.faults self.new.faults }
        ensures known { LooksUp self.old name.now result self.new }
        ensures asks { AsksFolder (Size name.now result) (folder_view F.Folder self.old) (folder_view F.Folder self.new) }
        ensures trail { calls_of self.new ≡ and_size (calls_of self.old) name.now result }
    {
        let answer = self.ask_size(name);
        self.faults = faults_after(self.faults, &answer);
        self.trail.size(name, &answer);
        answer
    }

    fn read(&mut self, name: &str, at: u64, into: &mut [u8]) -> Result<usize, DriveFault>
        ensures within { IfOk result (λ n. n ≤ length into.old) }
        ensures count { Counts result self.old.faults self.new.faults }
        ensures known { LooksUp self.old name.now result self.new }
        ensures asks { AsksFolder (Read name.now at into.old result into.new) (folder_view F.Folder self.old) (folder_view F.Folder self.new) }
        ensures trail { calls_of self.new ≡ and_read (calls_of self.old) name.now at into.old result into.new }
    {
        let before = Before::of(into);
        let answer = self.ask_read(name, at, into);
        self.faults = faults_after(self.faults, &answer);
        self.trail.read(name, at, &before, &answer, into);
        answer
    }

    fn append(&mut self, loose: &str, bytes: &[u8]) -> Result<(), DriveFault>
        ensures count { CountsAppend result self.old.faults self.new.faults }
        ensures known { WritesLoose self.old result self.new }
        ensures asks { AsksFolder (Append loose.now bytes.now result) (folder_view F.Folder self.old) (folder_view F.Folder self.new) }
        ensures trail { calls_of self.new ≡ and_append (calls_of self.old) loose.now bytes.now result }
    {
        let answer = self.ask_append(loose, bytes);
        self.faults = faults_after(self.faults, &answer);
        self.trail.append(loose, bytes, &answer);
        answer
    }

    fn sync(&mut self, loose: &str) -> Result<(), DriveFault>
        ensures count { Counts result self.old.faults self.new.faults }
        ensures known { SyncsLoose self.old result self.new }
        ensures asks { AsksFolder (Sync loose.now result) (folder_view F.Folder self.old) (folder_view F.Folder self.new) }
        ensures trail { calls_of self.new ≡ and_sync (calls_of self.old) loose.now result }
    {
        let answer = self.ask_sync(loose);
        self.faults = faults_after(self.faults, &answer);
        self.trail.sync(loose, &answer);
        answer
    }

    fn rename(&mut self, loose: &str, name: &str) -> Result<(), DriveFault>
        requires { length name.now ≤ LONGEST_NAME }
        ensures count { Counts result self.old.faults self.new.faults }
        ensures known { PutsInPlace self.old name.now result self.new }
        ensures asks { AsksFolder (Rename loose.now name.now result) (folder_view F.Folder self.old) (folder_view F.Folder self.new) }
        ensures trail { calls_of self.new ≡ and_rename (calls_of self.old) loose.now name.now result }
    {
        let answer = self.ask_rename(loose, name);
        self.faults = faults_after(self.faults, &answer);
        self.trail.rename(loose, name, &answer);
        answer
    }

    fn discard(&mut self, loose: &str) -> Result<(), DriveFault>
        ensures count { Counts result self.old.faults self.new.faults }
        ensures known { WritesLoose self.old result self.new }
        ensures asks { AsksFolder (Discard loose.now result) (folder_view F.Folder self.old) (folder_view F.Folder self.new) }
        ensures trail { calls_of self.new ≡ and_discard (calls_of self.old) loose.now result }
    {
        let answer = self.ask_discard(loose);
        self.faults = faults_after(self.faults, &answer);
        self.trail.discard(loose, &answer);
        answer
    }

    fn remove(&mut self, name: &str) -> Result<(), DriveFault>
        ensures count { Counts result self.old.faults self.new.faults }
        ensures known { TakesOut self.old name.now result self.new }
        ensures asks { AsksFolder (Remove name.now result) (folder_view F.Folder self.old) (folder_view F.Folder self.new) }
        ensures trail { calls_of self.new ≡ and_remove (calls_of self.old) name.now result }
    {
        let answer = self.ask_remove(name);
        self.faults = faults_after(self.faults, &answer);
        self.trail.remove(name, &answer);
        answer
    }

    fn names(&mut self, alloc: Global, from: &str, most: u32) -> Result<Vec<String>, DriveFault>
        ensures page { IfOk result (λ names. IsPage from.now most LONGEST_NAME (map string_bytes names.items)) }
        ensures count { CountsNames result self.old.faults self.new.faults }
        ensures known { ListsKnown self.old from.now most LONGEST_NAME result self.new }
        ensures asks { AsksFolder (Names from.now most (listed result)) (folder_view F.Folder self.old) (folder_view F.Folder self.new) }
        ensures trail { calls_of self.new ≡ and_names (calls_of self.old) from.now most result }
    {
        let answer = self.ask_names(alloc, from, most);
        self.faults = faults_after(self.faults, &answer);
        self.trail.names(from, most, &answer);
        answer
    }

    fn faults(&self) -> u64 {
        self.faults
    }
}
