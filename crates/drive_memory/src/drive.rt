//! The drive.

ghost use Rattle.std.specs.Prelude.{◌≡◌, ◌≤◌, true, false, [], None, length, map, IfOk, string_bytes};
ghost use Rattle.drive_base.specs.Faults.{Counts, CountsAppend, CountsNames};
ghost use Rattle.drive_base.specs.Files.{no_files};
ghost use Rattle.drive_base.specs.Leaves.{SizeAnswers, ReadAnswers, AppendLeaves, SyncLeaves, RenameLeaves, DiscardLeaves, RemoveLeaves};
ghost use Rattle.drive_base.specs.Names.{IsPage, NamesAnswers};
ghost use Rattle.drive_base.specs.Trail.{and_append, and_discard, and_names, and_read, and_remove, and_rename, and_size, and_sync};
ghost use Rattle.drive_memory.specs.Does.{AppendDoes, SyncDoes, RenameDoes, DiscardDoes, RemoveDoes};
ghost use Rattle.drive_memory.specs.Exact.{ReadsExactly, ChangesExactly};
ghost use Rattle.drive_memory.specs.MemDrive.{calls_of, files_of, fault_count, starved_count, is_lost, fuse_of};

use crate::contents::Contents;
use crate::faults::Gate;
use crate::fuse::Fuse;
use drive_base::{Before, Drive, DriveFault, LONGEST_NAME, Trail};
use std::alloc::Global;

/// A drive in memory.
#[derive(Drop)]
pub struct MemDrive {
    pub(crate) contents: Contents,
    pub(crate) lost: bool,
    pub(crate) fuse: Option<Fuse>,
    pub(crate) faults: u64,
    pub(crate) starved: u64,
    /// The calls that were made of it.
    pub(crate) trail: Trail,
}

impl MemDrive {
    /// A drive without any file, which isn't lost, has no fuse, and has counted nothing. It takes no memory.
    pub fn new(alloc: Global) -> MemDrive
        ensures files { files_of result ≡ no_files }
        ensures faults { fault_count result ≡ 0 }
        ensures starved { starved_count result ≡ 0 }
        ensures present { is_lost result ≡ false }
        ensures fuse { fuse_of result ≡ None }
        ensures trail { calls_of result ≡ [] }
    {
        MemDrive {
            contents: Contents::new(alloc),
            lost: false,
            fuse: None,
            faults: 0,
            starved: 0,
            trail: Trail::new(),
        }
    }

    /// Whether the drive is lost, and every call fails.
    pub fn is_lost(&self) -> bool
        ensures { result ≡ is_lost self.now }
    {
        self.lost
    }

    /// How many calls of `append` and `rename` found no memory. It stands still at the last value of a `u64`.
    pub fn starved(&self) -> u64
        ensures { result ≡ starved_count self.now }
    {
        self.starved
    }
}

/// The calls themselves, which leave the trail.
impl MemDrive {
    /// `size`, but for the trail.
    fn ask_size(&mut self, name: &str) -> Result<u64, DriveFault>
        ensures files { SizeAnswers (files_of self.old) name.now result (files_of self.new) }
        ensures count { Counts result (fault_count self.old) (fault_count self.new) }
        ensures exact { ReadsExactly self.old result self.new }
        ensures trail { calls_of self.new ≡ calls_of self.old }
    {
        if !self.opens() {
            return Err(DriveFault::Failed);
        }
        let Some(size) = self.contents.size(name) else {
            return Err(DriveFault::Absent);
        };
        Ok(size)
    }

    /// `read`, but for the trail.
    fn ask_read(&mut self, name: &str, at: u64, into: &mut [u8]) -> Result<usize, DriveFault>
        ensures files { ReadAnswers (files_of self.old) name.now at into.old result into.new (files_of self.new) }
        ensures within { IfOk result (λ n. n ≤ length into.old) }
        ensures count { Counts result (fault_count self.old) (fault_count self.new) }
        ensures exact { ReadsExactly self.old result self.new }
        ensures trail { calls_of self.new ≡ calls_of self.old }
    {
        if !self.opens() {
            return Err(DriveFault::Failed);
        }
        let Some(count) = self.contents.read(name, at, into) else {
            return Err(DriveFault::Absent);
        };
        Ok(count)
    }

    /// `append`, but for the trail.
    fn ask_append(&mut self, loose: &str, bytes: &[u8]) -> Result<(), DriveFault>
        ensures files { AppendLeaves (files_of self.old) loose.now bytes.now result (files_of self.new) }
        ensures count { CountsAppend result (fault_count self.old) (fault_count self.new) }
        ensures exact { ChangesExactly (λ done. AppendDoes (files_of self.old) loose.now bytes.now done (files_of self.new)) self.old result self.new }
        ensures trail { calls_of self.new ≡ calls_of self.old }
    {
        let Gate::Open { late } = self.meet() else {
            return Err(DriveFault::Failed);
        };
        let done = self.contents.append(loose, bytes);
        self.settle(late, done)
    }

    /// `sync`, but for the trail.
    fn ask_sync(&mut self, loose: &str) -> Result<(), DriveFault>
        ensures files { SyncLeaves (files_of self.old) loose.now result (files_of self.new) }
        ensures count { Counts result (fault_count self.old) (fault_count self.new) }
        ensures exact { ChangesExactly (λ done. SyncDoes (files_of self.old) loose.now done (files_of self.new)) self.old result self.new }
        ensures trail { calls_of self.new ≡ calls_of self.old }
    {
        let Gate::Open { late } = self.meet() else {
            return Err(DriveFault::Failed);
        };
        let done = self.contents.sync(loose);
        self.settle(late, done)
    }

    /// `rename`, but for the trail.
    fn ask_rename(&mut self, loose: &str, name: &str) -> Result<(), DriveFault>
        requires { length name.now ≤ LONGEST_NAME }
        ensures files { RenameLeaves (files_of self.old) loose.now name.now result (files_of self.new) }
        ensures count { Counts result (fault_count self.old) (fault_count self.new) }
        ensures exact { ChangesExactly (λ done. RenameDoes (files_of self.old) loose.now name.now done (files_of self.new)) self.old result self.new }
        ensures trail { calls_of self.new ≡ calls_of self.old }
    {
        let Gate::Open { late } = self.meet() else {
            return Err(DriveFault::Failed);
        };
        let done = self.contents.rename(loose, name);
        self.settle(late, done)
    }

    /// `discard`, but for the trail.
    fn ask_discard(&mut self, loose: &str) -> Result<(), DriveFault>
        ensures files { DiscardLeaves (files_of self.old) loose.now result (files_of self.new) }
        ensures count { Counts result (fault_count self.old) (fault_count self.new) }
        ensures exact { ChangesExactly (λ done. DiscardDoes (files_of self.old) loose.now done (files_of self.new)) self.old result self.new }
        ensures trail { calls_of self.new ≡ calls_of self.old }
    {
        let Gate::Open { late } = self.meet() else {
            return Err(DriveFault::Failed);
        };
        let done = self.contents.discard(loose);
        self.settle(late, done)
    }

    /// `remove`, but for the trail.
    fn ask_remove(&mut self, name: &str) -> Result<(), DriveFault>
        ensures files { RemoveLeaves (files_of self.old) name.now result (files_of self.new) }
        ensures count { Counts result (fault_count self.old) (fault_count self.new) }
        ensures exact { ChangesExactly (λ done. RemoveDoes (files_of self.old) name.now done (files_of self.new)) self.old result self.new }
        ensures trail { calls_of self.new ≡ calls_of self.old }
    {
        let Gate::Open { late } = self.meet() else {
            return Err(DriveFault::Failed);
        };
        let done = self.contents.remove(name);
        self.settle(late, done)
    }

    /// `names`, but for the trail.
    fn ask_names(&mut self, alloc: Global, from: &str, most: u32) -> Result<Vec<String>, DriveFault>
        ensures page { IfOk result (λ names. IsPage from.now most LONGEST_NAME (map string_bytes names.items)) }
        ensures files { NamesAnswers (files_of self.old) from.now most LONGEST_NAME result (files_of self.new) }
        ensures count { CountsNames result (fault_count self.old) (fault_count self.new) }
        ensures exact { ReadsExactly self.old result self.new }
        ensures trail { calls_of self.new ≡ calls_of self.old }
    {
        if !self.opens() {
            return Err(DriveFault::Failed);
        }
        let Ok(names) = self.contents.names(alloc, from, most) else {
            return Err(DriveFault::NoMemory);
        };
        Ok(names)
    }
}

#[tactic(auto, using(crate::proofs::TrailLemmas::reads_exactly, crate::proofs::TrailLemmas::changes_exactly))]
impl Drive for MemDrive {
    ghost tells = { λ _. true };

    ghost files = { files_of };

    ghost count = { fault_count };

    ghost trail = { calls_of };

    fn size(&mut self, name: &str) -> Result<u64, DriveFault>
        ensures files { SizeAnswers (files_of self.old) name.now result (files_of self.new) }
        ensures count { Counts result (fault_count self.old) (fault_count self.new) }
        ensures exact { ReadsExactly self.old result self.new }
        ensures trail { calls_of self.new ≡ and_size (calls_of self.old) name.now result }
    {
        let answer = self.ask_size(name);
        self.trail.size(name, &answer);
        answer
    }

    fn read(&mut self, name: &str, at: u64, into: &mut [u8]) -> Result<usize, DriveFault>
        ensures files { ReadAnswers (files_of self.old) name.now at into.old result into.new (files_of self.new) }
        ensures within { IfOk result (λ n. n ≤ length into.old) }
        ensures count { Counts result (fault_count self.old) (fault_count self.new) }
        ensures exact { ReadsExactly self.old result self.new }
        ensures trail { calls_of self.new ≡ and_read (calls_of self.old) name.now at into.old result into.new }
    {
        let before = Before::of(into);
        let answer = self.ask_read(name, at, into);
        self.trail.read(name, at, &before, &answer, into);
        answer
    }

    fn append(&mut self, loose: &str, bytes: &[u8]) -> Result<(), DriveFault>
        ensures files { AppendLeaves (files_of self.old) loose.now bytes.now result (files_of self.new) }
        ensures count { CountsAppend result (fault_count self.old) (fault_count self.new) }
        ensures exact { ChangesExactly (λ done. AppendDoes (files_of self.old) loose.now bytes.now done (files_of self.new)) self.old result self.new }
        ensures trail { calls_of self.new ≡ and_append (calls_of self.old) loose.now bytes.now result }
    {
        let answer = self.ask_append(loose, bytes);
        self.trail.append(loose, bytes, &answer);
        answer
    }

    fn sync(&mut self, loose: &str) -> Result<(), DriveFault>
        ensures files { SyncLeaves (files_of self.old) loose.now result (files_of self.new) }
        ensures count { Counts result (fault_count self.old) (fault_count self.new) }
        ensures exact { ChangesExactly (λ done. SyncDoes (files_of self.old) loose.now done (files_of self.new)) self.old result self.new }
        ensures trail { calls_of self.new ≡ and_sync (calls_of self.old) loose.now result }
    {
        let answer = self.ask_sync(loose);
        self.trail.sync(loose, &answer);
        answer
    }

    fn rename(&mut self, loose: &str, name: &str) -> Result<(), DriveFault>
        requires { length name.now ≤ LONGEST_NAME }
        ensures files { RenameLeaves (files_of self.old) loose.now name.now result (files_of self.new) }
        ensures count { Counts result (fault_count self.old) (fault_count self.new) }
        ensures exact { ChangesExactly (λ done. RenameDoes (files_of self.old) loose.now name.now done (files_of self.new)) self.old result self.new }
        ensures trail { calls_of self.new ≡ and_rename (calls_of self.old) loose.now name.now result }
    {
        let answer = self.ask_rename(loose, name);
        self.trail.rename(loose, name, &answer);
        answer
    }

    fn discard(&mut self, loose: &str) -> Result<(), DriveFault>
        ensures files { DiscardLeaves (files_of self.old) loose.now result (files_of self.new) }
        ensures count { Counts result (fault_count self.old) (fault_count self.new) }
        ensures exact { ChangesExactly (λ done. DiscardDoes (files_of self.old) loose.now done (files_of self.new)) self.old result self.new }
        ensures trail { calls_of self.new ≡ and_discard (calls_of self.old) loose.now result }
    {
        let answer = self.ask_discard(loose);
        self.trail.discard(loose, &answer);
        answer
    }

    fn remove(&mut self, name: &str) -> Result<(), DriveFault>
        ensures files { RemoveLeaves (files_of self.old) name.now result (files_of self.new) }
        ensures count { Counts result (fault_count self.old) (fault_count self.new) }
        ensures exact { ChangesExactly (λ done. RemoveDoes (files_of self.old) name.now done (files_of self.new)) self.old result self.new }
        ensures trail { calls_of self.new ≡ and_remove (calls_of self.old) name.now result }
    {
        let answer = self.ask_remove(name);
        self.trail.remove(name, &answer);
        answer
    }

    fn names(&mut self, alloc: Global, from: &str, most: u32) -> Result<Vec<String>, DriveFault>
        ensures page { IfOk result (λ names. IsPage from.now most LONGEST_NAME (map string_bytes names.items)) }
        ensures files { NamesAnswers (files_of self.old) from.now most LONGEST_NAME result (files_of self.new) }
        ensures count { CountsNames result (fault_count self.old) (fault_count self.new) }
        ensures exact { ReadsExactly self.old result self.new }
        ensures trail { calls_of self.new ≡ and_names (calls_of self.old) from.now most result }
    {
        let answer = self.ask_names(alloc, from, most);
        self.trail.names(from, most, &answer);
        answer
    }

    fn faults(&self) -> u64 {
        self.faults
    }
}
