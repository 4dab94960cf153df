//! A drive that several threads share.

ghost use Rattle.std.specs.Prelude.{◌≡◌, false, [], IfErr, IfOk, IsErr, OnErr, OnOk, Some};
ghost use Rattle.drive_base.specs.Files.{no_files};
ghost use Rattle.drive_file.specs.SharedDrive.{Shares, way_shared, way_tells, way_files, way_count, way_root};

use crate::Share;
use crate::counting::faults_after;
use crate::lock::Lock;
use core::mem::replace_with;
use drive_base::{Before, Drive, DriveFault, Trail};
use fault_base::NoMemory;
use std::alloc::Global;
use std::sync::Wait;

/// How a holder comes to the drive.
#[derive(Drop)]
pub(crate) enum Way<D> {
    /// The drive itself, of which there is no other holder.
    Alone(D),
    /// A lock that the holders share.
    Shared(Lock<D>),
}

/// One way to a drive, for one thread. Others may have ways of their own to the same drive.
///
/// A call through a shared way waits until no other way is in a call. A shared way tells nothing, since other calls come
/// between its own, and counts the faults that it met itself.
///
/// Its root, which [`Share`] names, is the drive as it was before it was shared, or of a way that is alone the drive as it is. A
/// way that `again` gives has the root of the first. What calls did to a shared drive since, no clause says.
#[derive(Drop)]
pub struct SharedDrive<R, D> {
    rt: R,
    pub(crate) way: Way<D>,
    /// The faults that this way met, where it is shared.
    pub(crate) met: u64,
    /// The calls that were made through this way.
    pub(crate) trail: Trail,
}

impl<R: Wait + Clone + Drop, D: Drive + Drop> SharedDrive<R, D> {
    /// The first shared way to a drive, which met no fault yet. The drive comes back, untouched, where no memory was found.
    pub fn new(rt: R, alloc: Global, drive: D) -> Result<SharedDrive<R, D>, D>
        ensures back { IfErr result (λ back. back ≡ drive) }
        ensures tells { IfOk result (λ shared. ⟦<SharedDrive<R, D> as Drive>⟧.tells shared ≡ false) }
        ensures count { IfOk result (λ shared. ⟦<SharedDrive<R, D> as Drive>⟧.count shared ≡ 0) }
        ensures trail { IfOk result (λ shared. ⟦<SharedDrive<R, D> as Drive>⟧.trail shared ≡ []) }
        ensures root { IfOk result (λ shared. ⟦<SharedDrive<R, D> as Share>⟧.root shared ≡ Some drive) }
    {
        let lock = Lock::new(alloc, drive)?;
        Ok(SharedDrive {
            rt,
            way: Way::Shared(lock),
            met: 0,
            trail: Trail::new(),
        })
    }

    /// The only way to a drive, without a lock: it tells what the drive tells, and counts as the drive does. It takes no
    /// memory.
    pub fn alone(rt: R, drive: D) -> SharedDrive<R, D>
        ensures tells { ⟦<SharedDrive<R, D> as Drive>⟧.tells result ≡ D.tells drive }
        ensures files { ⟦<SharedDrive<R, D> as Drive>⟧.files result ≡ D.files drive }
        ensures count { ⟦<SharedDrive<R, D> as Drive>⟧.count result ≡ D.count drive }
        ensures trail { ⟦<SharedDrive<R, D> as Drive>⟧.trail result ≡ [] }
        ensures root { ⟦<SharedDrive<R, D> as Share>⟧.root result ≡ Some drive }
    {
        SharedDrive {
            rt,
            way: Way::Alone(drive),
            met: 0,
            trail: Trail::new(),
        }
    }

    /// One more way to the same drive, which met no fault yet. `NoMemory` where none was found for it, and of a drive
    /// that is alone, which has no other way.
    pub fn again(&self) -> Result<SharedDrive<R, D>, NoMemory>
        ensures alone { way_shared self.now.way ≡ false → IsErr result }
        ensures tells { IfOk result (λ shared. ⟦<SharedDrive<R, D> as Drive>⟧.tells shared ≡ false) }
        ensures count { IfOk result (λ shared. ⟦<SharedDrive<R, D> as Drive>⟧.count shared ≡ 0) }
        ensures trail { IfOk result (λ shared. ⟦<SharedDrive<R, D> as Drive>⟧.trail shared ≡ []) }
        ensures root { IfOk result (λ shared. ⟦<SharedDrive<R, D> as Share>⟧.root shared
            ≡ ⟦<SharedDrive<R, D> as Share>⟧.root self.now) }
    {
        let Way::Shared(lock) = &self.way else {
            return Err(NoMemory);
        };
        let lock = lock.again()?;
        Ok(SharedDrive {
            rt: self.rt.clone()?,
            way: Way::Shared(lock),
            met: 0,
            trail: Trail::new(),
        })
    }

    /// Shares the drive in place, so that it may have other ways from then on: it tells nothing any more, and has met no fault
    /// yet. Where no memory was found it stays as it was. One that is shared stays so, takes no memory, and counts anew.
    pub fn share(&mut self, alloc: Global) -> Result<(), NoMemory>
        ensures way { Shares result self.old.way self.new.way }
        ensures stays { OnErr result (self.new ≡ self.old) }
        ensures tells { OnOk result (⟦<SharedDrive<R, D> as Drive>⟧.tells self.new ≡ false) }
        ensures files { OnOk result (⟦<SharedDrive<R, D> as Drive>⟧.files self.new ≡ no_files) }
        ensures count { OnOk result (⟦<SharedDrive<R, D> as Drive>⟧.count self.new ≡ 0) }
        ensures root { ⟦<SharedDrive<R, D> as Share>⟧.root self.new ≡ ⟦<SharedDrive<R, D> as Share>⟧.root self.old }
        ensures trail { ⟦<SharedDrive<R, D> as Drive>⟧.trail self.new ≡ ⟦<SharedDrive<R, D> as Drive>⟧.trail self.old }
    {
        replace_with(&mut self.way, alloc, shared_way)?;
        self.met = 0;
        Ok(())
    }
}

/// The shared way to the drive of a way, which stays as it was where no memory was found.
fn shared_way<D: Drop>(way: Way<D>, alloc: Global) -> (Way<D>, Result<(), NoMemory>)
    ensures way { Shares result.1 way result.0 }
    ensures root { way_root result.0 ≡ way_root way }
{
    match way {
        Way::Alone(drive) => match Lock::new(alloc, drive) {
            Ok(lock) => (Way::Shared(lock), Ok(())),
            Err(drive) => (Way::Alone(drive), Err(NoMemory)),
        },
        Way::Shared(lock) => (Way::Shared(lock), Ok(())),
    }
}

#[tactic(auto, using(crate::proofs::CountLemmas::counts_met, crate::proofs::CountLemmas::appends_met, crate::proofs::CountLemmas::names_met))]
impl<R: Wait + Clone + Drop, D: Drive + Drop> Drive for SharedDrive<R, D> {
    ghost tells = { λ shared. way_tells D.tells shared.way };

    ghost files = { λ shared. way_files D.files shared.way };

    ghost count = { λ shared. way_count D.count shared.way shared.met };

    ghost trail = { λ shared. shared.trail };

    fn size(&mut self, name: &str) -> Result<u64, DriveFault> {
        let answer = match &mut self.way {
            Way::Alone(drive) => drive.size(name),
            Way::Shared(lock) => {
                let answer = lock.lock(&self.rt).size(name);
                self.met = faults_after(self.met, &answer);
                answer
            }
        };
        self.trail.size(name, &answer);
        answer
    }

    fn read(&mut self, name: &str, at: u64, into: &mut [u8]) -> Result<usize, DriveFault> {
        let before = Before::of(into);
        let answer = match &mut self.way {
            Way::Alone(drive) => drive.read(name, at, into),
            Way::Shared(lock) => {
                let answer = lock.lock(&self.rt).read(name, at, into);
                self.met = faults_after(self.met, &answer);
                answer
            }
        };
        self.trail.read(name, at, &before, &answer, into);
        answer
    }

    fn append(&mut self, loose: &str, bytes: &[u8]) -> Result<(), DriveFault> {
        let answer = match &mut self.way {
            Way::Alone(drive) => drive.append(loose, bytes),
            Way::Shared(lock) => {
                let answer = lock.lock(&self.rt).append(loose, bytes);
                self.met = faults_after(self.met, &answer);
                answer
            }
        };
        self.trail.append(loose, bytes, &answer);
        answer
    }

    fn sync(&mut self, loose: &str) -> Result<(), DriveFault> {
        let answer = match &mut self.way {
            Way::Alone(drive) => drive.sync(loose),
            Way::Shared(lock) => {
                let answer = lock.lock(&self.rt).sync(loose);
                self.met = faults_after(self.met, &answer);
                answer
            }
        };
        self.trail.sync(loose, &answer);
        answer
    }

    fn rename(&mut self, loose: &str, name: &str) -> Result<(), DriveFault> {
        let answer = match &mut self.way {
            Way::Alone(drive) => drive.rename(loose, name),
            Way::Shared(lock) => {
                let answer = lock.lock(&self.rt).rename(loose, name);
                self.met = faults_after(self.met, &answer);
                answer
            }
        };
        self.trail.rename(loose, name, &answer);
        answer
    }

    fn discard(&mut self, loose: &str) -> Result<(), DriveFault> {
        let answer = match &mut self.way {
            Way::Alone(drive) => drive.discard(loose),
            Way::Shared(lock) => {
                let answer = lock.lock(&self.rt).discard(loose);
                self.met = faults_after(self.met, &answer);
                answer
            }
        };
        self.trail.discard(loose, &answer);
        answer
    }

    fn remove(&mut self, name: &str) -> Result<(), DriveFault> {
        let answer = match &mut self.way {
            Way::Alone(drive) => drive.remove(name),
            Way::Shared(lock) => {
                let answer = lock.lock(&self.rt).remove(name);
                self.met = faults_after(self.met, &answer);
                answer
            }
        };
        self.trail.remove(name, &answer);
        answer
    }

    fn names(&mut self, alloc: Global, from: &str, most: u32) -> Result<Vec<String>, DriveFault> {
        let answer = match &mut self.way {
            Way::Alone(drive) => drive.names(alloc, from, most),
            Way::Shared(lock) => {
                let answer = lock.lock(&self.rt).names(alloc, from, most);
                self.met = faults_after(self.met, &answer);
                answer
            }
        };
        self.trail.names(from, most, &answer);
        answer
    }

    fn faults(&self) -> u64 {
        match &self.way {
            Way::Alone(drive) => drive.faults(),
            Way::Shared(_) => self.met,
        }
    }
}
