//! A drive that the contract must admit, since it lies and tells nothing but its calls, and a trouble of it.

ghost use Rattle.std.specs.Prelude.{false};
ghost use Rattle.drive_base.specs.Files.{no_files};

use drive_base::{Before, Drive, DriveFault, Trail, Trouble};
use std::alloc::Global;

/// A drive that tells nothing of what it holds and answers what it likes. It tells its calls.
#[derive(Drop)]
pub struct Liar {
    pub faults: u64,
    trail: Trail,
}

impl Liar {
    /// A drive that has met no fault and no call.
    pub fn new() -> Liar {
        Liar {
            faults: 0,
            trail: Trail::new(),
        }
    }
}

impl Drive for Liar {
    ghost tells = { λ _. false };

    ghost files = { λ _. no_files };

    ghost count = { λ d. d.faults };

    ghost trail = { λ d. d.trail };

    fn size(&mut self, name: &str) -> Result<u64, DriveFault> {
        let answer = Ok(7);
        self.trail.size(name, &answer);
        answer
    }

    fn read(&mut self, name: &str, at: u64, into: &mut [u8]) -> Result<usize, DriveFault> {
        let before = Before::of(into);
        into.fill(7);
        let answer = Ok(into.len());
        self.trail.read(name, at, &before, &answer, into);
        answer
    }

    fn append(&mut self, loose: &str, bytes: &[u8]) -> Result<(), DriveFault> {
        let answer = Ok(());
        self.trail.append(loose, bytes, &answer);
        answer
    }

    fn sync(&mut self, loose: &str) -> Result<(), DriveFault> {
        let answer = Err(DriveFault::Absent);
        self.trail.sync(loose, &answer);
        answer
    }

    fn rename(&mut self, loose: &str, name: &str) -> Result<(), DriveFault> {
        self.faults = self.faults.saturating_add(1);
        let answer = Err(DriveFault::Failed);
        self.trail.rename(loose, name, &answer);
        answer
    }

    fn discard(&mut self, loose: &str) -> Result<(), DriveFault> {
        let answer = Ok(());
        self.trail.discard(loose, &answer);
        answer
    }

    fn remove(&mut self, name: &str) -> Result<(), DriveFault> {
        let answer = Ok(());
        self.trail.remove(name, &answer);
        answer
    }

    fn names(&mut self, _alloc: Global, from: &str, most: u32) -> Result<Vec<String>, DriveFault> {
        let answer = Err(DriveFault::NoMemory);
        self.trail.names(from, most, &answer);
        answer
    }

    fn faults(&self) -> u64 {
        self.faults
    }
}

/// Makes a drive of fewer faults than these fail once.
#[derive(Drop)]
pub struct Stumble {
    pub below: u64,
}

impl Trouble<Liar> for Stumble {
    ghost befalls = { λ _ _ _ _. Unit {0} };

    fn strike(&mut self, drive: &mut Liar) -> bool {
        if drive.faults >= self.below {
            return false;
        }
        drive.faults += 1;
        true
    }
}
