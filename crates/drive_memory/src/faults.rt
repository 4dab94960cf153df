//! Losses and fuses of a drive, and what its calls count.

ghost use Rattle.std.specs.Prelude.{◌≡◌, true, false, Some, None};
ghost use Rattle.std.specs.Bool.{OnTrue, OnFalse};
ghost use Rattle.fault_base.specs.Counts.{Rose};
ghost use Rattle.drive_memory.specs.Exact.{Answered, FailsReading};
ghost use Rattle.drive_memory.specs.Gates.{Faulted, Wanted, Meets, Settles};
ghost use Rattle.drive_memory.specs.MemDrive.{calls_of, files_of, fault_count, starved_count, is_lost, fuse_of};

use crate::{Fuse, MemDrive};
use drive_base::DriveFault;

/// How a call begins.
#[derive(Drop)]
pub(crate) enum Gate {
    /// The call is done, and fails after that where the fuse is late.
    Open { late: bool },
    /// The call fails at once, and was counted.
    Shut,
}

impl MemDrive {
    /// Makes every call fail from now on. No file is changed, and the fuse stays: calls on a lost drive
    /// don't count for it.
    pub fn lose(&mut self)
        ensures lost { is_lost self.new ≡ true }
        ensures files { files_of self.new ≡ files_of self.old }
        ensures fuse { fuse_of self.new ≡ fuse_of self.old }
        ensures faults { fault_count self.new ≡ fault_count self.old }
        ensures starved { starved_count self.new ≡ starved_count self.old }
        ensures trail { calls_of self.new ≡ calls_of self.old }
    {
        self.lost = true;
    }

    /// Ends the loss and any fuse. The files are those that it had when it was lost.
    pub fn back(&mut self)
        ensures present { is_lost self.new ≡ false }
        ensures files { files_of self.new ≡ files_of self.old }
        ensures fuse { fuse_of self.new ≡ None }
        ensures faults { fault_count self.new ≡ fault_count self.old }
        ensures starved { starved_count self.new ≡ starved_count self.old }
        ensures trail { calls_of self.new ≡ calls_of self.old }
    {
        self.lost = false;
        self.fuse = None;
    }

    /// Lets so many calls pass and then fails each, in place of the fuse that there was.
    ///
    /// Every method of `Drive` but `faults` counts as a call. A call that fails so has no effect, but where
    /// the fuse is late the first of them does all that it does, as far as memory is found, and then answers
    /// `Failed`. The fuse is spent from then on, also where that call was one that only reads.
    pub fn fuse(&mut self, calls: u64, late: bool)
        ensures fuse { fuse_of self.new ≡ Some (record { calls = calls; late = late }) }
        ensures loss { is_lost self.new ≡ is_lost self.old }
        ensures files { files_of self.new ≡ files_of self.old }
        ensures faults { fault_count self.new ≡ fault_count self.old }
        ensures starved { starved_count self.new ≡ starved_count self.old }
        ensures trail { calls_of self.new ≡ calls_of self.old }
    {
        self.fuse = Some(Fuse { calls, late });
    }

    /// Counts a failed call.
    pub(crate) fn count_fault(&mut self)
        ensures { Faulted self.old self.new }
    {
        self.faults = self.faults.saturating_add(1);
    }

    /// Counts a failed call that found no memory.
    fn count_starved(&mut self)
        ensures { Wanted self.old self.new }
    {
        self.count_fault();
        self.starved = self.starved.saturating_add(1);
    }

    /// Begins a call: fails it at once, or lets it through and moves the fuse.
    pub(crate) fn meet(&mut self) -> Gate
        ensures { Meets self.old result self.new }
    {
        if self.lost {
            self.count_fault();
            return Gate::Shut;
        }
        let Some(fuse) = self.fuse else {
            return Gate::Open { late: false };
        };
        if fuse.is_spent() {
            self.count_fault();
            return Gate::Shut;
        }
        let late = fuse.is_due();
        self.fuse = Some(fuse.burned());
        Gate::Open { late }
    }

    /// Begins a call that only reads, and answers whether it goes on: a late fuse fails it here.
    pub(crate) fn opens(&mut self) -> bool
        ensures passed { OnTrue result (Answered self.old self.new) }
        ensures contents { self.new.contents ≡ self.old.contents }
        ensures trail { calls_of self.new ≡ calls_of self.old }
        ensures failed { OnFalse result (FailsReading self.old self.new) }
        ensures rose { OnFalse result (Rose self.old.faults self.new.faults) }
    {
        match self.meet() {
            Gate::Shut => false,
            Gate::Open { late: true } => {
                self.count_fault();
                false
            }
            Gate::Open { late: false } => true,
        }
    }

    /// Ends a call that was let through and answered `done`.
    pub(crate) fn settle(
        &mut self,
        late: bool,
        done: Result<(), DriveFault>,
    ) -> Result<(), DriveFault>
        ensures { Settles late done self.old result self.new }
    {
        if let Err(DriveFault::Failed) = done {
            self.count_starved();
            return Err(DriveFault::Failed);
        }
        if late {
            self.count_fault();
            return Err(DriveFault::Failed);
        }
        done
    }
}
