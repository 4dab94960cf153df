//! Rows over the drives of `drive_file` that are shared.

ghost use Rattle.std.specs.Prelude.{◌≡◌, IfOk};

use crate::{memory_rows, steps};
use drive_base::Drive;
use drive_file::{Share, SharedDrive};
use drive_memory::MemDrive;
use fault_base::NoMemory;
use std::alloc::Global;
use std::mem;
use std::sync::Wait;
use std::thread::{self, Threads};
use trial_base::{Names, NoAnswer, first, said, said_number};

/// Two ways to drives in memory.
#[derive(Drop)]
pub struct Ways<R> {
    rt: R,
    first: SharedDrive<R, MemDrive>,
    second: SharedDrive<R, MemDrive>,
}

/// Shares a drive in place, and gives another way to it.
fn shared_once_more<D: Share>(drive: &mut D, alloc: Global) -> Result<D, NoMemory>
    ensures way { IfOk result (λ way. D.root way ≡ D.root drive.old) }
    ensures drive { D.root drive.new ≡ D.root drive.old }
{
    drive.share(alloc)?;
    drive.again()
}

/// Appends bytes one by one.
fn append_bytes<D: Drive>(drive: &mut D, loose: &str, count: u64) {
    for _ in 0..count {
        let _ = drive.append(loose, b"x");
    }
}

impl<R: Threads + Wait + Copy + Drop + Send + Sync> Ways<R> {
    /// Appends 1,000 bytes through each way, by a thread of its own. A row can't do it: what is sent to a thread rests on bounds
    /// that a method of a trait has only by its `impl`.
    pub fn append_by_two(&mut self) {
        let rt = self.rt;
        let (one, other) = (&mut self.first, &mut self.second);
        thread::join(
            &rt,
            move || append_bytes(one, "w1", 1000),
            move || append_bytes(other, "w2", 1000),
        );
    }
}

impl<R: Wait + Copy + Drop> Ways<R> {
    /// Two ways to one drive, which is new.
    pub fn new(rt: R, alloc: Global) -> Result<Ways<R>, NoAnswer> {
        let Ok(first) = SharedDrive::new(rt, alloc, memory_rows::fresh(alloc)) else {
            return Err(NoAnswer);
        };
        let second = first.again()?;
        Ok(Ways { rt, first, second })
    }

    /// Both ways lead to this drive from now on.
    fn lead_to(&mut self, alloc: Global, drive: MemDrive) -> Result<(), NoAnswer> {
        let Ok(first) = SharedDrive::new(self.rt, alloc, drive) else {
            return Err(NoAnswer);
        };
        self.second = first.again()?;
        self.first = first;
        Ok(())
    }

    /// How many faults each way counted.
    fn faults(&self, alloc: Global) -> Result<String, NoAnswer> {
        let (first, second) = (self.first.faults(), self.second.faults());
        Ok(format!(in alloc; "faults {first} and {second}")?)
    }

    /// `shared`, `alone`, `more`, `share`, `again`, and the steps of `first` and `second`. The first two take the drive in
    /// memory that other rows are about, and leave a new one.
    pub fn answer(
        &mut self,
        alloc: Global,
        names: &Names,
        memory: &mut MemDrive,
        row: &str,
    ) -> Result<String, NoAnswer> {
        let (call, rest) = first(row);
        match call {
            "shared" => {
                let drive = mem::replace(memory, MemDrive::new(alloc));
                self.lead_to(alloc, drive)?;
                self.faults(alloc)
            }
            "alone" => {
                let drive = mem::replace(memory, MemDrive::new(alloc));
                self.first = SharedDrive::alone(self.rt, drive);
                said_number(alloc, "faults ", self.first.faults())
            }
            "more" => {
                self.second = shared_once_more(&mut self.first, alloc)?;
                self.faults(alloc)
            }
            "share" => {
                self.first.share(alloc)?;
                self.faults(alloc)
            }
            "again" => match self.first.again() {
                Ok(way) => said_number(alloc, "faults ", way.faults()),
                Err(NoMemory) => said(alloc, "no other way"),
            },
            "first" => steps::answer(alloc, names, &mut self.first, rest),
            "second" => steps::answer(alloc, names, &mut self.second, rest),
            _ => self.faults(alloc),
        }
    }
}
