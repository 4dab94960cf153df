//! The drives of a set, what befalls them, and what one row leaves for the next.

ghost use Rattle.std.specs.Prelude.{◌≡◌, ◌≤◌};

use crate::words::{cause, plan, small};
use call_types::{FileKind, Whys};
use drive_base::{Drive, SetPlan};
use drive_memory::MemDrive;
use file_access::write_file;
use register_core::{Draft, Prepared};
use register_file::Adds;
use stamp_id::Ballot;
use std::alloc::Global;
use trial_base::{Names, NoAnswer, bytes, first, said, said_number, word, yes};

/// The lanes and the data drives of a set, and what the steps of a register leave.
#[derive(Drop)]
pub struct World {
    pub set: SetPlan,
    pub lanes: Vec<MemDrive>,
    pub disks: Vec<MemDrive>,
    /// The last number that was drawn.
    pub seq: u16,
    /// How many loose files of registers were named.
    pub count: u64,
    /// Whether the register's rule refuses the content `hello`, at its third byte.
    pub refuses: bool,
    /// The data of a change whose body is staged.
    pub adds: Option<Adds>,
    /// The draft that the next step writes or mends by.
    pub draft: Option<Draft>,
    /// What a proposal left for its mark.
    pub prepared: Option<Prepared>,
    /// The letters that were told last.
    pub whys: Option<Whys>,
}

/// So many fresh drives.
fn fresh(alloc: Global, many: u8) -> Result<Vec<MemDrive>, NoAnswer> {
    let mut drives = Vec::new(alloc);
    for _ in 0..many {
        drives.push(MemDrive::new(alloc))?;
    }
    Ok(drives)
}

/// When a fuse fails its call.
pub fn is_late(word: &str) -> Result<bool, NoAnswer> {
    match word {
        "early" => Ok(false),
        "late" => Ok(true),
        _ => Err(NoAnswer),
    }
}

/// Writes bytes in place of a drive's format.
fn put_format(
    alloc: Global,
    drive: &mut MemDrive,
    names: &Names,
    words: &str,
) -> Result<String, NoAnswer> {
    let file = bytes(alloc, names, words)?;
    let why = write_file(drive, FileKind::Format, "w", "format", file.as_slice());
    cause(alloc, why)
}

/// What befalls one drive: `back`, `fresh`, `fuse CALLS early|late`, `hurt NAME PLACE`, `format BYTES`, `loose NAME`, `faults`.
fn befall(
    alloc: Global,
    drive: &mut MemDrive,
    names: &Names,
    words: &str,
) -> Result<String, NoAnswer> {
    let (what, rest) = first(words);
    match what {
        "lose" => drive.lose(),
        "back" => drive.back(),
        "fresh" => *drive = MemDrive::new(alloc),
        "fuse" => {
            let calls = small(word(rest, 0))?;
            drive.fuse(u64::from(calls), is_late(word(rest, 1))?);
        }
        "hurt" => {
            let place = small(word(rest, 1))?;
            return yes(alloc, drive.hurt(word(rest, 0), u64::from(place)));
        }
        "format" => return put_format(alloc, drive, names, rest),
        "loose" => return yes(alloc, drive.append(rest, b"x").is_ok()),
        "faults" => return said_number(alloc, "", drive.faults()),
        _ => return Err(NoAnswer),
    }
    said(alloc, "done")
}

impl World {
    /// A world of four drives, of which two are parity.
    pub fn new(alloc: Global) -> World {
        World {
            set: SetPlan::new([7; 16], 4, 2),
            lanes: Vec::new(alloc),
            disks: Vec::new(alloc),
            seq: 0,
            count: 0,
            refuses: false,
            adds: None,
            draft: None,
            prepared: None,
            whys: None,
        }
    }

    /// Starts over with fresh drives, of which so many are parity.
    pub fn start(&mut self, alloc: Global, drives: u8, parity: u8) -> Result<(), NoAnswer> {
        self.set = plan(7, drives, parity)?;
        self.lanes = fresh(alloc, drives)?;
        self.disks = fresh(alloc, drives)?;
        self.seq = 0;
        self.count = 0;
        self.refuses = false;
        self.adds = None;
        self.draft = None;
        self.prepared = None;
        self.whys = None;
        Ok(())
    }

    /// Draws a number of term 1.
    pub fn draw(&mut self) -> Ballot
        ensures term { result.term ≡ 1 }
        ensures seq { 1 ≤ result.seq }
    {
        self.seq = self.seq.saturating_add(1);
        Ballot {
            term: 1,
            seq: u64::from(self.seq),
        }
    }

    /// Stops all drives and starts them again.
    pub fn stop(&mut self) {
        for lane in self.lanes.iter_mut() {
            lane.stop();
        }
        for disk in self.disks.iter_mut() {
            disk.stop();
        }
    }

    /// `lane INDEX ..`, `disk INDEX ..`: what befalls the drive of an index; `both INDEX ..`: its lane and its data drive.
    pub fn befall(
        &mut self,
        alloc: Global,
        names: &Names,
        which: &str,
        words: &str,
    ) -> Result<String, NoAnswer> {
        let (index, words) = first(words);
        let index = small(index)? as usize;
        if index >= self.lanes.len() || index >= self.disks.len() {
            return Err(NoAnswer);
        }
        match which {
            "lane" => befall(alloc, &mut self.lanes[index], names, words),
            "disk" => befall(alloc, &mut self.disks[index], names, words),
            _ => {
                befall(alloc, &mut self.lanes[index], names, words)?;
                befall(alloc, &mut self.disks[index], names, words)
            }
        }
    }

    /// Gives each lane an early fuse: as many numbers as lanes.
    fn fuse(&mut self, words: &str) -> Result<(), NoAnswer> {
        for (index, lane) in self.lanes.iter_mut().enumerate() {
            lane.fuse(u64::from(small(word(words, index))?), false);
        }
        Ok(())
    }

    /// Brings every lane back, and loses so many of the first.
    fn lose_first(&mut self, many: usize) {
        for (index, lane) in self.lanes.iter_mut().enumerate() {
            lane.back();
            if index < many {
                lane.lose();
            }
        }
    }

    /// The rows of a set: `set new DRIVES PARITY`, `set id BYTE`, `set stop`, `set fuse CALLS..`, `set lost MANY`, `set refuse`.
    pub fn answer_set(&mut self, alloc: Global, asked: &str) -> Result<String, NoAnswer> {
        let (call, words) = first(asked);
        match call {
            "new" => {
                self.start(alloc, small(word(words, 0))?, small(word(words, 1))?)?;
                let (read, write) = (self.set.read_quorum(), self.set.write_quorum());
                return Ok(format!(in alloc; "read {read}, write {write}")?);
            }
            "id" => self.set = plan(small(words)?, self.set.drives, self.set.parity)?,
            "stop" => self.stop(),
            "fuse" => self.fuse(words)?,
            "lost" => self.lose_first(small(words)? as usize),
            "refuse" => self.refuses = true,
            _ => return said(alloc, "no such call"),
        }
        said(alloc, "done")
    }
}
