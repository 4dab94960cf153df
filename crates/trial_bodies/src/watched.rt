//! Drives in memory that follow a script and note the last call.

use drive_base::{Drive, DriveFault};
use drive_memory::{Script, ScriptedDrive, Voice};
use std::alloc::Global;
use trial_base::{NoAnswer, said};

/// A call of a drive: its kind and that of the file, and the place and the number of the bytes.
#[derive(Clone, Copy, Drop)]
pub struct Note {
    call: &'static str,
    file: &'static str,
    at: u64,
    long: usize,
    /// The failed calls before it.
    faults: u64,
}

/// A drive in memory that follows a script, with its last call.
#[derive(Drop)]
pub struct Watched {
    /// The drive.
    pub drive: ScriptedDrive,
    /// Its last call, until it is told.
    pub last: Option<Note>,
}

/// The kind of the file of a name.
fn kind_of(name: &str) -> &'static str {
    if name.starts_with("s/") {
        return "shard";
    }
    if name.starts_with("m/") {
        return "manifest";
    }
    if name.starts_with("s") {
        return "loose-shard";
    }
    if name.starts_with("m") {
        return "loose-manifest";
    }
    "other"
}

impl Watched {
    /// A drive without a file, of which no call fails yet.
    pub fn new(alloc: Global) -> Watched {
        Watched {
            drive: ScriptedDrive::new(alloc, Voice::Tells, Script::Pass),
            last: None,
        }
    }

    /// A call that comes next.
    fn note(&self, call: &'static str, name: &str, at: u64, long: usize) -> Option<Note> {
        Some(Note {
            call,
            file: kind_of(name),
            at,
            long,
            faults: self.drive.faults(),
        })
    }
}

impl Drive for Watched {
    ghost tells = { λ watched. ⟦<ScriptedDrive as Drive>⟧.tells watched.drive };

    ghost files = { λ watched. ⟦<ScriptedDrive as Drive>⟧.files watched.drive };

    ghost count = { λ watched. ⟦<ScriptedDrive as Drive>⟧.count watched.drive };

    ghost trail = { λ watched. ⟦<ScriptedDrive as Drive>⟧.trail watched.drive };

    fn size(&mut self, name: &str) -> Result<u64, DriveFault> {
        self.last = self.note("size", name, 0, 0);
        self.drive.size(name)
    }

    fn read(&mut self, name: &str, at: u64, into: &mut [u8]) -> Result<usize, DriveFault> {
        self.last = self.note("read", name, at, into.len());
        self.drive.read(name, at, into)
    }

    fn append(&mut self, loose: &str, bytes: &[u8]) -> Result<(), DriveFault> {
        self.last = self.note("append", loose, 0, bytes.len());
        self.drive.append(loose, bytes)
    }

    fn sync(&mut self, loose: &str) -> Result<(), DriveFault> {
        self.last = self.note("sync", loose, 0, 0);
        self.drive.sync(loose)
    }

    fn rename(&mut self, loose: &str, name: &str) -> Result<(), DriveFault> {
        self.last = self.note("rename", name, 0, 0);
        self.drive.rename(loose, name)
    }

    fn discard(&mut self, loose: &str) -> Result<(), DriveFault> {
        self.last = self.note("discard", loose, 0, 0);
        self.drive.discard(loose)
    }

    fn remove(&mut self, name: &str) -> Result<(), DriveFault> {
        self.last = self.note("remove", name, 0, 0);
        self.drive.remove(name)
    }

    fn names(&mut self, alloc: Global, from: &str, most: u32) -> Result<Vec<String>, DriveFault> {
        self.last = self.note("names", from, 0, 0);
        self.drive.names(alloc, from, most)
    }

    fn faults(&self) -> u64 {
        self.drive.faults()
    }
}

/// A call in words: the drive's place, the call, the file, the place and the number of the bytes.
fn told(alloc: Global, place: usize, note: Note, is_failed: bool) -> Result<String, NoAnswer> {
    let Note {
        call,
        file,
        at,
        long,
        faults: _,
    } = note;
    let end = if is_failed { ", failed" } else { "" };
    Ok(format!(in alloc; "{place} {call} {file} {at} {long}{end}")?)
}

/// Tells the first call that isn't told yet.
pub fn called(alloc: Global, drives: &mut [Watched]) -> Result<String, NoAnswer> {
    for (place, drive) in drives.iter_mut().enumerate() {
        if let Some(note) = drive.last {
            drive.last = None;
            return told(alloc, place, note, drive.faults() > note.faults);
        }
    }
    said(alloc, "no call")
}

/// Leaves all calls so far untold.
pub fn forget(drives: &mut [Watched]) {
    for drive in drives.iter_mut() {
        drive.last = None;
    }
}
