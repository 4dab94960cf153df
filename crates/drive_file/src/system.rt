//! A folder of the system: each call is passed on to std.
//!
//! These lines are what is trusted of a drive over a folder. Its trail tells each call and the answer that was given, but that a
//! call was passed on, and that the answer is the system's, is the word of this file: what std's files give and take no contract
//! says. All else that a drive does over its folder is proved from the trail.

ghost use Rattle.std.specs.Prelude.{◌≡◌, ◌≤◌, [], IfOk, length};
ghost use Rattle.drive_file.specs.System.{asked_of};

use crate::Folder;
use crate::answers::{read_at, told};
use crate::folder_trail::FolderTrail;
use drive_base::{Before, DriveFault};
use std::alloc::Global;
use std::fs::{self, DirEntry, OpenFile, OpenOptions};
use std::io::{self, ErrorKind, Write};
use std::rt::Files;

/// The files of the system, which a drive over a folder is opened with.
#[derive(Drop)]
pub struct SystemFolder<R> {
    rt: R,
    pub(crate) trail: FolderTrail,
}

impl<R> SystemFolder<R> {
    /// The files of a runtime, of which nothing was asked yet.
    pub fn new(rt: R) -> SystemFolder<R>
        ensures { asked_of result ≡ [] }
    {
        SystemFolder {
            rt,
            trail: FolderTrail::new(),
        }
    }
}

impl<R: Files + AllocGlobal + Clone + Drop> Folder for SystemFolder<R> {
    ghost calls = { asked_of };

    fn size(&mut self, path: &str) -> Result<u64, DriveFault> {
        let answer = told(fs::metadata(&self.rt, path).map(|found| found.len()));
        self.trail.size(path, &answer);
        answer
    }

    fn read(&mut self, path: &str, at: u64, into: &mut [u8]) -> Result<usize, DriveFault> {
        let before = Before::of(into);
        let answer = told(read(&self.rt, path, at, into));
        self.trail.read(path, at, &before, &answer, into);
        answer
    }

    fn append(&mut self, path: &str, bytes: &[u8]) -> Result<(), DriveFault> {
        let answer = told(append(&self.rt, path, bytes));
        self.trail.append(path, bytes, &answer);
        answer
    }

    fn sync(&mut self, path: &str) -> Result<(), DriveFault> {
        let answer = told(fs::open(&self.rt, path).and_then(|file| file.sync_all()));
        self.trail.sync(path, &answer);
        answer
    }

    fn rename(&mut self, from: &str, to: &str) -> Result<(), DriveFault> {
        let answer = told(fs::rename(&self.rt, from, to));
        self.trail.rename(from, to, &answer);
        answer
    }

    fn remove(&mut self, path: &str) -> Result<(), DriveFault> {
        let answer = told(fs::remove_file(&self.rt, path));
        self.trail.remove(path, &answer);
        answer
    }

    fn make(&mut self, path: &str) -> Result<bool, DriveFault> {
        let answer = told(make(&self.rt, path));
        self.trail.make(path, &answer);
        answer
    }

    fn clear(&mut self, path: &str) -> Result<(), DriveFault> {
        let answer = told(clear(&self.rt, path));
        self.trail.clear(path, &answer);
        answer
    }

    fn list(&mut self, alloc: Global, path: &str) -> Result<Vec<String>, DriveFault> {
        let answer = told(list(&self.rt, alloc, path));
        self.trail.list(path, &answer);
        answer
    }
}

fn read<R: Files>(rt: &R, path: &str, at: u64, into: &mut [u8]) -> io::Result<usize>
    ensures { IfOk result (λ n. n ≤ length into.old) }
{
    read_at(&mut fs::open(rt, path)?, at, into)
}

fn append<R: Files>(rt: &R, path: &str, bytes: &[u8]) -> io::Result<()> {
    let mut file = OpenOptions::new().append(true).create(true).open(rt, path)?;
    file.write_all(bytes)
}

fn make<R: Files>(rt: &R, path: &str) -> io::Result<bool> {
    match fs::create_dir(rt, path) {
        Ok(()) => Ok(true),
        Err(error) if error.kind() == ErrorKind::AlreadyExists => Ok(false),
        Err(error) => Err(error),
    }
}

fn clear<R: Files + AllocGlobal>(rt: &R, path: &str) -> io::Result<()> {
    match fs::remove_file(rt, path) {
        Err(error) if error.kind() == ErrorKind::IsADirectory => fs::remove_dir_all(rt, path),
        answer => answer,
    }
}

fn list<R: Files + AllocGlobal + Clone + Drop>(
    rt: &R,
    alloc: Global,
    path: &str,
) -> io::Result<Vec<String>> {
    let mut names = Vec::new(alloc);
    for entry in fs::read_dir(rt, path)? {
        match entry {
            Ok(entry) => names.push(String::from_str(alloc, entry.file_name())?)?,
            Err(error) if error.kind() == ErrorKind::InvalidFilename => {}
            Err(error) => return Err(error),
        }
    }
    Ok(names)
}
