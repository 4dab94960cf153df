//! Rows over `drive_file`: drives over folders, of which the system's calls fail in turn, and the lock of a folder.

use crate::faulty::{Faulty, Fuse};
use crate::steps;
use drive_base::Drive;
use drive_file::{FileDrive, FileFault, LockFault, RootLock, SystemFolder, spelling_laws};
use std::alloc::Global;
use std::{fs, io};
use trial_base::{Names, NoAnswer, bytes, first, number, said, said_number, word};

/// The folder whose drive has a call of the system fail.
const FAILING: &str = "failing";

/// The drive over a folder, and the lock of one.
#[derive(Drop)]
pub struct Folders {
    rt: HostRuntime,
    drive: FileDrive<SystemFolder<HostRuntime>>,
    lock: Option<RootLock>,
}

impl Folders {
    /// No folder is opened yet, and none is locked.
    pub fn new(rt: HostRuntime) -> Folders {
        Folders {
            rt,
            drive: FileDrive::closed(SystemFolder::new(rt), rt.alloc()),
            lock: None,
        }
    }

    /// `open FOLDER`
    fn open(&mut self, folder: &str) -> &'static str {
        match FileDrive::open(
            SystemFolder::new(self.rt),
            self.rt.alloc(),
            folder.trim_matches('\''),
        ) {
            Ok(drive) => {
                self.drive = drive;
                "open"
            }
            Err(why) => refused(why),
        }
    }

    /// `lock FOLDER`
    fn take_lock(&mut self, folder: &str) -> &'static str {
        match RootLock::take(&self.rt, folder) {
            Ok(lock) => {
                self.lock = Some(lock);
                "taken"
            }
            Err(LockFault::Held) => "held",
            Err(LockFault::Failed) => "failed",
        }
    }

    /// What a call on the folders gave, or a step of the drive that is open.
    pub fn answer(&mut self, alloc: Global, names: &Names, row: &str) -> Result<String, NoAnswer> {
        let (call, rest) = first(row);
        match call {
            "fresh" => {
                let _ = fs::remove_dir_all(&self.rt, rest);
                said(alloc, self.open(rest))
            }
            "open" => said(alloc, self.open(rest)),
            "closed" => {
                self.drive = FileDrive::closed(SystemFolder::new(self.rt), alloc);
                said_number(alloc, "faults ", self.drive.faults())
            }
            "clear" => said(alloc, done(fs::remove_dir_all(&self.rt, rest))),
            "make" => said(alloc, done(fs::create_dir(&self.rt, rest))),
            "unlink" => said(alloc, done(fs::remove_file(&self.rt, rest))),
            "put" => put(alloc, names, &self.rt, rest),
            "lock" => said(alloc, self.take_lock(rest)),
            "unlock" => {
                self.lock = None;
                said(alloc, "unlocked")
            }
            "fails" => fails(alloc, names, self.rt, rest),
            "opens" => opens(alloc, self.rt, rest),
            "laws" => {
                spelling_laws();
                said(alloc, "done")
            }
            _ => steps::answer(alloc, names, &mut self.drive, row),
        }
    }
}

/// Why a folder wasn't opened.
fn refused(why: FileFault) -> &'static str {
    match why {
        FileFault::Failed => "failed",
        FileFault::NoMemory => "no memory",
    }
}

/// What came of a call of the system.
fn done(answer: io::Result<()>) -> &'static str {
    match answer {
        Ok(()) => "done",
        Err(_) => "failed",
    }
}

/// `put PATH BYTES`: a file that no drive wrote.
fn put(alloc: Global, names: &Names, rt: &HostRuntime, row: &str) -> Result<String, NoAnswer> {
    let (path, rest) = first(row);
    let bytes = bytes(alloc, names, rest)?;
    said(alloc, done(fs::write(rt, path, bytes.as_slice())))
}

/// A drive over an empty folder, behind a fuse: it has the file `a` in place and the loose file `w2`.
fn ready(rt: HostRuntime, fuse: &Fuse) -> Result<FileDrive<SystemFolder<Faulty>>, NoAnswer> {
    let _ = fs::remove_dir_all(&rt, FAILING);
    let faulty = Faulty {
        rt,
        fuse: fuse.again()?,
    };
    let Ok(mut drive) = FileDrive::open(SystemFolder::new(faulty), rt.alloc(), FAILING) else {
        return Err(NoAnswer);
    };
    let placed = drive.append("w1", b"abc").is_ok()
        && drive.sync("w1").is_ok()
        && drive.rename("w1", "a").is_ok()
        && drive.append("w2", b"new").is_ok();
    if !placed {
        return Err(NoAnswer);
    }
    Ok(drive)
}

/// `fails CALLS STEP`: what a step gives where one call of the system fails, which comes after so many, whether the drive
/// appends after it, and how many faults it counted.
fn fails(alloc: Global, names: &Names, rt: HostRuntime, row: &str) -> Result<String, NoAnswer> {
    let (calls, step) = first(row);
    let fuse = Fuse::new(alloc)?;
    let mut drive = ready(rt, &fuse)?;
    fuse.set(number(calls));
    let gave = steps::answer(alloc, names, &mut drive, step)?;
    fuse.set(u64::MAX);
    let lost = match drive.append("w3", b"") {
        Ok(()) => "there",
        Err(_) => "lost",
    };
    Ok(format!(in alloc; "{gave}, {lost}, {} faults", drive.faults())?)
}

/// `opens CALLS FOLDER`: whether a folder opens where one call of the system fails, which comes after so many.
fn opens(alloc: Global, rt: HostRuntime, row: &str) -> Result<String, NoAnswer> {
    let fuse = Fuse::new(alloc)?;
    fuse.set(number(word(row, 0)));
    match FileDrive::open(SystemFolder::new(Faulty { rt, fuse }), alloc, word(row, 1)) {
        Ok(_) => said(alloc, "open"),
        Err(why) => said(alloc, refused(why)),
    }
}
