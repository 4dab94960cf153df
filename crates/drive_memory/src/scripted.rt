//! A drive whose calls fail by a script, for tests of the layers above.

ghost use Rattle.std.specs.Prelude.{◌≡◌, false, IsTrue};
ghost use Rattle.drive_base.specs.Files.{no_files};
ghost use Rattle.drive_memory.specs.MemDrive.{files_of, fault_count};
ghost use Rattle.drive_memory.specs.Scripted.{is_telling};

use crate::MemDrive;
use drive_base::{Before, Drive, DriveFault, Trail};
use std::alloc::Global;

/// Which calls of a drive fail. Each counts a fault and has no effect.
#[derive(Clone, Copy, Drop)]
pub enum Script {
    /// No call fails.
    Pass,
    /// So many calls fail from one on; the first call after the script was set is call 0.
    Calls { first: u64, count: u64 },
    /// Each call fails that names a file, in place or loose, whose name begins so.
    Names { front: &'static str },
    /// Each call fails that changes files.
    Writes,
}

/// Whether a drive tells what it holds, and whether it shows that.
#[derive(Clone, Copy, Drop)]
pub enum Voice {
    /// It tells what it holds, and shows it.
    Tells,
    /// It tells nothing, and shows what it holds.
    Silent,
    /// It tells nothing, and each read of a file whose name begins so gives another first byte than it holds.
    Lies { front: &'static str },
}

/// How often each method of `Drive` was called. A count stands still at the last value of a `u64`.
#[derive(Clone, Copy, Default, Drop)]
pub struct Calls {
    pub size: u64,
    pub read: u64,
    pub append: u64,
    pub sync: u64,
    pub rename: u64,
    pub discard: u64,
    pub remove: u64,
    pub names: u64,
}

/// A memory drive that counts its calls and fails those that a script says.
#[derive(Drop)]
pub struct ScriptedDrive {
    pub(crate) drive: MemDrive,
    pub(crate) voice: Voice,
    script: Script,
    calls: Calls,
    /// The calls since the script was set.
    since: u64,
    /// The calls that were made of it.
    pub(crate) trail: Trail,
}

impl Script {
    /// Whether it fails a call that comes after so many, on files of these names, and that changes files or doesn't.
    fn fails(self, since: u64, names: &[&str], changes: bool) -> bool {
        match self {
            Script::Pass => false,
            Script::Calls { first, count } => since >= first && since - first < count,
            Script::Names { front } => names.iter().any(|name| name.starts_with(front)),
            Script::Writes => changes,
        }
    }
}

impl Voice {
    /// Whether a read of the file of this name gives another first byte.
    fn lies_about(self, name: &str) -> bool
        ensures { IsTrue result → is_telling self ≡ false }
    {
        match self {
            Voice::Lies { front } => name.starts_with(front),
            Voice::Tells | Voice::Silent => false,
        }
    }
}

impl ScriptedDrive {
    /// A drive without any file that no call was made on. It takes no memory.
    pub fn new(alloc: Global, voice: Voice, script: Script) -> ScriptedDrive
        ensures tells { ⟦<ScriptedDrive as Drive>⟧.tells result ≡ is_telling voice }
        ensures files { ⟦<ScriptedDrive as Drive>⟧.files result ≡ no_files }
        ensures count { ⟦<ScriptedDrive as Drive>⟧.count result ≡ 0 }
    {
        ScriptedDrive {
            drive: MemDrive::new(alloc),
            voice,
            script,
            calls: Calls::default(),
            since: 0,
            trail: Trail::new(),
        }
    }

    /// Fails calls by another script from now on, whose call 0 is the next one. The files stay.
    pub fn follow(&mut self, script: Script)
        ensures tells { ⟦<ScriptedDrive as Drive>⟧.tells self.new ≡ ⟦<ScriptedDrive as Drive>⟧.tells self.old }
        ensures files { ⟦<ScriptedDrive as Drive>⟧.files self.new ≡ ⟦<ScriptedDrive as Drive>⟧.files self.old }
        ensures count { ⟦<ScriptedDrive as Drive>⟧.count self.new ≡ ⟦<ScriptedDrive as Drive>⟧.count self.old }
    {
        self.script = script;
        self.since = 0;
    }

    /// How often each method was called since the drive was made, the failed calls among them.
    pub fn calls(&self) -> Calls {
        self.calls
    }

    /// The drive behind, of which no script fails a call, and whose calls aren't counted.
    pub fn behind(&mut self) -> &mut MemDrive {
        self.drive.back();
        &mut self.drive
    }

    /// Begins a call on files of these names: where the script fails it, the drive behind is lost, and else is there.
    fn begin(&mut self, names: &[&str], changes: bool)
        ensures voice { self.new.voice ≡ self.old.voice }
        ensures files { files_of self.new.drive ≡ files_of self.old.drive }
        ensures count { fault_count self.new.drive ≡ fault_count self.old.drive }
        ensures trail { self.new.trail ≡ self.old.trail }
    {
        if self.script.fails(self.since, names, changes) {
            self.drive.lose();
        } else {
            self.drive.back();
        }
        self.since = self.since.saturating_add(1);
    }
}

impl Drive for ScriptedDrive {
    ghost tells = { λ scripted. is_telling scripted.voice };

    ghost files = { λ scripted. files_of scripted.drive };

    ghost count = { λ scripted. fault_count scripted.drive };

    ghost trail = { λ scripted. scripted.trail };

    fn size(&mut self, name: &str) -> Result<u64, DriveFault> {
        self.begin(&[name], false);
        self.calls.size = self.calls.size.saturating_add(1);
        let answer = self.drive.size(name);
        self.trail.size(name, &answer);
        answer
    }

    fn read(&mut self, name: &str, at: u64, into: &mut [u8]) -> Result<usize, DriveFault> {
        self.begin(&[name], false);
        self.calls.read = self.calls.read.saturating_add(1);
        let before = Before::of(into);
        let answer = match self.drive.read(name, at, into) {
            Ok(count) if count > 0 && self.voice.lies_about(name) => {
                into[0] ^= 1;
                Ok(count)
            }
            answer => answer,
        };
        self.trail.read(name, at, &before, &answer, into);
        answer
    }

    fn append(&mut self, loose: &str, bytes: &[u8]) -> Result<(), DriveFault> {
        self.begin(&[loose], true);
        self.calls.append = self.calls.append.saturating_add(1);
        let answer = self.drive.append(loose, bytes);
        self.trail.append(loose, bytes, &answer);
        answer
    }

    fn sync(&mut self, loose: &str) -> Result<(), DriveFault> {
        self.begin(&[loose], true);
        self.calls.sync = self.calls.sync.saturating_add(1);
        let answer = self.drive.sync(loose);
        self.trail.sync(loose, &answer);
        answer
    }

    fn rename(&mut self, loose: &str, name: &str) -> Result<(), DriveFault> {
        self.begin(&[loose, name], true);
        self.calls.rename = self.calls.rename.saturating_add(1);
        let answer = self.drive.rename(loose, name);
        self.trail.rename(loose, name, &answer);
        answer
    }

    fn discard(&mut self, loose: &str) -> Result<(), DriveFault> {
        self.begin(&[loose], true);
        self.calls.discard = self.calls.discard.saturating_add(1);
        let answer = self.drive.discard(loose);
        self.trail.discard(loose, &answer);
        answer
    }

    fn remove(&mut self, name: &str) -> Result<(), DriveFault> {
        self.begin(&[name], true);
        self.calls.remove = self.calls.remove.saturating_add(1);
        let answer = self.drive.remove(name);
        self.trail.remove(name, &answer);
        answer
    }

    fn names(&mut self, alloc: Global, from: &str, most: u32) -> Result<Vec<String>, DriveFault> {
        self.begin(&[], false);
        self.calls.names = self.calls.names.saturating_add(1);
        let answer = self.drive.names(alloc, from, most);
        self.trail.names(from, most, &answer);
        answer
    }

    fn faults(&self) -> u64 {
        self.drive.faults()
    }
}
