//! The trait of all drives.

ghost use Rattle.std.specs.Prelude.{◌≡◌, ◌+◌, ◌≤◌, ℕ, Bool, IsTrue, IfOk, List, length, map};
ghost use Rattle.std.specs.String.{string_bytes};
ghost use Rattle.drive_base.specs.Faults.{Counts, CountsAppend, CountsNames};
ghost use Rattle.drive_base.specs.Files.{Files};
ghost use Rattle.drive_base.specs.Leaves.{SizeAnswers, ReadAnswers, AppendLeaves, SyncLeaves, RenameLeaves, DiscardLeaves, RemoveLeaves};
ghost use Rattle.drive_base.specs.Names.{IsPage, NamesAnswers};
ghost use Rattle.drive_base.specs.Trail.{DriveCall, and_append, and_discard, and_names, and_read, and_remove, and_rename, and_size, and_sync};

use crate::DriveFault;
use std::alloc::Global;

/// The most bytes of a name under which a file is put in place: `p/`, a bucket of 63 bytes, `/`, a key of 1,024, `/`, the 32
/// hex digits of an upload, `/` and the 5 digits of a part, which is the longest name of a register.
pub const LONGEST_NAME: usize = 1129;

/// A drive of named files.
///
/// Names are compared byte by byte. A file is written under a loose name by `append`, made lasting by `sync`
/// and put in place by `rename`; loose names and names are apart. Between two calls a drive may be lost, come
/// back, be damaged or be stopped, by a method of its own type: damage changes what is shown, never what is
/// kept.
///
/// What the files are before and after a call is said of a drive that tells (`tells`), and of that one it is
/// said whether the call succeeds or fails.
pub trait Drive {
    /// Whether the drive tells what it holds. It does so from its making on, or never.
    ghost tells: { Self → Bool };

    /// The files that are kept, shown and being written.
    ghost files: { Self → Files };

    /// How many calls failed. It never falls, and stands still at the last value of a `u64`.
    ghost count: { Self → ℕ };

    /// The calls that were made of it and what each answered, the newest first. Every drive tells them, also one that tells
    /// nothing of what it holds.
    ghost trail: { Self → List DriveCall };

    /// The length in bytes of the shown file, or `Absent` where no such file is shown.
    fn size(&mut self, name: &str) -> Result<u64, DriveFault>
        ensures files { IsTrue (tells self.old) → SizeAnswers (files self.old) name.now result (files self.new) }
        ensures tells { tells self.new ≡ tells self.old }
        ensures trail { trail self.new ≡ and_size (trail self.old) name.now result }
        ensures count { Counts result (count self.old) (count self.new) };

    /// Fills the front of `into` with the bytes of the shown file from the place `at` on, and answers how
    /// many there were: as many as `into` has room for, or all that are left. The rest of `into` stays.
    /// `Absent` where no such file is shown. After `Failed` the buffer has any bytes.
    fn read(&mut self, name: &str, at: u64, into: &mut [u8]) -> Result<usize, DriveFault>
        ensures files { IsTrue (tells self.old) → ReadAnswers (files self.old) name.now at into.old result into.new (files self.new) }
        ensures within { IfOk result (λ n. n ≤ length into.old) }
        ensures tells { tells self.new ≡ tells self.old }
        ensures trail { trail self.new ≡ and_read (trail self.old) name.now at into.old result into.new }
        ensures count { Counts result (count self.old) (count self.new) };

    /// Adds bytes at the end of the loose file, which is made where there is none, and is unsynced then.
    /// After `Failed` the loose file has any bytes, or isn't there.
    fn append(&mut self, loose: &str, bytes: &[u8]) -> Result<(), DriveFault>
        ensures files { IsTrue (tells self.old) → AppendLeaves (files self.old) loose.now bytes.now result (files self.new) }
        ensures tells { tells self.new ≡ tells self.old }
        ensures trail { trail self.new ≡ and_append (trail self.old) loose.now bytes.now result }
        ensures count { CountsAppend result (count self.old) (count self.new) };

    /// Makes the loose file last. `Absent` where it isn't there. After `Failed` it has any bytes, or isn't there.
    fn sync(&mut self, loose: &str) -> Result<(), DriveFault>
        ensures files { IsTrue (tells self.old) → SyncLeaves (files self.old) loose.now result (files self.new) }
        ensures tells { tells self.new ≡ tells self.old }
        ensures trail { trail self.new ≡ and_sync (trail self.old) loose.now result }
        ensures count { Counts result (count self.old) (count self.new) };

    /// Takes the loose file away and puts its bytes in place under `name`, in one step; a file that wasn't
    /// synced puts any bytes there. `Absent` where the loose file isn't there. After `Failed` the named
    /// files are as before or as after.
    fn rename(&mut self, loose: &str, name: &str) -> Result<(), DriveFault>
        requires { length name.now ≤ LONGEST_NAME }
        ensures files { IsTrue (tells self.old) → RenameLeaves (files self.old) loose.now name.now result (files self.new) }
        ensures tells { tells self.new ≡ tells self.old }
        ensures trail { trail self.new ≡ and_rename (trail self.old) loose.now name.now result }
        ensures count { Counts result (count self.old) (count self.new) };

    /// Takes the loose file away. `Absent` where it isn't there. After `Failed` it has any bytes, or isn't there.
    fn discard(&mut self, loose: &str) -> Result<(), DriveFault>
        ensures files { IsTrue (tells self.old) → DiscardLeaves (files self.old) loose.now result (files self.new) }
        ensures tells { tells self.new ≡ tells self.old }
        ensures trail { trail self.new ≡ and_discard (trail self.old) loose.now result }
        ensures count { Counts result (count self.old) (count self.new) };

    /// Takes the file of this name away. `Absent` where none is shown. After `Failed` it is there or gone.
    fn remove(&mut self, name: &str) -> Result<(), DriveFault>
        ensures files { IsTrue (tells self.old) → RemoveLeaves (files self.old) name.now result (files self.new) }
        ensures tells { tells self.new ≡ tells self.old }
        ensures trail { trail self.new ≡ and_remove (trail self.old) name.now result }
        ensures count { Counts result (count self.old) (count self.new) };

    /// The first `most` names of shown files, in the order of their bytes, from `from` on. Names of more
    /// than 1,129 bytes are passed over.
    fn names(&mut self, alloc: Global, from: &str, most: u32) -> Result<Vec<String>, DriveFault>
        ensures page { IfOk result (λ names. IsPage from.now most LONGEST_NAME (map string_bytes names.items)) }
        ensures files { IsTrue (tells self.old)
            → NamesAnswers (files self.old) from.now most LONGEST_NAME result (files self.new) }
        ensures tells { tells self.new ≡ tells self.old }
        ensures trail { trail self.new ≡ and_names (trail self.old) from.now most result }
        ensures count { CountsNames result (count self.old) (count self.new) };

    /// How many calls failed.
    fn faults(&self) -> u64
        ensures { result ≡ count self.now };
}
