//! Writing a file of a drive.

ghost use Rattle.std.specs.Prelude.{◌≡◌, ◌≤◌, IsTrue, None, OnOk, OnErr, length};
ghost use Rattle.drive_base.specs.declared.drive.TheConstants.{LONGEST_NAME};
ghost use Rattle.file_access.specs.Trails.{FileCalls, LooseCalls};
ghost use Rattle.file_access.specs.Writing.{StepCause, Touches, WriteCause, WriteLeaves, Written};

use crate::steps::{append_on, place, sync_on};
use call_types::{FileKind, Why};
use drive_base::Drive;

/// Appends bytes under a loose name, and makes them last. `Failed`, with the counts before and after, where a call failed;
/// `Lacks(kind)` where the loose file is gone when it is synced.
pub fn write_loose<D: Drive>(
    drive: &mut D,
    kind: FileKind,
    loose: &str,
    bytes: &[u8],
) -> Result<(), Why>
    ensures ok { OnOk result (IsTrue (D.tells drive.old) → Written loose.now bytes.now (D.files drive.old) (D.files drive.new)) }
    ensures err { OnErr result (IsTrue (D.tells drive.old) → Touches loose.now (D.files drive.old) (D.files drive.new)) }
    ensures cause { StepCause kind (IsTrue (D.tells drive.old)) result (D.count drive.old) (D.count drive.new) }
    ensures trail { LooseCalls result loose.now bytes.now (D.trail drive.old) (D.trail drive.new) }
    ensures tells { D.tells drive.new ≡ D.tells drive.old }
    ensures count { D.count drive.old ≤ D.count drive.new }
{
    append_on(drive, kind, loose, bytes)?;
    sync_on(drive, kind, loose)
}

/// Writes a new file under a loose name that is not in use, and puts it in place: `append`, `sync`, `rename`. It stops
/// at the first call that fails, and answers `Good` where all three succeeded.
pub fn write_file<D: Drive>(
    drive: &mut D,
    kind: FileKind,
    loose: &str,
    name: &str,
    bytes: &[u8],
) -> Why
    requires { length name.now ≤ LONGEST_NAME }
    ensures leaves { IsTrue (D.tells drive.old) → (D.files drive.old).loose loose.now ≡ None
        → WriteLeaves result loose.now name.now bytes.now (D.files drive.old) (D.files drive.new) }
    ensures cause { WriteCause kind (IsTrue (D.tells drive.old)) result (D.count drive.old) (D.count drive.new) }
    ensures trail { FileCalls result loose.now name.now bytes.now (D.trail drive.old) (D.trail drive.new) }
    ensures tells { D.tells drive.new ≡ D.tells drive.old }
    ensures count { D.count drive.old ≤ D.count drive.new }
{
    if let Err(why) = write_loose(drive, kind, loose, bytes) {
        return why;
    }
    match place(drive, kind, loose, name) {
        Ok(()) => Why::Good,
        Err(why) => why,
    }
}
