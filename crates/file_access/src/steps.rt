//! The steps of writing and removing a file: one call of the drive each, told with its cause.

ghost use Rattle.std.specs.Prelude.{◌≡◌, ◌≤◌, IsTrue, OnOk, OnErr, Result, length};
ghost use Rattle.drive_base.specs.declared.drive.TheConstants.{LONGEST_NAME};
ghost use Rattle.drive_base.specs.declared.fault.DriveFault.{DriveFault};
ghost use Rattle.drive_base.specs.DriveModel.{DriveModel};
ghost use Rattle.drive_base.specs.Leaves.{Placed};
ghost use Rattle.drive_base.specs.Trail.{Append, Discard, Remove, Rename, Sync};
ghost use Rattle.drive_base.specs.View.{view};
ghost use Rattle.file_access.specs.Trails.{AnswerOf};
ghost use Rattle.file_access.specs.Writing.{Appended, Discarded, HasLoose, HasShown, PlacedOrTouched, Removed, RemovedOrNot, StaysIfLacking, StepCause, Synced, Touches};

use crate::fault::told;
use call_types::{FileKind, Why};
use drive_base::{Drive, DriveFault};

/// Adds bytes at the end of a loose file, which is made where there is none. `Failed`, with the counts before and after,
/// where the call failed; it answers nothing else.
pub fn append_on<D: Drive>(
    drive: &mut D,
    kind: FileKind,
    loose: &str,
    bytes: &[u8],
) -> Result<(), Why>
    ensures ok { OnOk result (IsTrue (D.tells drive.old) → Appended loose.now bytes.now (D.files drive.old) (D.files drive.new)) }
    ensures err { OnErr result (IsTrue (D.tells drive.old) → Touches loose.now (D.files drive.old) (D.files drive.new)) }
    ensures cause { StepCause kind (Unit {0}) result (D.count drive.old) (D.count drive.new) }
    ensures called { (answer : Result (Unit {0}) DriveFault) × AnswerOf result answer
        × DriveModel (Append loose.now bytes.now answer) (view D.Drive drive.old) (view D.Drive drive.new) }
    ensures tells { D.tells drive.new ≡ D.tells drive.old }
    ensures count { D.count drive.old ≤ D.count drive.new }
{
    let before = drive.faults();
    told!(drive, kind, before, drive.append(loose, bytes))
}

/// Makes a loose file last. `Failed`, with the counts before and after, where the call failed; `Lacks(kind)` where the
/// loose file isn't there.
pub fn sync_on<D: Drive>(drive: &mut D, kind: FileKind, loose: &str) -> Result<(), Why>
    ensures ok { OnOk result (IsTrue (D.tells drive.old) → Synced loose.now (D.files drive.old) (D.files drive.new)) }
    ensures err { OnErr result (IsTrue (D.tells drive.old) → Touches loose.now (D.files drive.old) (D.files drive.new)) }
    ensures lacks { IsTrue (D.tells drive.old) → StaysIfLacking result (D.files drive.old) (D.files drive.new) }
    ensures cause { StepCause kind (IsTrue (D.tells drive.old) × HasLoose (D.files drive.old) loose.now) result (D.count drive.old) (D.count drive.new) }
    ensures called { (answer : Result (Unit {0}) DriveFault) × AnswerOf result answer
        × DriveModel (Sync loose.now answer) (view D.Drive drive.old) (view D.Drive drive.new) }
    ensures tells { D.tells drive.new ≡ D.tells drive.old }
    ensures count { D.count drive.old ≤ D.count drive.new }
{
    let before = drive.faults();
    told!(drive, kind, before, drive.sync(loose))
}

/// Puts a loose file in place under a name of at most `LONGEST_NAME` bytes. `Failed`, with the counts before and after,
/// where the call failed; `Lacks(kind)` where the loose file isn't there.
pub fn place<D: Drive>(drive: &mut D, kind: FileKind, loose: &str, name: &str) -> Result<(), Why>
    requires { length name.now ≤ LONGEST_NAME }
    ensures ok { OnOk result (IsTrue (D.tells drive.old) → Placed (D.files drive.old) loose.now name.now (D.files drive.new)) }
    ensures err { OnErr result (IsTrue (D.tells drive.old) → PlacedOrTouched loose.now name.now (D.files drive.old) (D.files drive.new)) }
    ensures lacks { IsTrue (D.tells drive.old) → StaysIfLacking result (D.files drive.old) (D.files drive.new) }
    ensures cause { StepCause kind (IsTrue (D.tells drive.old) × HasLoose (D.files drive.old) loose.now) result (D.count drive.old) (D.count drive.new) }
    ensures called { (answer : Result (Unit {0}) DriveFault) × AnswerOf result answer
        × DriveModel (Rename loose.now name.now answer) (view D.Drive drive.old) (view D.Drive drive.new) }
    ensures tells { D.tells drive.new ≡ D.tells drive.old }
    ensures count { D.count drive.old ≤ D.count drive.new }
{
    let before = drive.faults();
    told!(drive, kind, before, drive.rename(loose, name))
}

/// Takes a loose file away. `Failed`, with the counts before and after, where the call failed; `Lacks(kind)` where the
/// loose file isn't there, which is no fault of the drive.
pub fn discard_on<D: Drive>(drive: &mut D, kind: FileKind, loose: &str) -> Result<(), Why>
    ensures ok { OnOk result (IsTrue (D.tells drive.old) → Discarded loose.now (D.files drive.old) (D.files drive.new)) }
    ensures err { OnErr result (IsTrue (D.tells drive.old) → Touches loose.now (D.files drive.old) (D.files drive.new)) }
    ensures lacks { IsTrue (D.tells drive.old) → StaysIfLacking result (D.files drive.old) (D.files drive.new) }
    ensures cause { StepCause kind (IsTrue (D.tells drive.old) × HasLoose (D.files drive.old) loose.now) result (D.count drive.old) (D.count drive.new) }
    ensures called { (answer : Result (Unit {0}) DriveFault) × AnswerOf result answer
        × DriveModel (Discard loose.now answer) (view D.Drive drive.old) (view D.Drive drive.new) }
    ensures tells { D.tells drive.new ≡ D.tells drive.old }
    ensures count { D.count drive.old ≤ D.count drive.new }
{
    let before = drive.faults();
    told!(drive, kind, before, drive.discard(loose))
}

/// Takes the file of a name away. `Failed`, with the counts before and after, where the call failed, and the file is there
/// or gone; `Lacks(kind)` where none is shown.
pub fn remove_on<D: Drive>(drive: &mut D, kind: FileKind, name: &str) -> Result<(), Why>
    ensures ok { OnOk result (IsTrue (D.tells drive.old) → Removed name.now (D.files drive.old) (D.files drive.new)) }
    ensures err { OnErr result (IsTrue (D.tells drive.old) → RemovedOrNot name.now (D.files drive.old) (D.files drive.new)) }
    ensures lacks { IsTrue (D.tells drive.old) → StaysIfLacking result (D.files drive.old) (D.files drive.new) }
    ensures cause { StepCause kind (IsTrue (D.tells drive.old) × HasShown (D.files drive.old) name.now) result (D.count drive.old) (D.count drive.new) }
    ensures called { (answer : Result (Unit {0}) DriveFault) × AnswerOf result answer
        × DriveModel (Remove name.now answer) (view D.Drive drive.old) (view D.Drive drive.new) }
    ensures tells { D.tells drive.new ≡ D.tells drive.old }
    ensures count { D.count drive.old ≤ D.count drive.new }
{
    let before = drive.faults();
    told!(drive, kind, before, drive.remove(name))
}
