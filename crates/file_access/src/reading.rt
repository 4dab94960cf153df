//! Reading a file of a drive, or a piece of one.

ghost use Rattle.std.specs.Prelude.{◌≡◌, ◌≤◌, ℕ, IsTrue, IfOk, IfErr, OnOk, Result, length};
ghost use Rattle.drive_base.specs.declared.fault.DriveFault.{DriveFault};
ghost use Rattle.drive_base.specs.DriveModel.{DriveModel};
ghost use Rattle.drive_base.specs.Trail.{Read, Size};
ghost use Rattle.drive_base.specs.View.{OnlyRead, view};
ghost use Rattle.file_access.specs.Reading.{HasLength, IsPieceAt, IsCutShort, IsRefusedBy, IsShort, IsTooLong, IsWhole, IsWhyNot, NeverDamaged, NoDamage, EndsBefore, FailedOnce, FetchFailedOnce, IdleWithout};
ghost use Rattle.file_access.specs.Trails.{AnswerOf, FillAnswerOf, PieceCalls};

use crate::fault::{FetchFault, told};
use call_types::{FileKind, Why};
use drive_base::{Drive, DriveFault};
use seal_file::Damage;
use std::alloc::Global;

/// The length of a file, in bytes, by one call. `Lacks(kind)` where no such file is shown; `Failed`, with the counts
/// before and after, where the call failed.
#[tactic(auto, using(crate::proofs::ReadLemmas::read_by))]
pub fn size_on<D: Drive>(drive: &mut D, kind: FileKind, name: &str) -> Result<u64, Why>
    ensures size { IfOk result (λ n. IsTrue (D.tells drive.old) → HasLength (D.files drive.old) name.now n) }
    ensures calm { OnOk result (D.count drive.new ≡ D.count drive.old) }
    ensures cause { IfErr result (λ why. IsWhyNot kind name.now NeverDamaged why (D.tells drive.old) (D.files drive.old) (D.count drive.old) (D.count drive.new)) }
    ensures once { IfErr result (λ why. FailedOnce NoDamage why (D.count drive.old) (D.count drive.new)) }
    ensures called { (answer : Result ℕ DriveFault) × AnswerOf result answer
        × DriveModel (Size name.now answer) (view D.Drive drive.old) (view D.Drive drive.new) }
    ensures read { OnlyRead (view D.Drive drive.old) (view D.Drive drive.new) }
    ensures files { IsTrue (D.tells drive.old) → D.files drive.new ≡ D.files drive.old }
    ensures tells { D.tells drive.new ≡ D.tells drive.old }
    ensures count { D.count drive.old ≤ D.count drive.new }
{
    let before = drive.faults();
    told!(drive, kind, before, drive.size(name))
}

/// Fills a buffer with the bytes of a file from the place `at` on, by one call, without asking how long the file is.
/// `Damaged(Short)` where the file ends before the buffer is full, with the place where the reading ended; else the causes
/// of `size_on`. After an error the buffer has any bytes.
#[tactic(auto, using(crate::proofs::ReadLemmas::read_by))]
pub fn piece_into<D: Drive>(
    drive: &mut D,
    kind: FileKind,
    name: &str,
    at: u64,
    into: &mut [u8],
) -> Result<(), Why>
    ensures piece { OnOk result (IsTrue (D.tells drive.old) → IsPieceAt (D.files drive.old) name.now at into.new) }
    ensures calm { OnOk result (D.count drive.new ≡ D.count drive.old) }
    ensures cause { IfErr result (λ why. IsWhyNot kind name.now (IsCutShort at (length into.old)) why (D.tells drive.old) (D.files drive.old) (D.count drive.old) (D.count drive.new)) }
    ensures once { IfErr result (λ why. FailedOnce IsShort why (D.count drive.old) (D.count drive.new)) }
    ensures called { (answer : Result ℕ DriveFault) × FillAnswerOf at (length into.old) result answer
        × DriveModel (Read name.now at into.old answer into.new) (view D.Drive drive.old) (view D.Drive drive.new) }
    ensures read { OnlyRead (view D.Drive drive.old) (view D.Drive drive.new) }
    ensures files { IsTrue (D.tells drive.old) → D.files drive.new ≡ D.files drive.old }
    ensures tells { D.tells drive.new ≡ D.tells drive.old }
    ensures count { D.count drive.old ≤ D.count drive.new }
{
    let before = drive.faults();
    match drive.read(name, at, into) {
        Ok(count) => {
            if count == into.len() {
                return Ok(());
            }
            let end = at.saturating_add(count as u64);
            Err(Why::Damaged(Damage::Short(end)))
        }
        Err(DriveFault::Absent) => Err(Why::Lacks(kind)),
        Err(_) => {
            let after = drive.faults();
            Err(Why::Failed { before, after })
        }
    }
}

/// `long` bytes of a file from the place `at` on, as `piece_into` reads them. Where there is no memory for them the drive
/// isn't called.
pub fn piece_on<D: Drive>(
    alloc: Global,
    drive: &mut D,
    kind: FileKind,
    name: &str,
    at: u64,
    long: u64,
) -> Result<Vec<u8>, FetchFault>
    ensures long { IfOk result (λ bytes. length bytes.items ≡ long) }
    ensures piece { IfOk result (λ bytes. IsTrue (D.tells drive.old) → IsPieceAt (D.files drive.old) name.now at bytes.items) }
    ensures calm { OnOk result (D.count drive.new ≡ D.count drive.old) }
    ensures cause { IfErr result (λ fault. IsRefusedBy kind name.now (IsCutShort at long) fault (D.tells drive.old) (D.files drive.old) (D.count drive.old) (D.count drive.new)) }
    ensures once { IfErr result (λ fault. FetchFailedOnce IsShort fault (D.count drive.old) (D.count drive.new)) }
    ensures idle { IdleWithout result drive.old drive.new }
    ensures called { PieceCalls result name.now at long (view D.Drive drive.old) (view D.Drive drive.new) }
    ensures read { OnlyRead (view D.Drive drive.old) (view D.Drive drive.new) }
    ensures files { IsTrue (D.tells drive.old) → D.files drive.new ≡ D.files drive.old }
    ensures tells { D.tells drive.new ≡ D.tells drive.old }
    ensures count { D.count drive.old ≤ D.count drive.new }
{
    let Ok(mut bytes) = vec![in alloc; 0; long as usize] else {
        return Err(FetchFault::NoMemory);
    };
    match piece_into(drive, kind, name, at, bytes.as_mut_slice()) {
        Ok(()) => Ok(bytes),
        Err(why) => Err(FetchFault::Because(why)),
    }
}

/// All bytes of a file, which has at most `most` bytes where it is lawful. `Damaged(Long)`, with the file's length, where
/// it has more, and then no memory is taken; else the causes of `size_on`.
#[tactic(auto, using(crate::proofs::ReadLemmas::read_twice))]
pub fn file_on<D: Drive>(
    alloc: Global,
    drive: &mut D,
    kind: FileKind,
    name: &str,
    most: u64,
) -> Result<Vec<u8>, FetchFault>
    ensures file { IfOk result (λ bytes. IsTrue (D.tells drive.old) → IsWhole (D.files drive.old) name.now bytes.items) }
    ensures most { IfOk result (λ bytes. length bytes.items ≤ most) }
    ensures calm { OnOk result (D.count drive.new ≡ D.count drive.old) }
    ensures cause { IfErr result (λ fault. IsRefusedBy kind name.now (IsTooLong most) fault (D.tells drive.old) (D.files drive.old) (D.count drive.old) (D.count drive.new)) }
    ensures read { OnlyRead (view D.Drive drive.old) (view D.Drive drive.new) }
    ensures files { IsTrue (D.tells drive.old) → D.files drive.new ≡ D.files drive.old }
    ensures tells { D.tells drive.new ≡ D.tells drive.old }
    ensures count { D.count drive.old ≤ D.count drive.new }
{
    let size = size_on(drive, kind, name)?;
    if size > most {
        return Err(FetchFault::Because(Why::Damaged(Damage::Long(size))));
    }
    piece_on(alloc, drive, kind, name, 0, size)
}

/// `long` bytes of a file from the place `at` on. `Damaged(Short)` with the file's length where it ends before; else the
/// causes of `size_on`.
#[tactic(auto, using(crate::proofs::ReadLemmas::read_twice))]
pub fn bytes_at<D: Drive>(
    alloc: Global,
    drive: &mut D,
    kind: FileKind,
    name: &str,
    at: u64,
    long: u64,
) -> Result<Vec<u8>, FetchFault>
    ensures long { IfOk result (λ bytes. length bytes.items ≡ long) }
    ensures piece { IfOk result (λ bytes. IsTrue (D.tells drive.old) → IsPieceAt (D.files drive.old) name.now at bytes.items) }
    ensures calm { OnOk result (D.count drive.new ≡ D.count drive.old) }
    ensures cause { IfErr result (λ fault. IsRefusedBy kind name.now (EndsBefore at long) fault (D.tells drive.old) (D.files drive.old) (D.count drive.old) (D.count drive.new)) }
    ensures read { OnlyRead (view D.Drive drive.old) (view D.Drive drive.new) }
    ensures files { IsTrue (D.tells drive.old) → D.files drive.new ≡ D.files drive.old }
    ensures tells { D.tells drive.new ≡ D.tells drive.old }
    ensures count { D.count drive.old ≤ D.count drive.new }
{
    let size = size_on(drive, kind, name)?;
    if size < at || size - at < long {
        return Err(FetchFault::Because(Why::Damaged(Damage::Short(size))));
    }
    piece_on(alloc, drive, kind, name, at, long)
}
