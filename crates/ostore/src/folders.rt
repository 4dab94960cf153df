//! A rig over folders.

ghost use Rattle.std.specs.Prelude.{◌≡◌, All, IfOk, length};
ghost use Rattle.ostore.specs.Locked.{FailsUnlocked, LanesFailUnlocked, RigFailsUnlocked};
ghost use Rattle.ostore.specs.Rigs.{HasLanes, IsRigOf};

use crate::opening::SLOTS;
use crate::rig::Rig;
use audit_trail::NullAudit;
use drive_base::SetPlan;
use drive_file::{FileDrive, RootLock, SystemFolder};
use itoa::Buffer;
use slot_core::SlotParts;
use std::alloc::AllocError;
use std::fs::{self, File, OpenFile};
use std::rt::Files;

/// The name of the folder of a drive's data.
pub(crate) const DATA: &str = "data";

/// The lock of a root, if it is to be had.
pub fn root_lock<R: Files<File = File>>(rt: &R, root: &str) -> Option<RootLock> {
    RootLock::take(rt, root).ok()
}

/// A rig over the folders `ROOT/INDEX/SLOT` and `ROOT/INDEX/data`, with audits that keep nothing. Where a folder can't be opened, or the root isn't locked, a
/// drive stands for it whose every call fails.
pub fn file_rig<R: Files + AllocGlobal + Clone + Drop>(
    rt: &R,
    set: SetPlan,
    root: &str,
    is_locked: bool,
) -> Result<Rig<FileDrive<SystemFolder<R>>, NullAudit>, AllocError>
    ensures rig { IfOk result (λ rig. IsRigOf set rig) }
    ensures locked { IfOk result (λ rig. RigFailsUnlocked is_locked rig) }
{
    if is_locked {
        make_parents(rt, set.drives, root)?;
    }
    let slots = file_slots(rt, set.drives, root, is_locked)?;
    let disks = row(rt, set.drives, root, DATA, is_locked)?;
    Rig::with_row(rt.alloc(), set, slots, disks)
}

/// The lanes and audits of the slots, with so many lanes each.
fn file_slots<R: Files + AllocGlobal + Clone + Drop>(
    rt: &R,
    drives: u8,
    root: &str,
    is_locked: bool,
) -> Result<Vec<SlotParts<FileDrive<SystemFolder<R>>, NullAudit>>, AllocError>
    ensures count { IfOk result (λ slots. length slots.items ≡ 64) }
    ensures lanes { IfOk result (λ slots. All (HasLanes drives) slots.items) }
    ensures locked { IfOk result (λ slots. All (LanesFailUnlocked is_locked) slots.items) }
{
    let mut slots = Vec::with_capacity(rt.alloc(), SLOTS)?;
    for slot in 0..SLOTS {
        let parts = slot_parts(rt, drives, root, slot, is_locked)?;
        slots.push(parts)?;
    }
    Ok(slots)
}

/// The lanes and the audit of a slot.
pub(crate) fn slot_parts<R: Files + AllocGlobal + Clone + Drop>(
    rt: &R,
    drives: u8,
    root: &str,
    slot: usize,
    is_locked: bool,
) -> Result<SlotParts<FileDrive<SystemFolder<R>>, NullAudit>, AllocError>
    ensures lanes { IfOk result (λ parts. HasLanes drives parts) }
    ensures locked { IfOk result (λ parts. LanesFailUnlocked is_locked parts) }
{
    let mut digits = Buffer::new();
    let lanes = row(rt, drives, root, digits.format(slot), is_locked)?;
    Ok(SlotParts {
        lanes,
        audit: NullAudit::new(),
    })
}

/// Makes the folder of each drive where it isn't there. One that can't be made shows when the folders in it are opened.
pub(crate) fn make_parents<R: Files + AllocGlobal>(
    rt: &R,
    drives: u8,
    root: &str,
) -> Result<(), AllocError> {
    for index in 0..usize::from(drives) {
        let path = drive_folder(rt, root, index)?;
        let _ = fs::create_dir(rt, path.as_str());
    }
    if let Ok(folder) = fs::open(rt, root) {
        let _ = folder.sync_all();
    }
    Ok(())
}

/// The path of a drive's folder.
fn drive_folder<R: AllocGlobal>(rt: &R, root: &str, index: usize) -> Result<String, AllocError> {
    let mut digits = Buffer::new();
    let mut path = String::from_str(rt.alloc(), root)?;
    path.push('/')?;
    path.push_str(digits.format(index))?;
    Ok(path)
}

/// The drives over the folders of this name, one of each drive.
fn row<R: Files + AllocGlobal + Clone + Drop>(
    rt: &R,
    drives: u8,
    root: &str,
    name: &str,
    is_locked: bool,
) -> Result<Vec<FileDrive<SystemFolder<R>>>, AllocError>
    ensures count { IfOk result (λ row. length row.items ≡ drives) }
    ensures locked { IfOk result (λ row. All (FailsUnlocked is_locked) row.items) }
{
    let mut row = Vec::with_capacity(rt.alloc(), usize::from(drives))?;
    for index in 0..usize::from(drives) {
        let drive = drive_of_row(rt, root, index, name, is_locked)?;
        row.push(drive)?;
    }
    Ok(row)
}

/// The drive over the folder of this name, of the drive of this index.
pub(crate) fn drive_of_row<R: Files + AllocGlobal + Clone + Drop>(
    rt: &R,
    root: &str,
    index: usize,
    name: &str,
    is_locked: bool,
) -> Result<FileDrive<SystemFolder<R>>, AllocError>
    ensures { IfOk result (λ drive. FailsUnlocked is_locked drive) }
{
    let mut path = drive_folder(rt, root, index)?;
    path.push('/')?;
    path.push_str(name)?;
    drive(rt, path.as_str(), is_locked)
}

/// The drive over a folder, or one whose every call fails.
fn drive<R: Files + AllocGlobal + Clone + Drop>(
    rt: &R,
    path: &str,
    is_locked: bool,
) -> Result<FileDrive<SystemFolder<R>>, AllocError>
    ensures { IfOk result (λ drive. FailsUnlocked is_locked drive) }
{
    if is_locked {
        if let Ok(drive) = FileDrive::open(SystemFolder::new(rt.clone()?), rt.alloc(), path) {
            return Ok(drive);
        }
    }
    Ok(FileDrive::closed(SystemFolder::new(rt.clone()?), rt.alloc()))
}
