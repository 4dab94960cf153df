//! A rig over folders that are opened side by side, by threads.

ghost use Rattle.std.specs.Prelude.{◌≡◌, All, IfOk, length, map, Ok};
ghost use Rattle.ostore.specs.Locked.{FailsUnlocked, LanesFailUnlocked, RigFailsUnlocked};
ghost use Rattle.ostore.specs.Rigs.{HasLanes, IsRigOf};

use crate::folders::{DATA, drive_of_row, make_parents, slot_parts};
use crate::opening::SLOTS;
use crate::rig::Rig;
use audit_trail::NullAudit;
use drive_base::SetPlan;
use drive_file::{FileDrive, SystemFolder};
use slot_core::SlotParts;
use std::alloc::{AllocError, Global};
use std::rt::Files;
use std::thread;
use std::thread::Threads;

/// The rig of [`file_rig`](crate::folders::file_rig), whose folders are opened side by side: the lanes of the slots by a thread for each slot, and the data
/// drives by a thread for each. Where the system gives no thread, its part is done by the thread that asked for it.
pub fn file_rig_beside<R: Files + AllocGlobal + Threads + Clone + Drop + Send + Sync>(
    rt: &R,
    set: SetPlan,
    root: &str,
    is_locked: bool,
) -> Result<Rig<FileDrive<SystemFolder<R>>, NullAudit>, AllocError>
where
    R::File: Send,
    R::Dir: Send,
    ensures rig { IfOk result (λ rig. IsRigOf set rig) }
    ensures locked { IfOk result (λ rig. RigFailsUnlocked is_locked rig) }
{
    if is_locked {
        make_parents(rt, set.drives, root)?;
    }
    let drives = set.drives;
    let (slots, disks) = thread::join(
        rt,
        || slots_beside(rt, drives, root, is_locked),
        || disks_beside(rt, drives, root, is_locked),
    );
    Rig::with_row(rt.alloc(), set, slots?, disks?)
}

/// The lanes and audits of the slots, with so many lanes each.
fn slots_beside<R: Files + AllocGlobal + Threads + Clone + Drop + Send + Sync>(
    rt: &R,
    drives: u8,
    root: &str,
    is_locked: bool,
) -> Result<Vec<SlotParts<FileDrive<SystemFolder<R>>, NullAudit>>, AllocError>
where
    R::File: Send,
    R::Dir: Send,
    ensures count { IfOk result (λ slots. length slots.items ≡ 64) }
    ensures lanes { IfOk result (λ slots. All (HasLanes drives) slots.items) }
    ensures locked { IfOk result (λ slots. All (LanesFailUnlocked is_locked) slots.items) }
{
    let opened = thread::map_indices(
        rt,
        rt.alloc(),
        SLOTS,
        &|slot| slot_parts(rt, drives, root, slot, is_locked),
    )?;
    all_of(rt.alloc(), opened)
}

/// The data drives, one of each drive.
fn disks_beside<R: Files + AllocGlobal + Threads + Clone + Drop + Send + Sync>(
    rt: &R,
    drives: u8,
    root: &str,
    is_locked: bool,
) -> Result<Vec<FileDrive<SystemFolder<R>>>, AllocError>
where
    R::File: Send,
    R::Dir: Send,
    ensures count { IfOk result (λ disks. length disks.items ≡ drives) }
    ensures locked { IfOk result (λ disks. All (FailsUnlocked is_locked) disks.items) }
{
    let opened = thread::map_indices(
        rt,
        rt.alloc(),
        usize::from(drives),
        &|index| drive_of_row(rt, root, index, DATA, is_locked),
    )?;
    all_of(rt.alloc(), opened)
}

/// The values, where each of them was had.
fn all_of<T: Drop>(alloc: Global, opened: Vec<Result<T, AllocError>>) -> Result<Vec<T>, AllocError>
    ensures { IfOk result (λ values. opened.items ≡ map Ok values.items) }
{
    let mut values = Vec::with_capacity(alloc, opened.len())?;
    for one in opened {
        values.push(one?)?;
    }
    Ok(values)
}
