//! A rig whose drives can be shared.

ghost use Rattle.std.specs.Prelude.{IfOk};
ghost use Rattle.ostore.specs.Rigs.{IsRigOf};
ghost use Rattle.ostore.specs.Ways.{AreSlotsOver, IsRigOver, ShowSame};

use crate::opening::SLOTS;
use crate::rig::Rig;
use drive_base::Drive;
use drive_file::SharedDrive;
use slot_core::SlotParts;
use std::alloc::{AllocError, Global};
use std::sync::Wait;

/// The same rig, of whose drives each has its only way round it, which can be shared later. Want of memory is the only error.
pub fn with_ways<R: Wait + Copy + Drop, D: Drive + Drop, A: Drop>(
    rt: R,
    alloc: Global,
    rig: Rig<D, A>,
) -> Result<Rig<SharedDrive<R, D>, A>, AllocError>
    requires fits { IsRigOf rig.set rig }
    ensures rig { IfOk result (λ ways. IsRigOf rig.set ways) }
    ensures same { IfOk result (λ ways. IsRigOver D.Drive ⟦<SharedDrive<R, D> as Drive>⟧ rig ways) }
{
    let Rig {
        set,
        slots,
        mut data,
    } = rig;
    let Some(disks) = data.pop() else {
        unreachable!()
    };
    let home = slots_over(rt, alloc, slots)?;
    let row = alone_each(rt, alloc, disks)?;
    Rig::with_row(alloc, set, home, row)
}

/// The same slots, with the only ways to their lanes.
fn slots_over<R: Wait + Copy + Drop, D: Drive + Drop, A: Drop>(
    rt: R,
    alloc: Global,
    slots: Vec<SlotParts<D, A>>,
) -> Result<Vec<SlotParts<SharedDrive<R, D>, A>>, AllocError>
    ensures { IfOk result (λ home. AreSlotsOver D.Drive ⟦<SharedDrive<R, D> as Drive>⟧ slots.items home.items) }
{
    let mut home = Vec::with_capacity(alloc, SLOTS)?;
    for parts in slots {
        home.push(SlotParts {
            lanes: alone_each(rt, alloc, parts.lanes)?,
            audit: parts.audit,
        })?;
    }
    Ok(home)
}

/// The only ways to drives.
fn alone_each<R: Wait + Copy + Drop, D: Drive + Drop>(
    rt: R,
    alloc: Global,
    drives: Vec<D>,
) -> Result<Vec<SharedDrive<R, D>>, AllocError>
    ensures { IfOk result (λ ways. ShowSame D.Drive ⟦<SharedDrive<R, D> as Drive>⟧ drives.items ways.items) }
{
    let mut ways = Vec::with_capacity(alloc, drives.len())?;
    for drive in drives {
        ways.push(SharedDrive::alone(rt, drive))?;
    }
    Ok(ways)
}
