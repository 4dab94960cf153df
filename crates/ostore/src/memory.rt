//! A rig in memory.

ghost use Rattle.std.specs.Prelude.{◌≡◌, All, IfOk, length};
ghost use Rattle.slot_data.specs.Disks.{Disks};
ghost use Rattle.store_shared.specs.Holders.{nothing_done};
ghost use Rattle.ostore.specs.Fresh.{IsFreshDrive, IsFreshRig, IsFreshSlot};
ghost use Rattle.ostore.specs.Lives.{Holds};
ghost use Rattle.ostore.specs.Rigs.{HasLanes, IsRigOf};

use crate::opening::SLOTS;
use crate::rig::Rig;
use audit_trail::MemAudit;
use drive_base::{Drive, SetPlan};
use drive_memory::MemDrive;
use slot_core::SlotParts;
use std::alloc::{AllocError, Global};
use store_shared::opened_law;

/// A rig of fresh memory drives, whose audits keep their entries. It holds, with nothing done and nothing lost. Want of memory is the only error.
pub fn memory_rig(alloc: Global, set: SetPlan) -> Result<Rig<MemDrive, MemAudit>, AllocError>
    ensures rig { IfOk result (λ rig. IsRigOf set rig) }
    ensures fresh { IfOk result (λ rig. IsFreshRig rig) }
    ensures holds { IfOk result (λ rig. (unseen : Disks) → Holds ⟦<MemDrive as Drive>⟧ 0 0 unseen (nothing_done set) rig) }
{
    opened_law::<MemDrive, MemAudit>();
    fresh_rig(alloc, set)
}

/// The same rig: its slots and its row.
fn fresh_rig(alloc: Global, set: SetPlan) -> Result<Rig<MemDrive, MemAudit>, AllocError>
    ensures rig { IfOk result (λ rig. IsRigOf set rig) }
    ensures fresh { IfOk result (λ rig. IsFreshRig rig) }
{
    let slots = fresh_slots(alloc, set.drives)?;
    let row = fresh_drives(alloc, set.drives)?;
    Rig::with_row(alloc, set, slots, row)
}

/// The lanes and audits of the slots, with so many lanes each.
fn fresh_slots(alloc: Global, drives: u8) -> Result<Vec<SlotParts<MemDrive, MemAudit>>, AllocError>
    ensures count { IfOk result (λ slots. length slots.items ≡ 64) }
    ensures lanes { IfOk result (λ slots. All (HasLanes drives) slots.items) }
    ensures fresh { IfOk result (λ slots. All IsFreshSlot slots.items) }
{
    let mut slots = Vec::with_capacity(alloc, SLOTS)?;
    for _ in 0..SLOTS {
        slots.push(SlotParts {
            lanes: fresh_drives(alloc, drives)?,
            audit: MemAudit::new(alloc),
        })?;
    }
    Ok(slots)
}

/// So many fresh drives.
fn fresh_drives(alloc: Global, count: u8) -> Result<Vec<MemDrive>, AllocError>
    ensures count { IfOk result (λ drives. length drives.items ≡ count) }
    ensures fresh { IfOk result (λ drives. All IsFreshDrive drives.items) }
{
    let mut drives = Vec::with_capacity(alloc, count as usize)?;
    for _ in 0..count {
        drives.push(MemDrive::new(alloc))?;
    }
    Ok(drives)
}
