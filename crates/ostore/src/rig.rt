//! What a run begins with, and what it leaves.

ghost use Rattle.std.specs.Prelude.{◌≡◌, [], ◌∷◌, All, IfOk, Some, None, length};
ghost use Rattle.ostore.specs.Rigs.{HasLanes, IsRigOf};

use drive_base::SetPlan;
use slot_core::SlotParts;
use std::alloc::{AllocError, Global};
use term_gate::OpenRefusal;

/// What a run begins with: the set, the lanes and audits of its slots, and rows of its data drives.
#[derive(Drop)]
pub struct Rig<D, A> {
    /// The set.
    pub set: SetPlan,
    /// For each slot, in the order of the slots, its lanes and its audit.
    pub slots: Vec<SlotParts<D, A>>,
    /// The data drives, in the order of their indices: a row for each way to them.
    pub data: Vec<Vec<D>>,
}

impl<D: Drop, A: Drop> Rig<D, A> {
    /// The rig of a set over the lanes and audits of its slots, and one row of data drives. Want of memory is the only error.
    pub fn with_row(
        alloc: Global,
        set: SetPlan,
        slots: Vec<SlotParts<D, A>>,
        row: Vec<D>,
    ) -> Result<Rig<D, A>, AllocError>
        requires count { length slots.items ≡ 64 }
        requires lanes { All (HasLanes set.drives) slots.items }
        requires disks { length row.items ≡ set.drives }
        ensures rig { IfOk result (λ rig. IsRigOf set rig) }
        ensures slots { IfOk result (λ rig. rig.slots.items ≡ slots.items) }
        ensures row { IfOk result (λ rig. rig.data.items ≡ row ∷ []) }
    {
        let mut data = Vec::with_capacity(alloc, 1)?;
        data.push(row)?;
        Ok(Rig { set, slots, data })
    }
}

/// How a run ended, and the rig as it left it.
#[derive(Drop)]
pub struct Ended<D, A, O> {
    /// The exit status.
    pub status: u8,
    /// The rig.
    pub rig: Option<Rig<D, A>>,
    /// Why the store was not opened, with status 3.
    pub opening: Option<OpenRefusal>,
    /// The number of the line that is none of a script, with status 7.
    pub line: Option<u64>,
    /// How many connections ended for want of memory.
    pub starved: u64,
    /// The door.
    pub door: O,
}

impl<D, A> Ended<D, A, ()> {
    /// A run without a door that ended with this status.
    pub fn with(status: u8, rig: Rig<D, A>) -> Ended<D, A, ()>
        ensures status { result.status ≡ status }
        ensures rig { result.rig ≡ Some rig }
        ensures opening { result.opening ≡ None }
        ensures line { result.line ≡ None }
        ensures starved { result.starved ≡ 0 }
    {
        Ended {
            status,
            rig: Some(rig),
            opening: None,
            line: None,
            starved: 0,
            door: (),
        }
    }
}
