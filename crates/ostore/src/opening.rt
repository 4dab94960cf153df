//! Opening a store over a rig, and handing the rig back.

ghost use Rattle.std.specs.Prelude.{◌≡◌, ◌+◌, ◌<◌, ◌≤◌, ℕ, length, slice_index_or, vec_len};
ghost use Rattle.ostore.specs.Opening.{IsAway, IsShut, OpensRig};
ghost use Rattle.ostore.specs.Rigs.{ArePartsOf, IsRigOf, StoreIsClosed};
ghost use Rattle.ostore.specs.declared.rig.Rig.{Rig};
ghost use Rattle.slot_core.specs.declared.slot.SlotParts.{SlotParts};

use crate::rig::Rig;
use audit_trail::Audit;
use drive_base::{Drive, SetPlan};
use slot_core::SlotParts;
use std::alloc::Global;
use store_shared::{NotOpened, PlainPass, StoreParts, open_all};
use term_gate::OpenRefusal;

/// How many slots a store has.
pub const SLOTS: usize = 64;

/// What an open store leaves of its rig: the set, room for what its slots give back, and room for its row of data drives.
#[derive(Drop)]
pub struct Away<D, A> {
    /// The set.
    pub set: SetPlan,
    /// The room for the lanes and audits of the slots.
    pub home: Vec<SlotParts<D, A>>,
    /// The room for the row.
    pub data: Vec<Vec<D>>,
}

/// An open store, and what it leaves of its rig.
#[derive(Drop)]
pub struct Shop<D, A> {
    /// The store.
    pub pass: PlainPass<D, A>,
    /// The rest of the rig.
    pub away: Away<D, A>,
}

/// Why a store is not open over a rig, with the rig.
#[derive(Drop)]
pub struct Shut<D, A> {
    /// Why.
    pub why: OpenRefusal,
    /// The rig.
    pub rig: Rig<D, A>,
}

/// Opens a store over a rig and its one row of data drives, or hands the rig back.
pub fn open<D: Drive, A: Audit>(alloc: Global, rig: Rig<D, A>) -> Result<Shop<D, A>, Shut<D, A>>
    requires fits { IsRigOf rig.set rig }
    ensures { OpensRig D.Drive A.entries A.count rig result }
{
    let Ok(home) = Vec::with_capacity(alloc, SLOTS) else {
        return Err(Shut {
            why: OpenRefusal::NoMemory,
            rig,
        });
    };
    let Rig {
        set,
        slots,
        mut data,
    } = rig;
    let Some(disks) = data.pop() else {
        unreachable!()
    };
    open_over(alloc, Away { set, home, data }, StoreParts { disks, slots })
}

/// Opens a store over the parts of a rig.
fn open_over<D: Drive, A: Audit>(
    alloc: Global,
    away: Away<D, A>,
    parts: StoreParts<D, A>,
) -> Result<Shop<D, A>, Shut<D, A>>
    requires away { IsAway away }
    requires drives { length parts.disks.items ≡ away.set.drives }
    requires count { length parts.slots.items ≡ 64 }
    requires lanes { (k : ℕ) (d : SlotParts D A) → k < length parts.slots.items → length (slice_index_or parts.slots.items k d).lanes.items ≡ away.set.drives }
    ensures { (rig : Rig D A) → rig.set ≡ away.set → ArePartsOf rig parts → OpensRig D.Drive A.entries A.count rig result }
{
    let set = away.set;
    match open_all(alloc, set, parts) {
        Ok(pass) => Ok(Shop { pass, away }),
        Err(back) => Err(handed_back(away, back)),
    }
}

/// Hands a rig back over which no store was opened.
fn handed_back<D: Drive, A: Audit>(away: Away<D, A>, back: NotOpened<D, A>) -> Shut<D, A>
    requires away { IsAway away }
    requires few { vec_len back.parts.slots + vec_len back.slots ≤ 64 }
    ensures { IsShut away.set back result }
{
    let Away {
        set,
        home,
        mut data,
    } = away;
    let (StoreParts { disks, slots }, why) = back.into_parts(home);
    data.push_reserved(disks);
    Shut {
        why,
        rig: Rig { set, slots, data },
    }
}

/// Closes a store, and hands its rig back.
pub fn close<D: Drive, A: Audit>(pass: PlainPass<D, A>, away: Away<D, A>) -> Rig<D, A>
    requires away { IsAway away }
    ensures { StoreIsClosed away.set pass result }
{
    let Away {
        set,
        home,
        mut data,
    } = away;
    let StoreParts { disks, slots } = pass.shut(home);
    data.push_reserved(disks);
    Rig { set, slots, data }
}
