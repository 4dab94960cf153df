//! The beginning of a shared desk.

ghost use Rattle.std.specs.Prelude.{◌++◌, ◌+◌, ◌<◌, ◌≡◌, ◌≤◌, IfErr, IfOk, IsTrue, [], length, slice_index_or, vec_capacity, vec_len, ℕ};
ghost use Rattle.slot_core.specs.Views.{numbers_of};
ghost use Rattle.slot_core.specs.declared.slot.Slot.{Slot};
ghost use Rattle.store_shared.specs.Making.{AreFirst, AreFresh, unlocked};
ghost use Rattle.store_shared.specs.Parting.{AreBack, IsMade};
ghost use Rattle.store_shared.specs.Turned.{made_slots};
ghost use Rattle.store_shared.specs.declared.shared.TurnedSlot.{TurnedSlot};
ghost use Rattle.turn_lock.specs.declared.lock.TurnLock.{TurnLock};

use crate::pass::PassParts;
use crate::shared::{Room, SharedDesk, SharedPass, TurnedSlot};
use crate::shared_pass::pass_over;
use audit_trail::Audit;
use drive_base::Drive;
use slot_core::Slot;
use std::alloc::Global;
use std::sync::Mutex;
use turn_lock::{Pass, TurnLock};

/// How many slots a store has.
const SLOTS: usize = 64;

/// A lock with its one pass.
#[derive(Drop)]
pub(crate) struct Fresh<D: Drive + Drop, A: Audit + Drop> {
    pub(crate) lock: TurnLock<TurnedSlot<D, A>>,
    pub(crate) pass: Pass<TurnedSlot<D, A>>,
}

/// Takes the slots out of new locks again, and puts them behind the others, in the room that is there: the last lock first.
fn unlock_all<D: Drive + Drop, A: Audit + Drop>(
    slots: &mut Vec<Slot<D, A>>,
    fresh: &mut Vec<Fresh<D, A>>,
)
    requires fresh { AreFresh fresh.old.items }
    requires room { vec_len slots.old + vec_len fresh.old ≤ vec_capacity slots.old }
    ensures slots { slots.new.items ≡ slots.old.items ++ unlocked fresh.old.items }
{
    while let Some(Fresh { lock, pass }) = fresh.pop() {
        let Ok(turned) = lock.close(pass) else {
            unreachable!()
        };
        slots.push_reserved(turned.slot);
    }
}

/// Puts slots behind locks, the last one first, for which there is room. For want of memory all slots are as before.
fn lock_all<D: Drive + Drop, A: Audit + Drop>(
    alloc: Global,
    slots: &mut Vec<Slot<D, A>>,
    fresh: &mut Vec<Fresh<D, A>>,
) -> bool
    requires none { fresh.old.items ≡ [] }
    requires room { vec_len slots.old ≤ vec_capacity fresh.old }
    ensures capacity { IsTrue result → vec_capacity slots.new ≡ vec_capacity slots.old }
    ensures done { IsTrue result → (slots.new.items ≡ []) × (unlocked fresh.new.items ≡ slots.old.items) × AreFresh fresh.new.items }
    ensures back { (IsTrue result → ⊥) → slots.new.items ≡ slots.old.items }
{
    while let Some(slot) = slots.pop() {
        match TurnLock::new(alloc, TurnedSlot { slot }) {
            Ok((lock, pass)) => fresh.push_reserved(Fresh { lock, pass }),
            Err(back) => {
                slots.push_reserved(back.slot);
                unlock_all(slots, fresh);
                return false;
            }
        }
    }
    true
}

/// Puts locks and their passes apart, the last one first, for which there is room.
fn deal<D: Drive + Drop, A: Audit + Drop>(
    fresh: &mut Vec<Fresh<D, A>>,
    locks: &mut Vec<TurnLock<TurnedSlot<D, A>>>,
    passes: &mut Vec<Option<Pass<TurnedSlot<D, A>>>>,
)
    requires fresh { AreFresh fresh.old.items }
    requires no_locks { locks.old.items ≡ [] }
    requires no_passes { passes.old.items ≡ [] }
    requires room { vec_len fresh.old ≤ vec_capacity locks.old }
    requires room_too { vec_len fresh.old ≤ vec_capacity passes.old }
    ensures slots { made_slots locks.new.items ≡ unlocked fresh.old.items }
    ensures first { AreFirst locks.new.items passes.new.items }
{
    while let Some(Fresh { lock, pass }) = fresh.pop() {
        locks.push_reserved(lock);
        passes.push_reserved(Some(pass));
    }
}

/// Room for the locks of a store, and for their passes.
#[derive(Drop)]
struct Rooms<D: Drive + Drop, A: Audit + Drop> {
    fresh: Vec<Fresh<D, A>>,
    locks: Vec<TurnLock<TurnedSlot<D, A>>>,
    passes: Vec<Option<Pass<TurnedSlot<D, A>>>>,
    ghost no_fresh: { fresh.items ≡ [] },
    ghost no_locks: { locks.items ≡ [] },
    ghost no_passes: { passes.items ≡ [] },
    ghost room: { (64 ≤ vec_capacity fresh) × (64 ≤ vec_capacity locks) × (64 ≤ vec_capacity passes) },
}

/// Makes it.
fn make_rooms<D: Drive + Drop, A: Audit + Drop>(alloc: Global) -> Option<Rooms<D, A>> {
    Some(Rooms {
        fresh: Vec::with_capacity(alloc, SLOTS).ok()?,
        locks: Vec::with_capacity(alloc, SLOTS).ok()?,
        passes: Vec::with_capacity(alloc, SLOTS).ok()?,
    })
}

impl<R, D: Drive + Drop, A: Audit + Drop, G> SharedDesk<R, D, A, G> {
    /// The desk of a store that several callers have at once, with its one pass: each slot is put behind a turn lock. For want of memory, its only refusal,
    /// all is handed back.
    pub fn new(
        rt: R,
        alloc: Global,
        parts: PassParts<D, A>,
        gate: G,
    ) -> Result<(SharedDesk<R, D, A, G>, SharedPass<D, A>), (PassParts<D, A>, R, G)>
        requires count { length parts.slots.items ≡ 64 }
        requires index { (k : ℕ) (d : Slot D A) → k < length parts.slots.items → (numbers_of (slice_index_or parts.slots.items k d)).index ≡ k }
        requires of_set { (k : ℕ) (d : Slot D A) → k < length parts.slots.items → (numbers_of (slice_index_or parts.slots.items k d)).set ≡ parts.set }
        requires drives { length parts.disks.items ≡ parts.set.drives }
        ensures ok { IfOk result (λ r. IsMade parts r.0 r.1) }
        ensures err { IfErr result (λ back. AreBack parts back.0 × (back.1 ≡ rt) × (back.2 ≡ gate)) }
    {
        let PassParts {
            set,
            mut slots,
            disks,
        } = parts;
        let Some(
            Rooms {
                mut fresh,
                mut locks,
                mut passes,
            },
        ) = make_rooms(alloc)
        else {
            return Err((PassParts { set, slots, disks }, rt, gate));
        };
        if !lock_all(alloc, &mut slots, &mut fresh) {
            return Err((PassParts { set, slots, disks }, rt, gate));
        }
        deal(&mut fresh, &mut locks, &mut passes);
        let room = Mutex::new(Room { items: slots });
        let pass = pass_over(&set, passes, disks);
        Ok((
            SharedDesk {
                rt,
                set,
                locks,
                gate,
                room,
            },
            pass,
        ))
    }
}
