//! The desk of several callers, the slots behind its locks, and the way of each caller to it.

ghost use Rattle.std.specs.Prelude.{◌<◌, ◌≡◌, ◌≤◌, [], length, slice_index_or, vec_capacity, ℕ};
ghost use Rattle.slot_core.specs.Views.{numbers_of};
ghost use Rattle.slot_core.specs.declared.slot.Slot.{Slot};
ghost use Rattle.store_shared.specs.Turned.{SlotName, made_slots, name_of, turns_in};

use audit_trail::Audit;
use drive_base::{Drive, SetPlan};
use slot_core::Slot;
use std::sync::Mutex;
use turn_lock::{Pass, TurnLock, Turned};

/// A slot behind a turn lock, with one turn more after each section. Its name is its set and its index.
#[derive(Drop)]
pub struct TurnedSlot<D, A> {
    /// The slot.
    pub(crate) slot: Slot<D, A>,
}

impl<D: Drive, A: Audit> Turned for TurnedSlot<D, A> {
    ghost Name = { SlotName };

    ghost name = { λ turned. name_of turned };

    ghost turn = { λ turned. turns_in turned };

    fn turns(&self) -> u64 {
        self.slot.turns()
    }
}

/// Room for 64 things, of which none is there.
#[derive(Drop)]
pub(crate) struct Room<S> {
    pub(crate) items: Vec<S>,
    pub ghost empty: { items.items ≡ [] },
    pub ghost wide: { 64 ≤ vec_capacity items },
}

/// The desk of a store that several callers have at once, each in a thread of its own: 64 slots of one set in the order of their indices, each behind a turn
/// lock, and a gate that is told of each step.
#[derive(Drop)]
pub struct SharedDesk<R, D: Drive, A: Audit, G> {
    pub(crate) rt: R,
    /// The set, with the drives that are out in this life.
    pub(crate) set: SetPlan,
    pub(crate) locks: Vec<TurnLock<TurnedSlot<D, A>>>,
    pub(crate) gate: G,
    /// Room for the slots, which a close gives back. Nobody locks it: so threads may share the desk where slots may only be sent.
    pub(crate) room: Mutex<Room<Slot<D, A>>>,
    pub ghost count: { length locks.items ≡ 64 },
    pub ghost index: { (k : ℕ) (d : Slot D A) → k < 64 → (numbers_of (slice_index_or (made_slots locks.items) k d)).index ≡ k },
    pub ghost of_set: { (k : ℕ) (d : Slot D A) → k < 64 → (numbers_of (slice_index_or (made_slots locks.items) k d)).set ≡ set },
}

/// The way of one caller to a store that others have too: a pass of the lock of each slot, in order, and its own way to each data drive of the set.
///
/// It ends in `join` or `close` of its desk: where one is dropped, its parts of the locks are gone and the desk can't be closed any more.
#[derive(Drop)]
pub struct SharedPass<D, A> {
    /// The set.
    pub(crate) set: SetPlan,
    /// The passes, of which one is away during a section alone.
    pub(crate) passes: Vec<Option<Pass<TurnedSlot<D, A>>>>,
    /// The ways to the data drives.
    pub(crate) disks: Vec<D>,
    pub ghost count: { length passes.items ≡ 64 },
    pub ghost drives: { length disks.items ≡ set.drives },
}
