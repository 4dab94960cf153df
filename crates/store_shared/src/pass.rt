//! What a store is opened over, the way of one caller to it, and what that is made of.

ghost use Rattle.std.specs.Prelude.{◌<◌, ◌≡◌, length, slice_index_or, ℕ};
ghost use Rattle.slot_core.specs.Views.{numbers_of};
ghost use Rattle.slot_core.specs.declared.slot.Slot.{Slot};

use drive_base::SetPlan;
use slot_core::{Slot, SlotParts};
use term_gate::OpenRefusal;

/// What a store is opened over: the data drives in the order of their indices, and for each slot in the order of the slots its lanes and its audit.
#[derive(Drop)]
pub struct StoreParts<D, A> {
    /// The data drives.
    pub disks: Vec<D>,
    /// The lanes and audits of the slots.
    pub slots: Vec<SlotParts<D, A>>,
}

/// A store that was not opened, with all that was handed in.
#[derive(Drop)]
pub struct NotOpened<D, A> {
    /// The data drives, and the lanes and audits of the slots that were not opened, which are the first ones.
    pub parts: StoreParts<D, A>,
    /// The slots that were opened before one was refused, the last one first.
    pub slots: Vec<Slot<D, A>>,
    /// Why.
    pub why: OpenRefusal,
}

/// The slots and the data drives of a store, which one caller has for itself: 64 slots of one set in the order of their indices, and a data drive for each
/// drive of the set.
#[derive(Drop)]
pub struct PlainPass<D, A> {
    /// The set, with the drives that are out in this life.
    pub(crate) set: SetPlan,
    /// The slots.
    pub(crate) slots: Vec<Slot<D, A>>,
    /// The data drives.
    pub(crate) disks: Vec<D>,
    pub ghost count: { length slots.items ≡ 64 },
    pub ghost index: { (k : ℕ) (d : Slot D A) → k < length slots.items → (numbers_of (slice_index_or slots.items k d)).index ≡ k },
    pub ghost of_set: { (k : ℕ) (d : Slot D A) → k < length slots.items → (numbers_of (slice_index_or slots.items k d)).set ≡ set },
    pub ghost drives: { length disks.items ≡ set.drives },
}

/// What a pass is made of, and gives back.
#[derive(Drop)]
pub struct PassParts<D, A> {
    /// The set.
    pub set: SetPlan,
    /// The slots, in the order of their indices.
    pub slots: Vec<Slot<D, A>>,
    /// The data drives, in the order of their indices.
    pub disks: Vec<D>,
}
