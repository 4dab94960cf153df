//! What is done with a store that one caller has for itself: it is made and taken apart, an op does a step, and trouble strikes.

ghost use Rattle.std.specs.Prelude.{◌<◌, ◌≡◌, ◌≢◌, length, slice_index_or, ℕ};
ghost use Rattle.op_steps.specs.Going.{IsFeedAt, StepsSo};
ghost use Rattle.op_steps.specs.Store.{teller_of};
ghost use Rattle.op_steps.specs.declared.next.OpNext.TheVariants.{Done};
ghost use Rattle.slot_core.specs.Views.{numbers_of};
ghost use Rattle.slot_core.specs.declared.slot.Slot.{Slot};
ghost use Rattle.store_shared.specs.Passes.{disks_of, set_of, slots_of, store_at};
ghost use Rattle.store_shared.specs.Striking.{AreStruckAt, DiskIsStruck};

use crate::pass::{PassParts, PlainPass};
use crate::plain_desk::PlainDesk;
use audit_trail::Audit;
use call_types::Feed;
use desk_base::Teller;
use drive_base::{Drive, SetPlan, Trouble};
use op_steps::{Op, step_op};
use slot_core::{Slot, Stub};
use std::alloc::Global;

impl<D, A> PlainPass<D, A> {
    /// The pass over these slots and drives.
    pub fn new(parts: PassParts<D, A>) -> PlainPass<D, A>
        requires count { length parts.slots.items ≡ 64 }
        requires index { (k : ℕ) (d : Slot D A) → k < length parts.slots.items → (numbers_of (slice_index_or parts.slots.items k d)).index ≡ k }
        requires of_set { (k : ℕ) (d : Slot D A) → k < length parts.slots.items → (numbers_of (slice_index_or parts.slots.items k d)).set ≡ parts.set }
        requires drives { length parts.disks.items ≡ parts.set.drives }
        ensures set { set_of result ≡ parts.set }
        ensures slots { slots_of result ≡ parts.slots.items }
        ensures disks { disks_of result ≡ parts.disks.items }
    {
        PlainPass {
            set: parts.set,
            slots: parts.slots,
            disks: parts.disks,
        }
    }

    /// The set, with the drives that are out in this life.
    pub fn set(&self) -> SetPlan
        ensures { result ≡ set_of self.now }
    {
        self.set
    }

    /// Gives the slots and drives back.
    pub fn into_parts(self) -> PassParts<D, A>
        ensures set { result.set ≡ set_of self }
        ensures slots { result.slots.items ≡ slots_of self }
        ensures disks { result.disks.items ≡ disks_of self }
    {
        PassParts {
            set: self.set,
            slots: self.slots,
            disks: self.disks,
        }
    }
}

impl<D: Drive, A: Audit> PlainPass<D, A> {
    /// Does the step of an op that comes next, and puts the stub of a section behind the others.
    pub fn step<O: Op, F: Feed, T: Teller>(
        &mut self,
        alloc: Global,
        op: &mut O,
        feed: &mut F,
        teller: &mut T,
        stubs: &mut Vec<Stub>,
    )
        requires next { O.step op.old ≢ Done }
        requires set { O.set op.old ≡ set_of self.old }
        requires feed { IsFeedAt (O.stated (O.asked op.old)) (O.taken op.old) (F.seen feed.old) }
        ensures same { set_of self.new ≡ set_of self.old }
        ensures set { O.set op.new ≡ O.set op.old }
        ensures asked { O.asked op.new ≡ O.asked op.old }
        ensures left { O.left op.new < O.left op.old }
        ensures feed { IsFeedAt (O.stated (O.asked op.old)) (O.taken op.new) (F.seen feed.new) }
        ensures steps { StepsSo D.Drive T.takes T.breaks (O.step op.old) (O.stands op.old) (O.stands op.new) (O.set op.old)
            (store_at D.Drive A.entries A.count self.old (record { view = F.seen feed.old; faults = F.faults feed.old })
            (teller_of teller.old (T.faults teller.old)))
            (store_at D.Drive A.entries A.count self.new (record { view = F.seen feed.new; faults = F.faults feed.new })
            (teller_of teller.new (T.faults teller.new))) stubs.old.items stubs.new.items }
    {
        let desk: PlainDesk<D, A> = PlainDesk::new();
        let disks = self.disks.as_mut_slice();
        step_op(
            &desk,
            alloc,
            op,
            &mut self.slots,
            disks,
            feed,
            teller,
            stubs,
        );
    }
}

impl<D: Drive, A: Audit> PlainPass<D, A> {
    /// Has trouble befall the lane of this index in each slot, in the order of the slots, and then the data drive of this index. It answers whether it befell
    /// the data drive. It is no call: all but what these lanes and this drive show stays.
    pub fn strike<T: Trouble<D>>(&mut self, index: u8, trouble: &mut T) -> bool
        requires { index < (set_of self.old).drives }
        ensures set { set_of self.new ≡ set_of self.old }
        ensures slots { AreStruckAt D.Drive T.befalls index trouble.old (slots_of self.old) (slots_of self.new) }
        ensures disks { DiskIsStruck D.Drive T.befalls index result (disks_of self.old) (disks_of self.new) }
    {
        strike_slots(&mut self.slots, index, trouble);
        strike_disk(&mut self.disks, index, trouble)
    }
}

/// Has trouble befall the lane of this index in each slot.
fn strike_slots<D: Drive, A: Audit, T: Trouble<D>>(
    slots: &mut Vec<Slot<D, A>>,
    index: u8,
    trouble: &mut T,
)
    requires { (k : ℕ) (d : Slot D A) → k < length slots.old.items → index < (numbers_of (slice_index_or slots.old.items k d)).set.drives }
    ensures { AreStruckAt D.Drive T.befalls index trouble.old slots.old.items slots.new.items }
{
    strike_each(slots.as_mut_slice(), index, trouble);
}

/// Has trouble befall the lane of this index in each of these slots.
fn strike_each<D: Drive, A: Audit, T: Trouble<D>>(
    slots: &mut [Slot<D, A>],
    index: u8,
    trouble: &mut T,
)
    requires { (k : ℕ) (d : Slot D A) → k < length slots.old → index < (numbers_of (slice_index_or slots.old k d)).set.drives }
    ensures { AreStruckAt D.Drive T.befalls index trouble.old slots.old slots.new }
{
    for slot in slots.iter_mut() {
        slot.trouble(index, trouble);
    }
}

/// Has trouble befall the data drive of this index.
fn strike_disk<D: Drive, T: Trouble<D>>(disks: &mut Vec<D>, index: u8, trouble: &mut T) -> bool
    requires { index < length disks.old.items }
    ensures { DiskIsStruck D.Drive T.befalls index result disks.old.items disks.new.items }
{
    trouble.strike(&mut disks[index as usize])
}
