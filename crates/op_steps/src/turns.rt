//! Who gives an op its sections.

ghost use Rattle.std.specs.Prelude.{◌≡◌, ◌<◌, ℕ, length, Option};
ghost use Rattle.drive_base.specs.View.{views};
ghost use Rattle.drive_base.specs.declared.plan.SetPlan.{SetPlan};
ghost use Rattle.receipts.specs.Events.{Note, Shown};
ghost use Rattle.receipts.specs.declared.barred.Barred.{Barred};
ghost use Rattle.op_steps.specs.Going.{OneStep, RanSoOver};
ghost use Rattle.op_steps.specs.Steps.{RanOver};
ghost use Rattle.op_steps.specs.Store.{FeedSeen, StoreOver, TellerSeen, store_of};

use crate::next::OpNext;
use crate::op::Op;
use desk_base::Teller;
use drive_base::Drive;
use slot_core::Stub;
use std::alloc::Global;

/// Who gives an op its sections: the desk of a store, of whatever its callers reach the slots by.
pub trait Turns<D: Drive> {
    /// What a caller reaches the slots by.
    type Slots;

    /// What is seen of it.
    ghost Seen: { Type 0 };

    /// That of it.
    ghost seen: { Self.Slots → Seen };

    /// What no section changes of it.
    ghost Holds: { Type 0 };

    /// That of it.
    ghost holds: { Self.Slots → Holds };

    /// Whether by it all slots of a store over this set are reached.
    ghost fits: { Self → SetPlan → Self.Slots → Type 0 };

    /// What a section of the slot of an index does, whatever the teller.
    ghost gives: { SetPlan → (T : Type 0) → ℕ → Option Note → Shown → StoreOver Seen T → StoreOver Seen T → Type 0 };

    /// What one does that could not be done.
    ghost bars: { (T : Type 0) → ℕ → Barred → StoreOver Seen T → StoreOver Seen T → Type 0 };

    /// Does a section of the slot of this index, and puts its stub behind the others. A section that can't be done is told to the op with its reason, before it
    /// begins.
    fn turn<O: Op, T: Teller>(
        &self,
        alloc: Global,
        op: &mut O,
        slots: &mut Self::Slots,
        disks: &mut [D],
        index: u8,
        stubs: &mut Vec<Stub>,
    )
        requires next { O.step op.old ≡ OpNext.Section index }
        requires index { index < 64 }
        requires fits { fits self.now (O.set op.old) slots.old }
        requires disks { length disks.old ≡ (O.set op.old).drives }
        ensures set { O.set op.new ≡ O.set op.old }
        ensures asked { O.asked op.new ≡ O.asked op.old }
        ensures left { O.left op.new < O.left op.old }
        ensures taken { O.taken op.new ≡ O.taken op.old }
        ensures fits { fits self.now (O.set op.old) slots.new }
        ensures holds { holds slots.new ≡ holds slots.old }
        ensures disks { length disks.new ≡ length disks.old }
        ensures steps { (feed : FeedSeen) (teller : TellerSeen T)
            → RanSoOver (OneStep (O.step op.old) (RanOver (gives (O.set op.old) T) (bars T) T.takes T.breaks (O.set op.old))) (O.stands op.old) (O.stands op.new)
            (λ claim. store_of (seen slots.old) (views D.Drive disks.old) claim feed teller)
            (λ claim. store_of (seen slots.new) (views D.Drive disks.new) claim feed teller) stubs.old.items stubs.new.items };

    /// Is told of each step, between it and the next, with the slot that its caller is of.
    fn between(&self, home: u8);
}
