//! One section of one slot of a store, as a step.

ghost use Rattle.std.specs.Prelude.{◌≡◌, ◌+◌, ◌<◌, ◌≤◌, ◌++◌, ◌^◌, length, option_to_list, slice_index_or, vec_capacity, vec_len};
ghost use Rattle.drive_base.specs.View.{views};
ghost use Rattle.op_steps.specs.Going.{StepsSo};
ghost use Rattle.op_steps.specs.Store.{AreInOrder, FeedSeen, slots_seen, store_of, TellerSeen};
ghost use Rattle.slot_core.specs.Views.{numbers_of};
ghost use Rattle.slot_core.specs.declared.slot.Slot.{Slot};
ghost use Rattle.op_steps.specs.Words.{SectionsSo};

use crate::next::OpNext;
use crate::op::Op;
use audit_trail::Audit;
use desk_base::Teller;
use drive_base::Drive;
use receipts::Barred;
use slot_core::{Slot, Stub};
use std::alloc::Global;

/// Puts the stub of a section behind the others, in the room that is there.
fn keep(stubs: &mut Vec<Stub>, stub: Option<Stub>)
    requires room { vec_len stubs.old + 1 ≤ vec_capacity stubs.old }
    ensures { stubs.new.items ≡ stubs.old.items ++ option_to_list stub }
{
    if let Some(stub) = stub {
        stubs.push_reserved(stub);
    }
}

/// Does a section of the slot of this index, which has a turn left.
fn section_at<O: Op, D: Drive, A: Audit>(
    alloc: Global,
    op: &mut O,
    slots: &mut [Slot<D, A>],
    disks: &mut [D],
    index: u8,
) -> Option<Stub>
    requires next { O.step op.old ≡ OpNext.Section index }
    requires index { index < length slots.old }
    requires order { AreInOrder (O.set op.old) (slots_seen A.entries A.count slots.old) (views D.Drive disks.old) }
    requires turns { (d : Slot D A) → (numbers_of (slice_index_or slots.old index d)).turns + 1 < 2 ^ 64 }
    ensures set { O.set op.new ≡ O.set op.old }
    ensures asked { O.asked op.new ≡ O.asked op.old }
    ensures left { O.left op.new < O.left op.old }
    ensures taken { O.taken op.new ≡ O.taken op.old }
    ensures order { AreInOrder (O.set op.old) (slots_seen A.entries A.count slots.new) (views D.Drive disks.new) }
    ensures sections { SectionsSo D.Drive (O.stands op.old) (O.stands op.new) index result (slots_seen A.entries A.count slots.old)
        (slots_seen A.entries A.count slots.new) (views D.Drive disks.old) (views D.Drive disks.new) }
{
    op.section(alloc, &mut slots[index as usize], disks)
}

/// Does a section of the slot of this index, and puts its stub behind the others. A section that can't be done is told to the op with its reason: the slot's
/// turns are spent, or there is no memory for one stub more. So nothing is refused for want of memory once a section was done.
pub fn turn<O: Op, D: Drive, A: Audit, T: Teller>(
    alloc: Global,
    op: &mut O,
    slots: &mut [Slot<D, A>],
    disks: &mut [D],
    index: u8,
    stubs: &mut Vec<Stub>,
)
    requires next { O.step op.old ≡ OpNext.Section index }
    requires index { index < 64 }
    requires order { AreInOrder (O.set op.old) (slots_seen A.entries A.count slots.old) (views D.Drive disks.old) }
    ensures set { O.set op.new ≡ O.set op.old }
    ensures asked { O.asked op.new ≡ O.asked op.old }
    ensures left { O.left op.new < O.left op.old }
    ensures taken { O.taken op.new ≡ O.taken op.old }
    ensures order { AreInOrder (O.set op.old) (slots_seen A.entries A.count slots.new) (views D.Drive disks.new) }
    ensures steps { (feed : FeedSeen) (teller : TellerSeen T) → StepsSo D.Drive T.takes T.breaks (O.step op.old) (O.stands op.old) (O.stands op.new) (O.set op.old)
        (λ claim. store_of (slots_seen A.entries A.count slots.old) (views D.Drive disks.old) claim feed teller)
        (λ claim. store_of (slots_seen A.entries A.count slots.new) (views D.Drive disks.new) claim feed teller) stubs.old.items stubs.new.items }
{
    if slots[index as usize].turns() == u64::MAX {
        op.barred(Barred::Spent);
        return;
    }
    if stubs.reserve(1).is_err() {
        op.barred(Barred::NoMemory);
        return;
    }
    let stub = section_at(alloc, op, slots, disks, index);
    keep(stubs, stub);
}
