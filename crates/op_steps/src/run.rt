//! The loop over the steps of an op.

ghost use Rattle.std.specs.Prelude.{◌≡◌, ◌≢◌, ◌<◌, ◌≤◌, ℕ, [], length, MatchOption};
ghost use Rattle.desk_base.specs.Answering.{Task};
ghost use Rattle.drive_base.specs.View.{views};
ghost use Rattle.receipts.specs.Events.{Log};
ghost use Rattle.receipts.specs.Paying.{Pays};
ghost use Rattle.op_steps.specs.Claims.{Claim, no_claim};
ghost use Rattle.op_steps.specs.Going.{IsFeedAt, OneStep, OpLed, PaysFor, RanSoOver};
ghost use Rattle.op_steps.specs.Steps.{RanOver};
ghost use Rattle.op_steps.specs.Store.{store_of, teller_of};
ghost use Rattle.op_steps.specs.Words.{LetsGo};
ghost use Rattle.op_steps.specs.declared.next.OpNext.TheVariants.{Done};

use crate::next::OpNext;
use crate::op::Op;
use crate::turns::Turns;
use call_types::{Cut, Feed};
use desk_base::Teller;
use drive_base::Drive;
use slot_core::Stub;
use std::alloc::Global;

/// Does the step of an op that comes next, and no other.
pub fn step_op<O: Op, D: Drive, P: Turns<D>, F: Feed, T: Teller>(
    turns: &P,
    alloc: Global,
    op: &mut O,
    slots: &mut P::Slots,
    disks: &mut [D],
    feed: &mut F,
    teller: &mut T,
    stubs: &mut Vec<Stub>,
)
    requires next { O.step op.old ≢ Done }
    requires fits { P.fits turns.now (O.set op.old) slots.old }
    requires disks { length disks.old ≡ (O.set op.old).drives }
    requires feed { IsFeedAt (O.stated (O.asked op.old)) (O.taken op.old) (F.seen feed.old) }
    ensures set { O.set op.new ≡ O.set op.old }
    ensures asked { O.asked op.new ≡ O.asked op.old }
    ensures left { O.left op.new < O.left op.old }
    ensures fits { P.fits turns.now (O.set op.old) slots.new }
    ensures holds { P.holds slots.new ≡ P.holds slots.old }
    ensures disks { length disks.new ≡ length disks.old }
    ensures feed { IsFeedAt (O.stated (O.asked op.old)) (O.taken op.new) (F.seen feed.new) }
    ensures steps { RanSoOver (OneStep (O.step op.old) (RanOver (P.gives (O.set op.old) T) (P.bars T) T.takes T.breaks (O.set op.old))) (O.stands op.old) (O.stands op.new)
        (λ claim. store_of (P.seen slots.old) (views D.Drive disks.old) claim
        (record { view = F.seen feed.old; faults = F.faults feed.old }) (teller_of teller.old (T.faults teller.old)))
        (λ claim. store_of (P.seen slots.new) (views D.Drive disks.new) claim
        (record { view = F.seen feed.new; faults = F.faults feed.new }) (teller_of teller.new (T.faults teller.new)))
        stubs.old.items stubs.new.items }
{
    match op.next() {
        OpNext::Section(index) => turns.turn::<O, T>(alloc, op, slots, disks, index, stubs),
        OpNext::Data => op.data(alloc, disks),
        OpNext::Feed => op.feed(alloc, feed),
        OpNext::Tell => op.tell(alloc, teller),
        OpNext::Done => {}
    }
}

/// Does the steps of an op to their end, and puts the stubs of its sections behind the others: some log of steps leads from the store before to the store
/// after, each log that the op may then have is owed, and it holds nothing any more but where a section could not be done. Whoever gives the sections is told
/// of each step, with this slot.
pub fn run_op<O: Op, D: Drive, P: Turns<D>, F: Feed, T: Teller>(
    turns: &P,
    alloc: Global,
    op: &mut O,
    slots: &mut P::Slots,
    disks: &mut [D],
    home: u8,
    feed: &mut F,
    teller: &mut T,
    stubs: &mut Vec<Stub>,
)
    requires fits { P.fits turns.now (O.set op.old) slots.old }
    requires disks { length disks.old ≡ (O.set op.old).drives }
    requires feed { IsFeedAt (O.stated (O.asked op.old)) (O.taken op.old) (F.seen feed.old) }
    ensures set { O.set op.new ≡ O.set op.old }
    ensures asked { O.asked op.new ≡ O.asked op.old }
    ensures done { O.step op.new ≡ Done }
    ensures owed { (claim : Claim) (log : Log) → O.stands op.new claim log → O.owed (O.set op.old) (O.asked op.old) (O.cut_at op.new) log }
    ensures ends { (claim : Claim) (log : Log) → O.stands op.new claim log → LetsGo claim log }
    ensures fits { P.fits turns.now (O.set op.old) slots.new }
    ensures holds { P.holds slots.new ≡ P.holds slots.old }
    ensures disks { length disks.new ≡ length disks.old }
    ensures ran { RanSoOver (RanOver (P.gives (O.set op.old) T) (P.bars T) T.takes T.breaks (O.set op.old)) (O.stands op.old) (O.stands op.new)
        (λ claim. store_of (P.seen slots.old) (views D.Drive disks.old) claim
        (record { view = F.seen feed.old; faults = F.faults feed.old }) (teller_of teller.old (T.faults teller.old)))
        (λ claim. store_of (P.seen slots.new) (views D.Drive disks.new) claim
        (record { view = F.seen feed.new; faults = F.faults feed.new }) (teller_of teller.new (T.faults teller.new)))
        stubs.old.items stubs.new.items }
{
    while op.next() != OpNext::Done {
        step_op(turns, alloc, op, slots, disks, feed, teller, stubs);
        turns.between(home);
    }
}

/// What a call gives that was served: the stubs of its sections in their order, and why it was cut, if it was.
#[derive(Drop)]
pub struct Served {
    /// The stubs.
    pub stubs: Vec<Stub>,
    /// Why it was cut.
    pub cut: Option<Cut>,
}

/// How many stubs a call has at most but for listings: there is room for as many before its first section.
const FEW_STUBS: usize = 4;

/// Serves a call of this slot by its op, which has done nothing yet and holds nothing of its slot. Where there is no memory for the stubs of a call with few
/// sections, the call is cut before its first step.
pub fn call_op<O: Op, D: Drive, P: Turns<D>, F: Feed, T: Teller>(
    turns: &P,
    alloc: Global,
    op: &mut O,
    slots: &mut P::Slots,
    disks: &mut [D],
    home: u8,
    feed: &mut F,
    teller: &mut T,
) -> Served
    requires fits { P.fits turns.now (O.set op.old) slots.old }
    requires disks { length disks.old ≡ (O.set op.old).drives }
    requires feed { IsFeedAt (O.stated (O.asked op.old)) (O.taken op.old) (F.seen feed.old) }
    ensures fits { P.fits turns.now (O.set op.old) slots.new }
    ensures holds { P.holds slots.new ≡ P.holds slots.old }
    ensures disks { length disks.new ≡ length disks.old }
    ensures done { (slot : ℕ) (task : Task) → PaysFor (O.set op.old) task (O.owed (O.set op.old) (O.asked op.old)) → O.stands op.old (no_claim slot) []
        → OpLed (Pays (O.set op.old) task result.cut) result.stubs.items slot
        (λ log claim later. RanOver (P.gives (O.set op.old) T) (P.bars T) T.takes T.breaks (O.set op.old) log
        (store_of (P.seen slots.old) (views D.Drive disks.old) claim
        (record { view = F.seen feed.old; faults = F.faults feed.old }) (teller_of teller.old (T.faults teller.old)))
        (store_of (P.seen slots.new) (views D.Drive disks.new) later
        (record { view = F.seen feed.new; faults = F.faults feed.new }) (teller_of teller.new (T.faults teller.new)))) }
{
    let mut stubs = Vec::new(alloc);
    if stubs.reserve(FEW_STUBS).is_err() {
        return Served {
            stubs,
            cut: Some(Cut::NoMemory),
        };
    }
    run_op(
        turns, alloc, op, slots, disks, home, feed, teller, &mut stubs,
    );
    Served {
        stubs,
        cut: op.cut(),
    }
}
