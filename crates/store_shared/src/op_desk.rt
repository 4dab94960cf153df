//! What the desks of this crate have in common: each does the steps of any op over what its passes have, and gives a receipt.

ghost use Rattle.std.specs.Prelude.{◌++◌, ◌+◌, ◌<◌, ◌≡◌, ◌≤◌, List, Result, [], length, option_to_list, vec_capacity, vec_len, ℕ};
ghost use Rattle.call_types.specs.declared.feed.Cut.{Cut};
ghost use Rattle.desk_base.specs.Answering.{CutCause, Serves, Task};
ghost use Rattle.desk_base.specs.Calls.{IsFeedOf, stated_length};
ghost use Rattle.desk_base.specs.Telling.{Telling};
ghost use Rattle.drive_base.specs.declared.plan.SetPlan.{SetPlan};
ghost use Rattle.op_steps.specs.Claims.{no_claim};
ghost use Rattle.op_steps.specs.Going.{IsFeedAt, PaysFor};
ghost use Rattle.op_steps.specs.Steps.{RanOver};
ghost use Rattle.store_shared.specs.Serving.{AnswersAlone, IsReceiptOf, WasServed, reached};
ghost use Rattle.store_shared.specs.declared.op_desk.Receipt.{Receipt};

use call_types::{Cut, Feed};
use desk_base::{Call, Teller};
use drive_base::{Drive, SetPlan};
use op_steps::{Op, Served, Turns, call_op};
use slot_core::Stub;
use std::alloc::Global;

/// What was done for a call: the stubs of its sections, in their order.
#[derive(Drop)]
pub struct Receipt {
    /// The stubs.
    pub stubs: Vec<Stub>,
}

/// A desk that serves a call by its op, whatever that is. `Desk` says of each of its members but `set` and `serve_op` what it is.
pub(crate) trait OpDesk {
    /// The way of one caller to what the desk serves.
    type Pass;

    /// What a pass holds that no call changes.
    ghost Holds: { Type 0 };

    /// That of a pass.
    ghost holds: { Self.Pass → Holds };

    /// The set of which it is.
    ghost set: { Holds → SetPlan };

    /// Whether a pass that holds this is one of this desk's.
    ghost fits: { Self → Holds → Type 0 };

    /// What a call comes to.
    ghost answers: { Self → Task → Self.Pass → Self.Pass → List ℕ → List Telling → Result Receipt Cut → Type 0 };

    /// The set of a pass.
    fn set_in(&self, pass: &Self::Pass) -> SetPlan
        ensures { result ≡ set (holds pass.now) };

    /// Serves a call, made in this Unix second, by its op, which has done nothing yet.
    fn serve_op<O: Op, F: Feed, T: Teller>(
        &self,
        alloc: Global,
        pass: &mut Self::Pass,
        call: &Call,
        now: u64,
        op: &mut O,
        feed: &mut F,
        teller: &mut T,
    ) -> Result<Receipt, Cut>
        requires fits { fits self.now (holds pass.old) }
        requires set { O.set op.old ≡ set (holds pass.old) }
        requires taken { O.taken op.old ≡ 0 }
        requires begins { (slot : ℕ) × (slot < 64) × O.stands op.old (no_claim slot) [] }
        requires stated { O.stated (O.asked op.old) ≡ stated_length call.now }
        requires pays { PaysFor (O.set op.old) (record { call = call.now; now = now }) (O.owed (O.set op.old) (O.asked op.old)) }
        requires feed { IsFeedOf (F.seen feed.old) call.now }
        ensures holds { holds pass.new ≡ holds pass.old }
        ensures serves { Serves T.takes T.breaks
            (λ body tale. answers self.now (record { call = call.now; now = now }) pass.old pass.new body tale result)
            call.now result (F.seen feed.old) (F.seen feed.new) teller.old teller.new }
        ensures cause { CutCause result (F.seen feed.new) (F.faults feed.old) (F.faults feed.new) (T.faults teller.old) (T.faults teller.new) };

    /// A call that is served by tellings alone is answered so, and its pass stays. It does nothing.
    fn told_alone(&self)
        ensures { AnswersAlone (λ pass. set (holds pass)) (answers self.now) };
}

/// The receipt of a call, or why it was cut.
pub(crate) fn receipt_of(served: Served) -> Result<Receipt, Cut>
    ensures { IsReceiptOf served result }
{
    let Served { stubs, cut } = served;
    match cut {
        None => Ok(Receipt { stubs }),
        Some(cut) => Err(cut),
    }
}

/// Serves a call of this slot by its op, over the slots that are reached by this and these data drives.
pub(crate) fn work_on<O: Op, D: Drive, P: Turns<D>, F: Feed, T: Teller>(
    turns: &P,
    alloc: Global,
    op: &mut O,
    slots: &mut P::Slots,
    disks: &mut Vec<D>,
    home: u8,
    feed: &mut F,
    teller: &mut T,
) -> Served
    requires fits { P.fits turns.now (O.set op.old) slots.old }
    requires disks { length disks.old.items ≡ (O.set op.old).drives }
    requires feed { IsFeedAt (O.stated (O.asked op.old)) (O.taken op.old) (F.seen feed.old) }
    ensures fits { P.fits turns.now (O.set op.old) slots.new }
    ensures holds { P.holds slots.new ≡ P.holds slots.old }
    ensures disks { length disks.new.items ≡ length disks.old.items }
    ensures done { (slot : ℕ) (task : Task) → PaysFor (O.set op.old) task (O.owed (O.set op.old) (O.asked op.old)) → O.stands op.old (no_claim slot) []
        → WasServed (O.set op.old) task result slot
        (λ log claim later. RanOver (P.gives (O.set op.old) T) (P.bars T) T.takes T.breaks (O.set op.old) log
        (reached D.Drive F.Feed T.Teller (P.seen slots.old) disks.old.items feed.old teller.old claim)
        (reached D.Drive F.Feed T.Teller (P.seen slots.new) disks.new.items feed.new teller.new later)) }
{
    call_op(
        turns,
        alloc,
        op,
        slots,
        disks.as_mut_slice(),
        home,
        feed,
        teller,
    )
}

/// Puts the stub of a section behind the others, in the room that is there.
pub(crate) fn keep(stubs: &mut Vec<Stub>, stub: Option<Stub>)
    requires room { vec_len stubs.old + 1 ≤ vec_capacity stubs.old }
    ensures { stubs.new.items ≡ stubs.old.items ++ option_to_list stub }
{
    if let Some(stub) = stub {
        stubs.push_reserved(stub);
    }
}
