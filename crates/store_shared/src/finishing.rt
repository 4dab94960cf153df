//! The work of an op that nobody waits for.

ghost use Rattle.std.specs.Prelude.{◌<◌, ◌≡◌, None, [], length, true, ℕ};
ghost use Rattle.op_steps.specs.Words.{HasEnded};
ghost use Rattle.op_steps.specs.declared.next.OpNext.TheVariants.{Done};
ghost use Rattle.op_steps.specs.Claims.{no_claim};
ghost use Rattle.op_steps.specs.Going.{IsFeedAt, OpLed};
ghost use Rattle.op_steps.specs.Steps.{RanOver};
ghost use Rattle.store_shared.specs.Finishing.{AloneFinished, AmongFinished};
ghost use Rattle.store_shared.specs.Passes.{set_of};
ghost use Rattle.store_shared.specs.Serving.{reached};
ghost use Rattle.store_shared.specs.SharedPasses.{FitsDesk, set_held, shared_holds};

use crate::pass::PlainPass;
use crate::plain_desk::PlainDesk;
use crate::shared::{SharedDesk, SharedPass};
use audit_trail::Audit;
use call_types::{Cut, Feed, Reply};
use desk_base::{Gate, Teller};
use drive_base::Drive;
use op_steps::{Op, Served, Turns, run_op};
use std::alloc::Global;
use std::sync::Wait;

/// Does the steps of an op to their end, over the slots that are reached by this and these data drives.
fn finish_on<O: Op, D: Drive, P: Turns<D>, F: Feed, T: Teller>(
    turns: &P,
    alloc: Global,
    op: &mut O,
    slots: &mut P::Slots,
    disks: &mut Vec<D>,
    home: u8,
    feed: &mut F,
    teller: &mut T,
) -> Served
    requires fits { P.fits turns.now (O.set op.old) slots.old }
    requires disks { length disks.old.items ≡ (O.set op.old).drives }
    requires feed { IsFeedAt (O.stated (O.asked op.old)) (O.taken op.old) (F.seen feed.old) }
    ensures fits { P.fits turns.now (O.set op.old) slots.new }
    ensures holds { P.holds slots.new ≡ P.holds slots.old }
    ensures disks { length disks.new.items ≡ length disks.old.items }
    ensures set { O.set op.new ≡ O.set op.old }
    ensures asked { O.asked op.new ≡ O.asked op.old }
    ensures ended { O.step op.new ≡ Done }
    ensures done { (slot : ℕ) → O.stands op.old (no_claim slot) []
        → OpLed (λ log. O.owed (O.set op.old) (O.asked op.old) result.cut log × HasEnded (O.stands op.new) log) result.stubs.items slot
        (λ log claim later. RanOver (P.gives (O.set op.old) T) (P.bars T) T.takes T.breaks (O.set op.old) log
        (reached D.Drive F.Feed T.Teller (P.seen slots.old) disks.old.items feed.old teller.old claim)
        (reached D.Drive F.Feed T.Teller (P.seen slots.new) disks.new.items feed.new teller.new later)) }
{
    let mut stubs = Vec::new(alloc);
    run_op(
        turns,
        alloc,
        op,
        slots,
        disks.as_mut_slice(),
        home,
        feed,
        teller,
        &mut stubs,
    );
    Served {
        stubs,
        cut: op.cut(),
    }
}

impl<D: Drive, A: Audit> PlainDesk<D, A> {
    /// Does the steps of an op that nobody waits for, which has no body, to their end.
    pub fn finish<O: Op>(&self, alloc: Global, pass: &mut PlainPass<D, A>, op: &mut O) -> Served
        requires set { O.set op.old ≡ set_of pass.old }
        requires stated { O.stated (O.asked op.old) ≡ 0 }
        requires taken { O.taken op.old ≡ 0 }
        ensures same { set_of pass.new ≡ set_of pass.old }
        ensures set { O.set op.new ≡ O.set op.old }
        ensures asked { O.asked op.new ≡ O.asked op.old }
        ensures ended { O.step op.new ≡ Done }
        ensures done { (slot : ℕ) → slot < 64 → O.stands op.old (no_claim slot) []
            → AloneFinished D.Drive A.entries A.count (λ log. O.owed (O.set op.old) (O.asked op.old) result.cut log × HasEnded (O.stands op.new) log)
            result.stubs.items pass.old pass.new }
    {
        finish_on(
            self,
            alloc,
            op,
            &mut pass.slots,
            &mut pass.disks,
            0,
            &mut NoBody {},
            &mut NoReply {},
        )
    }
}

impl<R: Wait, D: Drive, A: Audit, G: Gate> SharedDesk<R, D, A, G> {
    /// Does the steps of an op that nobody waits for, which has no body, to their end. The gate is told of each, with slot 0.
    pub fn finish<O: Op>(&self, alloc: Global, pass: &mut SharedPass<D, A>, op: &mut O) -> Served
        requires fits { FitsDesk self.now (shared_holds pass.old) }
        requires set { O.set op.old ≡ set_held (shared_holds pass.old) }
        requires stated { O.stated (O.asked op.old) ≡ 0 }
        requires taken { O.taken op.old ≡ 0 }
        ensures holds { shared_holds pass.new ≡ shared_holds pass.old }
        ensures set { O.set op.new ≡ O.set op.old }
        ensures asked { O.asked op.new ≡ O.asked op.old }
        ensures ended { O.step op.new ≡ Done }
        ensures done { (slot : ℕ) → slot < 64 → O.stands op.old (no_claim slot) []
            → AmongFinished D.Drive A.entries A.count (λ log. O.owed (O.set op.old) (O.asked op.old) result.cut log × HasEnded (O.stands op.new) log)
            result.stubs.items pass.old pass.new }
    {
        finish_on(
            self,
            alloc,
            op,
            &mut pass.passes,
            &mut pass.disks,
            0,
            &mut NoBody {},
            &mut NoReply {},
        )
    }
}

/// A feed that has nothing.
#[derive(Drop)]
pub(crate) struct NoBody {}

impl Feed for NoBody {
    ghost seen = { λ feed. record { stated = 0; given = 0; left = None; taken = None; ended = true } };

    ghost faults = { λ feed. 0 };

    fn take(&mut self, _into: &mut [u8]) -> Result<usize, Cut> {
        Ok(0)
    }
}

/// A teller that takes nothing.
#[derive(Drop)]
pub(crate) struct NoReply {}

impl Teller for NoReply {
    ghost takes = { λ old telling new. ⊥ };

    ghost breaks = { λ old telling new. ⊥ };

    ghost faults = { λ teller. 0 };

    fn head(&mut self, _reply: &Reply) -> Result<(), Cut> {
        Err(Cut::NoMemory)
    }

    fn piece(&mut self, _bytes: &[u8]) -> Result<(), Cut> {
        Err(Cut::NoMemory)
    }
}
