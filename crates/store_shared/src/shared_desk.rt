//! The calls of the desk of several callers, and their sections among others.

ghost use Rattle.std.specs.Prelude.{◌+◌, ◌<◌, ◌≡◌, ◌≤◌, List, Option, length, slice_index_or, slice_set, vec_capacity, vec_len};
ghost use Rattle.drive_base.specs.View.{views};
ghost use Rattle.op_steps.specs.Going.{OneStep, RanSoOver};
ghost use Rattle.op_steps.specs.Store.{FeedSeen, TellerSeen, store_of};
ghost use Rattle.store_shared.specs.Among.{IsPassAt, PassSeen, pass_seen, passes_seen};
ghost use Rattle.store_shared.specs.AmongSteps.{IsBarredAmong, RanAmong, TurnsAmong};
ghost use Rattle.store_shared.specs.SharedPaging.{PagesAmong, PagesInTurn};
ghost use Rattle.store_shared.specs.SharedPasses.{FitsDesk, PassHolds, ReachesAll, SharedHolds, drives_of, locks_of, pass_holds, passes_hold, passes_in, set_of_desk, shared_holds};
ghost use Rattle.store_shared.specs.declared.shared.TurnedSlot.{TurnedSlot};
ghost use Rattle.turn_lock.specs.Passes.{IsPassOf};
ghost use Rattle.turn_lock.specs.declared.lock.TurnLock.{TurnLock};

use crate::calls::{home_of, serve_call};
use crate::op_desk::{OpDesk, Receipt, keep, receipt_of, work_on};
use crate::shared::{SharedDesk, SharedPass, TurnedSlot};
use audit_trail::Audit;
use call_types::{Cut, Feed};
use desk_base::{Call, Desk, Gate, Teller};
use drive_base::{Drive, SetPlan};
use op_steps::{Op, OpNext, Turns};
use receipts::Barred;
use slot_core::{Names, SlotFault, Stub, Turn};
use std::alloc::Global;
use std::sync::Wait;
use turn_lock::Pass;

impl<R: Wait, D: Drive, A: Audit, G: Gate> Desk for SharedDesk<R, D, A, G> {
    ghost use Rattle.std.proofs.Math.Logic.{∥∥₁_prop};
    ghost use Rattle.store_shared.specs.SharedAnswers.{SharedAnswers};

    type Pass = SharedPass<D, A>;

    type Receipt = Receipt;

    ghost Holds = { SharedHolds D A };

    ghost holds = { λ pass. shared_holds pass };

    ghost fits = { λ desk held. ∥ FitsDesk desk held ∥₁ };

    ghost fits_is_fact = { λ desk held. ∥∥₁_prop };

    ghost answers = { λ desk task before after body tale result. SharedAnswers D.Drive A.entries A.count task before after body tale result };

    fn call<F: Feed, T: Teller>(
        &self,
        alloc: Global,
        pass: &mut SharedPass<D, A>,
        call: &Call,
        now: u64,
        feed: &mut F,
        teller: &mut T,
    ) -> Result<Receipt, Cut> {
        serve_call(self, alloc, pass, call, now, feed, teller)
    }
}

impl<R: Wait, D: Drive, A: Audit, G: Gate> OpDesk for SharedDesk<R, D, A, G> {
    ghost use Rattle.store_shared.specs.SharedAnswers.{SharedAnswers};
    ghost use Rattle.store_shared.specs.SharedPasses.{FitsDesk, SharedHolds, set_held, shared_holds};

    type Pass = SharedPass<D, A>;

    ghost Holds = { SharedHolds D A };

    ghost holds = { λ pass. shared_holds pass };

    ghost set = { λ held. set_held held };

    ghost fits = { λ desk held. FitsDesk desk held };

    ghost answers = { λ desk task before after body tale result. SharedAnswers D.Drive A.entries A.count task before after body tale result };

    fn set_in(&self, pass: &SharedPass<D, A>) -> SetPlan {
        pass.set
    }

    fn serve_op<O: Op, F: Feed, T: Teller>(
        &self,
        alloc: Global,
        pass: &mut SharedPass<D, A>,
        call: &Call,
        _now: u64,
        op: &mut O,
        feed: &mut F,
        teller: &mut T,
    ) -> Result<Receipt, Cut> {
        let home = home_of(call);
        let served = work_on(
            self,
            alloc,
            op,
            &mut pass.passes,
            &mut pass.disks,
            home,
            feed,
            teller,
        );
        receipt_of(served)
    }

    fn told_alone(&self) {}
}

impl<R: Wait, D: Drive, A: Audit, G: Gate> SharedDesk<R, D, A, G> {
    /// Does a section of the slot of this index in its next turn, with this pass of its lock, and puts its stub behind the others, for which there is room.
    /// Where the lock has no ticket left the op is told that the slot's turns are spent.
    fn turn_by<O: Op, T: Teller>(
        &self,
        alloc: Global,
        op: &mut O,
        own: Pass<TurnedSlot<D, A>>,
        disks: &mut [D],
        index: u8,
        stubs: &mut Vec<Stub>,
    ) -> Pass<TurnedSlot<D, A>>
        requires next { O.step op.old ≡ OpNext.Section index }
        requires index { index < 64 }
        requires set { O.set op.old ≡ set_of_desk self.now }
        requires own { (lock : TurnLock (TurnedSlot D A)) → IsPassOf (slice_index_or (locks_of self.now) index lock) own }
        requires disks { length disks.old ≡ (O.set op.old).drives }
        requires room { vec_len stubs.old + 1 ≤ vec_capacity stubs.old }
        ensures set { O.set op.new ≡ O.set op.old }
        ensures asked { O.asked op.new ≡ O.asked op.old }
        ensures left { O.left op.new < O.left op.old }
        ensures taken { O.taken op.new ≡ O.taken op.old }
        ensures disks { length disks.new ≡ length disks.old }
        ensures holds { pass_holds result ≡ pass_holds own }
        ensures steps { (passes : List (PassSeen D A)) (feed : FeedSeen) (teller : TellerSeen T) → IsPassAt passes index (pass_seen own)
            → RanSoOver (OneStep (O.step op.old) (RanAmong D.Drive A.entries A.count T.takes T.breaks (O.set op.old))) (O.stands op.old) (O.stands op.new)
            (λ claim. store_of passes (views D.Drive disks.old) claim feed teller)
            (λ claim. store_of (slice_set passes index (pass_seen result)) (views D.Drive disks.new) claim feed teller) stubs.old.items stubs.new.items }
    {
        let lock = &self.locks[index as usize];
        match lock.take(&self.rt, own) {
            Ok(mut held) => {
                let stub = op.section(alloc, &mut held.value.slot, disks);
                keep(stubs, stub);
                lock.give(held)
            }
            Err(back) => {
                op.barred(Barred::Spent);
                back
            }
        }
    }
}

impl<R: Wait, D: Drive, A: Audit, G: Gate> Turns<D> for SharedDesk<R, D, A, G> {
    type Slots = Vec<Option<Pass<TurnedSlot<D, A>>>>;

    ghost Seen = { List (PassSeen D A) };

    ghost seen = { λ passes. passes_seen passes.items };

    ghost Holds = { List (Option (PassHolds D A)) };

    ghost holds = { λ passes. passes_hold passes.items };

    ghost fits = { λ desk set passes. ReachesAll desk set passes.items };

    ghost gives = { λ set T k note shown old new. TurnsAmong D.Drive A.entries A.count set k note shown old new };

    ghost bars = { λ T k why old new. IsBarredAmong k why old new };

    fn turn<O: Op, T: Teller>(
        &self,
        alloc: Global,
        op: &mut O,
        passes: &mut Vec<Option<Pass<TurnedSlot<D, A>>>>,
        disks: &mut [D],
        index: u8,
        stubs: &mut Vec<Stub>,
    ) {
        // There is room for the stub before the section, so that nothing is refused for want of memory once a section was done.
        if stubs.reserve(1).is_err() {
            op.barred(Barred::NoMemory);
            return;
        }
        let place = &mut passes[index as usize];
        let Some(own) = place.take() else {
            unreachable!()
        };
        *place = Some(self.turn_by::<O, T>(alloc, op, own, disks, index, stubs));
    }

    fn between(&self, home: u8) {
        self.gate.between(home);
    }
}

impl<R: Wait, D: Drive, A: Audit, G> SharedDesk<R, D, A, G> {
    /// Lists names in a turn of the slot of this index, with this pass of its lock.
    fn page_in_turn(
        &self,
        alloc: Global,
        own: Pass<TurnedSlot<D, A>>,
        slot: u8,
        from: &str,
        most: u32,
    ) -> (Pass<TurnedSlot<D, A>>, Turn<Names>)
        requires slot { slot < 64 }
        requires own { (lock : TurnLock (TurnedSlot D A)) → IsPassOf (slice_index_or (locks_of self.now) slot lock) own }
        ensures holds { pass_holds result.0 ≡ pass_holds own }
        ensures pages { PagesInTurn D.Drive A.entries A.count (set_of_desk self.now) slot from.now most (pass_seen own) (pass_seen result.0)
            result.1.answer result.1.stub }
    {
        let lock = &self.locks[slot as usize];
        match lock.take(&self.rt, own) {
            Ok(mut held) => {
                let turn = held.value.slot.list_names(alloc, from, most);
                (lock.give(held), turn)
            }
            Err(back) => {
                let turn = Turn {
                    answer: Err(SlotFault::SeqSpent),
                    stub: None,
                };
                (back, turn)
            }
        }
    }

    /// Lists the names of the registers of one slot, from `from` on in the order of their bytes, and so many at most, in a turn of the slot. Where its lock has
    /// no ticket left nothing is done, and the answer is `SeqSpent` without a stub.
    pub fn page(
        &self,
        alloc: Global,
        pass: &mut SharedPass<D, A>,
        slot: u8,
        from: &str,
        most: u32,
    ) -> Turn<Names>
        requires slot { slot < 64 }
        requires fits { FitsDesk self.now (shared_holds pass.old) }
        ensures holds { shared_holds pass.new ≡ shared_holds pass.old }
        ensures disks { drives_of pass.new ≡ drives_of pass.old }
        ensures pages { PagesAmong D.Drive A.entries A.count (set_of_desk self.now) slot from.now most (passes_seen (passes_in pass.old))
            (passes_seen (passes_in pass.new)) result.answer result.stub }
    {
        let place = &mut pass.passes[slot as usize];
        let Some(own) = place.take() else {
            unreachable!()
        };
        let (back, turn) = self.page_in_turn(alloc, own, slot, from, most);
        *place = Some(back);
        turn
    }
}
