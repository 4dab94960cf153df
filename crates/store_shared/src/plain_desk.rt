//! The desk of a store that one caller has for itself.

ghost use Rattle.std.specs.Prelude.{◌<◌, ◌≡◌, List};
ghost use Rattle.drive_base.specs.declared.plan.SetPlan.{SetPlan};
ghost use Rattle.op_steps.specs.Steps.{IsBarred, Turns as TurnsAlone};
ghost use Rattle.op_steps.specs.Store.{SlotSeen, slots_seen};
ghost use Rattle.store_shared.specs.Paging.{Pages};
ghost use Rattle.store_shared.specs.Passes.{SlotsFit, disks_of, set_of, slots_of};

use crate::calls::serve_call;
use crate::op_desk::{OpDesk, Receipt, receipt_of, work_on};
use crate::pass::PlainPass;
use audit_trail::Audit;
use call_types::{Cut, Feed};
use desk_base::{Call, Desk, Teller};
use drive_base::{Drive, SetPlan};
use op_steps::{Op, Turns};
use slot_core::{Names, Slot, SlotFault, Stub, Turn};
use std::alloc::Global;
use std::marker::PhantomData;

/// The desk of a store that one caller has for itself. It holds nothing: the caller's pass has the slots and the drives.
#[derive(Drop)]
pub struct PlainDesk<D, A> {
    drives: PhantomData<D>,
    audits: PhantomData<A>,
}

impl<D, A> PlainDesk<D, A> {
    /// The desk.
    pub fn new() -> PlainDesk<D, A> {
        PlainDesk {
            drives: PhantomData,
            audits: PhantomData,
        }
    }
}

impl<D: Drive, A: Audit> Desk for PlainDesk<D, A> {
    ghost use Rattle.std.proofs.Props.{props};
    ghost use Rattle.store_shared.specs.Answers.{PlainAnswers};

    type Pass = PlainPass<D, A>;

    type Receipt = Receipt;

    ghost Holds = { SetPlan };

    ghost holds = { λ pass. set_of pass };

    ghost fits = { λ desk set. Unit {0} };

    ghost fits_is_fact = { λ desk set. Prim.hlevel props };

    ghost answers = { λ desk task before after body tale result. PlainAnswers D.Drive A.entries A.count task before after body tale result };

    fn call<F: Feed, T: Teller>(
        &self,
        alloc: Global,
        pass: &mut PlainPass<D, A>,
        call: &Call,
        now: u64,
        feed: &mut F,
        teller: &mut T,
    ) -> Result<Receipt, Cut> {
        serve_call(self, alloc, pass, call, now, feed, teller)
    }
}

impl<D: Drive, A: Audit> OpDesk for PlainDesk<D, A> {
    ghost use Rattle.store_shared.specs.Answers.{PlainAnswers};

    type Pass = PlainPass<D, A>;

    ghost Holds = { SetPlan };

    ghost holds = { λ pass. set_of pass };

    ghost set = { λ set. set };

    ghost fits = { λ desk set. Unit {0} };

    ghost answers = { λ desk task before after body tale result. PlainAnswers D.Drive A.entries A.count task before after body tale result };

    fn set_in(&self, pass: &PlainPass<D, A>) -> SetPlan {
        pass.set
    }

    fn serve_op<O: Op, F: Feed, T: Teller>(
        &self,
        alloc: Global,
        pass: &mut PlainPass<D, A>,
        _call: &Call,
        _now: u64,
        op: &mut O,
        feed: &mut F,
        teller: &mut T,
    ) -> Result<Receipt, Cut> {
        // Nobody is told of its steps, so it says no slot.
        let served = work_on(
            self,
            alloc,
            op,
            &mut pass.slots,
            &mut pass.disks,
            0,
            feed,
            teller,
        );
        receipt_of(served)
    }

    fn told_alone(&self) {}
}

impl<D: Drive, A: Audit> Turns<D> for PlainDesk<D, A> {
    type Slots = Vec<Slot<D, A>>;

    ghost Seen = { List (SlotSeen D) };

    ghost seen = { λ slots. slots_seen A.entries A.count slots.items };

    ghost Holds = { Unit {0} };

    ghost holds = { λ slots. tt };

    ghost fits = { λ desk set slots. SlotsFit set (slots_seen A.entries A.count slots.items) };

    ghost gives = { λ set T k note shown old new. TurnsAlone D.Drive k note shown old new };

    ghost bars = { λ T k why old new. IsBarred k why old new };

    fn turn<O: Op, T: Teller>(
        &self,
        alloc: Global,
        op: &mut O,
        slots: &mut Vec<Slot<D, A>>,
        disks: &mut [D],
        index: u8,
        stubs: &mut Vec<Stub>,
    ) {
        op_steps::turn::<O, D, A, T>(alloc, op, slots.as_mut_slice(), disks, index, stubs);
    }

    fn between(&self, _home: u8) {}
}

impl<D: Drive, A: Audit> PlainDesk<D, A> {
    /// Lists the names of the registers of one slot, from `from` on in the order of their bytes, and so many at most. Where the slot's turns are spent nothing
    /// is done, and the answer is `SeqSpent` without a stub.
    pub fn page(
        &self,
        alloc: Global,
        pass: &mut PlainPass<D, A>,
        slot: u8,
        from: &str,
        most: u32,
    ) -> Turn<Names>
        requires { slot < 64 }
        ensures set { set_of pass.new ≡ set_of pass.old }
        ensures disks { disks_of pass.new ≡ disks_of pass.old }
        ensures pages { Pages D.Drive A.entries A.count slot from.now most (slots_of pass.old) (slots_of pass.new) result.answer result.stub }
    {
        let index = slot as usize;
        if pass.slots[index].turns() == u64::MAX {
            return Turn {
                answer: Err(SlotFault::SeqSpent),
                stub: None,
            };
        }
        pass.slots[index].list_names(alloc, from, most)
    }
}
