//! Listings, as ops.

ghost use Rattle.std.specs.Prelude.{◌≡◌};
ghost use Rattle.desk_base.specs.Answering.{Task};
ghost use Rattle.desk_base.specs.Calls.{stated_length};
ghost use Rattle.receipts.specs.Paying.{Pays};
ghost use Rattle.list_ops.specs.Lists.{page_cut, page_step};
ghost use Rattle.list_ops.specs.OpStands.{StandsFor, op_task};
ghost use Rattle.list_ops.specs.Sheets.{page_left};

use crate::after::{after_look, after_names, after_view, barred_page};
use crate::page_op::PageOp;
use crate::page_state::PageState;
use crate::telling::tell_head;
use audit_trail::Audit;
use call_types::{Cut, Feed};
use desk_base::Teller;
use drive_base::Drive;
use list_page::page_laws;
use op_steps::{Op, OpNext, look_at_bucket, look_law, names_law};
use receipts::Barred;
use slot_core::{Slot, Stub, Turn};
use slot_history::bucket_slot;
use std::alloc::Global;
use std::mem;

impl Op for PageOp {
    ghost set = { λ op. op.set };

    ghost Asked = { Task };

    ghost asked = { λ op. op_task op };

    ghost owed = { λ set task cut log. Pays set task cut log };

    ghost stated = { λ task. stated_length task.call };

    ghost step = { λ op. page_step op.target.bucket op.state };

    ghost left = { λ op. page_left op.state };

    ghost taken = { λ op. 0 };

    ghost stands = { λ op claim log. StandsFor op claim log };

    ghost cut_at = { λ op. page_cut op.state };

    fn next(&self) -> OpNext {
        match &self.state {
            PageState::Looking => OpNext::Section(bucket_slot(&self.target.bucket)),
            PageState::Asking(work) => OpNext::Section(work.slot),
            PageState::Viewing(_, wanted) => OpNext::Section(wanted.slot),
            PageState::Telling(_) => OpNext::Tell,
            PageState::Over(_) => OpNext::Done,
        }
    }

    fn section<D: Drive, A: Audit>(
        &mut self,
        alloc: Global,
        slot: &mut Slot<D, A>,
        disks: &mut [D],
    ) -> Option<Stub> {
        // The laws for the proof: listings and looks are steps, and what a page is to hold. The calls do nothing.
        names_law::<D>();
        look_law::<D>();
        page_laws();
        match mem::replace(&mut self.state, PageState::Over(None)) {
            PageState::Looking => {
                let look = look_at_bucket(alloc, slot, disks, self.name.as_str());
                let state = after_look(alloc, &self.target, look.looked);
                drop(mem::replace(&mut self.state, state));
                look.stub
            }
            PageState::Asking(work) => {
                let turn = slot.list_names(alloc, work.from.as_str(), work.most);
                let state = after_names(alloc, &self.target, work, turn.answer);
                drop(mem::replace(&mut self.state, state));
                turn.stub
            }
            PageState::Viewing(work, wanted) => {
                let turn = slot.peek(alloc, disks, wanted.name.as_str());
                let state = after_view(alloc, &self.target, work, &wanted, &turn.answer);
                drop(mem::replace(&mut self.state, state));
                drop(wanted);
                let Turn { answer, stub } = turn;
                drop(answer);
                stub
            }
            _ => unreachable!(),
        }
    }

    fn barred(&mut self, why: Barred) {
        self.state = barred_page(why);
    }

    fn data<D: Drive>(&mut self, _alloc: Global, _disks: &mut [D]) {}

    fn feed<F: Feed>(&mut self, _alloc: Global, _feed: &mut F) {}

    fn tell<T: Teller>(&mut self, _alloc: Global, teller: &mut T) {
        if let PageState::Telling(reply) = &self.state {
            let cut = tell_head(teller, reply);
            self.state = PageState::Over(cut);
        }
    }

    fn cut(&self) -> Option<Cut> {
        match &self.state {
            PageState::Looking
            | PageState::Asking(_)
            | PageState::Viewing(_, _)
            | PageState::Telling(_) => None,
            PageState::Over(cut) => *cut,
        }
    }
}
