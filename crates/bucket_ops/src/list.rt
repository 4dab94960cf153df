//! ListBuckets.

ghost use Rattle.std.specs.Prelude.{◌≡◌};
ghost use Rattle.desk_base.specs.Answering.{Task};
ghost use Rattle.desk_base.specs.Calls.{stated_length};
ghost use Rattle.receipts.specs.Paying.{Pays};
ghost use Rattle.bucket_ops.specs.Lists.{ListStands, list_cut, list_step, list_task};
ghost use Rattle.bucket_ops.specs.Seeking.{list_left};

use crate::list_op::ListOp;
use crate::list_state::ListState;
use crate::listing::{after_look, after_names, barred_list};
use crate::seeking::PAGE_NAMES;
use crate::telling::tell_head;
use audit_trail::Audit;
use bucket_book::row_laws;
use call_types::{Cut, Feed};
use desk_base::Teller;
use drive_base::Drive;
use op_steps::{Op, OpNext, look_law, names_law};
use receipts::Barred;
use slot_core::{Slot, Stub, Turn};
use std::alloc::Global;
use std::mem;

impl Op for ListOp {
    ghost set = { λ op. op.set };

    ghost Asked = { Task };

    ghost asked = { λ op. list_task op.now };

    ghost owed = { λ set task cut log. Pays set task cut log };

    ghost stated = { λ task. stated_length task.call };

    ghost step = { λ op. list_step op.state };

    ghost left = { λ op. list_left op.state };

    ghost taken = { λ op. 0 };

    ghost stands = { λ op claim log. ListStands op.set op.now op.state claim log };

    ghost cut_at = { λ op. list_cut op.state };

    fn next(&self) -> OpNext {
        match &self.state {
            ListState::Paging(work) => OpNext::Section(work.slot),
            ListState::Looking(work, _) => OpNext::Section(work.slot),
            ListState::Telling(_) => OpNext::Tell,
            ListState::Over(_) => OpNext::Done,
        }
    }

    fn section<D: Drive, A: Audit>(
        &mut self,
        alloc: Global,
        slot: &mut Slot<D, A>,
        disks: &mut [D],
    ) -> Option<Stub> {
        // The laws for the proof: listings and looks are steps, and a content is of one record alone. The calls do nothing.
        names_law::<D>();
        look_law::<D>();
        row_laws();
        match mem::replace(&mut self.state, ListState::Over(None)) {
            ListState::Paging(work) => {
                let turn = slot.list_names(alloc, work.from.as_str(), PAGE_NAMES);
                let state = after_names(alloc, work, turn.answer);
                drop(mem::replace(&mut self.state, state));
                turn.stub
            }
            ListState::Looking(work, wanted) => {
                let turn = slot.peek(alloc, disks, wanted.name.as_str());
                let state = after_look(alloc, work, &wanted, &turn.answer);
                drop(mem::replace(&mut self.state, state));
                drop(wanted);
                let Turn { answer, stub } = turn;
                drop(answer);
                stub
            }
            _ => unreachable!(),
        }
    }

    fn barred(&mut self, why: Barred) {
        self.state = barred_list(why);
    }

    fn data<D: Drive>(&mut self, _alloc: Global, _disks: &mut [D]) {}

    fn feed<F: Feed>(&mut self, _alloc: Global, _feed: &mut F) {}

    fn tell<T: Teller>(&mut self, _alloc: Global, teller: &mut T) {
        if let ListState::Telling(reply) = &self.state {
            let cut = tell_head(teller, reply);
            self.state = ListState::Over(cut);
        }
    }

    fn cut(&self) -> Option<Cut> {
        match &self.state {
            ListState::Paging(_) | ListState::Looking(_, _) | ListState::Telling(_) => None,
            ListState::Over(cut) => *cut,
        }
    }
}
