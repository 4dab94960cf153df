//! CreateBucket and PutBucketVersioning.

ghost use Rattle.std.specs.Prelude.{◌≡◌, ◌<◌, vec_len};
ghost use Rattle.desk_base.specs.Answering.{Task};
ghost use Rattle.desk_base.specs.Calls.{stated_length};
ghost use Rattle.receipts.specs.Paying.{Pays};
ghost use Rattle.slot_history.specs.Names.{bucket_slot};
ghost use Rattle.bucket_ops.specs.Changes.{ChangeStands, change_task, cut_of, left_of, step_of};

use crate::change_op::ChangeOp;
use crate::change_state::ChangeState;
use crate::deciding::{after_commit, after_document, barred_state};
use crate::telling::tell_head;
use audit_trail::Audit;
use bucket_book::row_laws;
use call_types::{Cut, Feed};
use desk_base::Teller;
use drive_base::Drive;
use op_steps::{Op, OpNext, commit_law};
use receipts::Barred;
use slot_core::{Slot, Stub};
use slot_history::bucket_slot;
use std::alloc::Global;
use std::mem;

impl Op for ChangeOp {
    ghost set = { λ op. op.set };

    ghost Asked = { Task };

    ghost asked = { λ op. change_task op.sets_mode op.document op.bucket op.now };

    ghost owed = { λ set task cut log. Pays set task cut log };

    ghost stated = { λ task. stated_length task.call };

    ghost step = { λ op. step_of op.state (bucket_slot op.bucket) };

    ghost left = { λ op. left_of op.state op.document };

    ghost taken = { λ op. op.document.taken };

    ghost stands = { λ op claim log. ChangeStands op.set op.sets_mode op.document op.bucket op.now (bucket_slot op.bucket) op.state claim log };

    ghost cut_at = { λ op. cut_of op.state };

    fn next(&self) -> OpNext {
        match &self.state {
            ChangeState::Reading => OpNext::Feed,
            ChangeState::Committing(_) => OpNext::Section(bucket_slot(&self.bucket)),
            ChangeState::Telling(_) => OpNext::Tell,
            ChangeState::Over(_) => OpNext::Done,
        }
    }

    fn section<D: Drive, A: Audit>(
        &mut self,
        alloc: Global,
        slot: &mut Slot<D, A>,
        disks: &mut [D],
    ) -> Option<Stub> {
        // The laws for the proof, that a commit is a step, and that a content is of one bucket alone. The calls do nothing.
        commit_law::<D>();
        row_laws();
        let ChangeState::Committing(deed) = &self.state else {
            unreachable!()
        };
        let turn = slot.commit(alloc, disks, &deed.commit, None, self.now);
        self.state = after_commit(turn.answer);
        turn.stub
    }

    fn barred(&mut self, why: Barred) {
        self.state = barred_state(why);
    }

    fn data<D: Drive>(&mut self, _alloc: Global, _disks: &mut [D]) {}

    fn feed<F: Feed>(&mut self, alloc: Global, feed: &mut F) {
        let ChangeState::Reading = &self.state else {
            return;
        };
        let cut = self.document.take(feed);
        if cut.is_some() {
            drop(mem::replace(&mut self.state, ChangeState::Over(cut)));
        } else if self.document.is_whole() {
            let state = after_document(alloc, &self.bucket, self.document.as_slice());
            drop(mem::replace(&mut self.state, state));
        }
    }

    fn tell<T: Teller>(&mut self, _alloc: Global, teller: &mut T) {
        if let ChangeState::Telling(reply) = &self.state {
            let cut = tell_head(teller, reply);
            self.state = ChangeState::Over(cut);
        }
    }

    fn cut(&self) -> Option<Cut> {
        match &self.state {
            ChangeState::Reading | ChangeState::Committing(_) | ChangeState::Telling(_) => None,
            ChangeState::Over(cut) => *cut,
        }
    }
}
