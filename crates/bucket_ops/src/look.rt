//! HeadBucket and GetBucketVersioning.

ghost use Rattle.std.specs.Prelude.{◌≡◌};
ghost use Rattle.desk_base.specs.Answering.{Task};
ghost use Rattle.desk_base.specs.Calls.{stated_length};
ghost use Rattle.receipts.specs.Paying.{Pays};
ghost use Rattle.slot_history.specs.Names.{bucket_slot};
ghost use Rattle.bucket_ops.specs.Looks.{StandsSo, barred_state, cut_of, left_of, look_call, step_of};

use crate::answering::answer_of;
use crate::look_op::LookOp;
use crate::state::State;
use crate::telling::tell_head;
use audit_trail::Audit;
use call_types::{Cut, Feed, Refusal, Reply};
use desk_base::Teller;
use drive_base::Drive;
use op_steps::{Op, OpNext, look_law};
use receipts::Barred;
use slot_core::{Slot, Stub};
use slot_history::bucket_slot;
use std::alloc::Global;

/// How far a look is that can't be done.
fn barred_state(why: Barred) -> State
    ensures { result ≡ barred_state why }
{
    match why {
        Barred::Spent => State::Telling(Reply::Refused(Refusal::SeqSpent)),
        Barred::NoMemory => State::Over(Some(Cut::NoMemory)),
    }
}

impl Op for LookOp {
    ghost set = { λ op. op.set };

    ghost Asked = { Task };

    ghost asked = { λ op. record { call = look_call op.asks_mode op.bucket; now = op.now } };

    ghost owed = { λ set task cut log. Pays set task cut log };

    ghost stated = { λ task. stated_length task.call };

    ghost step = { λ op. step_of op.state (bucket_slot op.bucket) };

    ghost left = { λ op. left_of op.state };

    ghost taken = { λ op. 0 };

    ghost stands = { λ op claim log. StandsSo op.set (record { call = look_call op.asks_mode op.bucket; now = op.now }) (bucket_slot op.bucket) op.state claim log };

    ghost cut_at = { λ op. cut_of op.state };

    fn next(&self) -> OpNext {
        match &self.state {
            State::Looking => OpNext::Section(bucket_slot(&self.bucket)),
            State::Telling(_) => OpNext::Tell,
            State::Over(_) => OpNext::Done,
        }
    }

    fn section<D: Drive, A: Audit>(
        &mut self,
        alloc: Global,
        slot: &mut Slot<D, A>,
        disks: &mut [D],
    ) -> Option<Stub> {
        // The law for the proof, that a look is a step. The call does nothing.
        look_law::<D>();
        let turn = slot.peek(alloc, disks, self.name.as_str());
        self.state = answer_of(alloc, &turn.answer, self.asks_mode);
        turn.stub
    }

    fn barred(&mut self, why: Barred) {
        self.state = barred_state(why);
    }

    fn data<D: Drive>(&mut self, _alloc: Global, _disks: &mut [D]) {}

    fn feed<F: Feed>(&mut self, _alloc: Global, _feed: &mut F) {}

    fn tell<T: Teller>(&mut self, _alloc: Global, teller: &mut T) {
        if let State::Telling(reply) = &self.state {
            let cut = tell_head(teller, reply);
            self.state = State::Over(cut);
        }
    }

    fn cut(&self) -> Option<Cut> {
        match &self.state {
            State::Looking | State::Telling(_) => None,
            State::Over(cut) => *cut,
        }
    }
}
