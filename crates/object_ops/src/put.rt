//! PutObject: how it begins, and its steps.

ghost use Rattle.std.specs.Prelude.{◌≡◌, ◌<◌, ◌≤◌, ℕ, [], IfOk, IsTrue, false, length};
ghost use Rattle.desk_base.specs.Calls.{IsKey, longest_kind, most_body, stated_length};
ghost use Rattle.version_list.specs.State.{IsMoment};
ghost use Rattle.op_steps.specs.Claims.{no_claim};
ghost use Rattle.object_ops.specs.PutStands.{IsAtCommit, IsNewPut, IsPut, PutStands, ask_of, left_of, step_of};
ghost use Rattle.object_ops.specs.PutTarget.{key_of, kind_of};
ghost use Rattle.desk_base.specs.Answering.{Task};
ghost use Rattle.receipts.specs.Paying.{Pays};
ghost use Rattle.slot_history.specs.Names.{bucket_slot, key_slot};
ghost use Rattle.object_ops.specs.Put.{cut_of, task_of, work_step};

use crate::clearing::Clearing;
use crate::put_op::PutOp;
use crate::put_outcome::barred_after;
use crate::put_stage_calls::{PutFed, fed};
use crate::put_state::PutState;
use crate::put_target::PutTarget;
use crate::telling::tell_head;
use audit_trail::Audit;
use call_types::{Cut, Feed};
use desk_base::{Call, Teller};
use drive_base::{Drive, SetPlan};
use fault_base::NoMemory;
use op_steps::{Op, OpNext};
use put_stage::StageNext;
use receipts::Barred;
use slot_core::{Slot, Stub};
use slot_history::{bucket_name, bucket_slot, key_slot};
use std::alloc::Global;

impl PutOp {
    /// The op of a PutObject, made in this Unix second, on a store over this set. It has done nothing yet.
    pub fn new(alloc: Global, set: SetPlan, call: &Call, now: u64) -> Result<PutOp, NoMemory>
        requires put { IsPut call.now }
        requires moment { IsMoment now }
        ensures set { IfOk result (λ op. ⟦<PutOp as Op>⟧.set op ≡ set) }
        ensures task { IfOk result (λ op. ⟦<PutOp as Op>⟧.asked op ≡ record { call = call.now; now = now }) }
        ensures taken { IfOk result (λ op. ⟦<PutOp as Op>⟧.taken op ≡ 0) }
        ensures begins { IfOk result (λ op. (slot : ℕ) × (slot < 64) × ⟦<PutOp as Op>⟧.stands op (no_claim slot) []) }
    {
        match call {
            Call::Put {
                at,
                kind,
                md5,
                length,
            } => {
                let target = PutTarget::object(alloc, at, kind)?;
                PutOp::of(alloc, set, target, *md5, *length, now)
            }
            _ => Err(NoMemory),
        }
    }

    /// The op of a put of this target.
    fn of(
        alloc: Global,
        set: SetPlan,
        target: PutTarget,
        md5: Option<[u8; 16]>,
        long: u64,
        now: u64,
    ) -> Result<PutOp, NoMemory>
        requires key { IsKey (key_of target) }
        requires kind { length (kind_of target) ≤ longest_kind }
        requires few { long ≤ most_body }
        requires moment { IsMoment now }
        ensures { IfOk result (IsNewPut set target md5 long now) }
    {
        let name = bucket_name(alloc, &target.key().bucket)?;
        let register = target.register(alloc)?;
        Ok(PutOp {
            set,
            target,
            md5,
            long,
            name,
            register,
            now,
            read: 0,
            state: PutState::Looking,
            clearing: Clearing::none(alloc),
        })
    }

    /// Whether the section that commits comes next: the stage of the body is over, and all is staged. It takes no memory.
    pub fn at_commit(&self) -> bool
        ensures yes { IsTrue result → IsAtCommit self.entry.now }
        ensures no { result ≡ false → IsAtCommit self.entry.now → ⊥ }
    {
        match &self.state {
            PutState::Staging(work) => match work.next {
                StageNext::Finish => work.stage.succeeds(),
                StageNext::Fill | StageNext::Step => false,
            },
            PutState::Looking
            | PutState::Beginning(_)
            | PutState::Dropping(_, _)
            | PutState::Draining(_)
            | PutState::Telling(_)
            | PutState::Told(_) => false,
        }
    }
}

/// The next step of a put whose stage has this next.
fn work_next(next: StageNext, slot: u8) -> OpNext
    ensures { result ≡ work_step slot next }
{
    match next {
        StageNext::Fill => OpNext::Feed,
        StageNext::Step => OpNext::Data,
        StageNext::Finish => OpNext::Section(slot),
    }
}

impl Op for PutOp {
    ghost set = { λ op. op.set };

    ghost Asked = { Task };

    ghost asked = { λ op. task_of (ask_of op) };

    ghost owed = { λ set task cut log. Pays set task cut log };

    ghost stated = { λ task. stated_length task.call };

    ghost step = { λ op. step_of op };

    ghost left = { λ op. left_of op };

    ghost taken = { λ op. op.read };

    ghost stands = { λ op claim log. PutStands op claim log };

    ghost cut_at = { λ op. cut_of op.state };

    fn next(&self) -> OpNext {
        match &self.state {
            PutState::Looking => OpNext::Section(bucket_slot(&self.target.key().bucket)),
            PutState::Beginning(_) | PutState::Dropping(_, _) => {
                OpNext::Section(key_slot(self.target.key()))
            }
            PutState::Staging(work) => work_next(work.next, key_slot(self.target.key())),
            PutState::Draining(_) => OpNext::Feed,
            PutState::Telling(_) => OpNext::Tell,
            PutState::Told(_) => self.clearing.next(key_slot(self.target.key())),
        }
    }

    fn section<D: Drive, A: Audit>(
        &mut self,
        alloc: Global,
        slot: &mut Slot<D, A>,
        disks: &mut [D],
    ) -> Option<Stub> {
        match &self.state {
            PutState::Looking => self.look(alloc, slot, disks),
            PutState::Beginning(mode) => {
                let mode = *mode;
                self.begin(alloc, slot, mode)
            }
            PutState::Staging(_) => self.end(alloc, slot, disks),
            PutState::Dropping(_, _) => self.give_up(slot),
            PutState::Draining(_) | PutState::Telling(_) => unreachable!(),
            PutState::Told(_) => {
                self.clear(alloc, slot);
                None
            }
        }
    }

    fn barred(&mut self, why: Barred) {
        if let PutState::Told(_) = &self.state {
            self.clearing.pass_over();
        } else {
            let state = self.moved_out();
            self.state = barred_after(state, why, self.read, self.long);
        }
    }

    fn data<D: Drive>(&mut self, _alloc: Global, disks: &mut [D]) {
        let OpNext::Data = self.next() else {
            return;
        };
        if let PutState::Told(_) = &self.state {
            self.clearing.remove(disks);
        } else {
            self.work_on(disks);
        }
    }

    fn feed<F: Feed>(&mut self, alloc: Global, feed: &mut F) {
        let state = self.moved_out();
        let PutFed { state, read } = fed(alloc, state, self.read, self.long, feed);
        self.read = read;
        self.state = state;
    }

    fn tell<T: Teller>(&mut self, _alloc: Global, teller: &mut T) {
        if let PutState::Telling(reply) = &self.state {
            let cut = tell_head(teller, reply);
            self.state = PutState::Told(cut);
        }
    }

    fn cut(&self) -> Option<Cut> {
        match &self.state {
            PutState::Told(cut) => *cut,
            PutState::Looking
            | PutState::Beginning(_)
            | PutState::Staging(_)
            | PutState::Dropping(_, _)
            | PutState::Draining(_)
            | PutState::Telling(_) => None,
        }
    }
}
