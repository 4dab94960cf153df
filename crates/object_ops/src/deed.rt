//! How the op of a deed begins, its steps, and what it does after each of them.

ghost use Rattle.std.specs.Prelude.{◌≡◌, ◌<◌, ℕ, [], IfOk, ◌≤◌, IsUtf8, length, Option};
ghost use Rattle.desk_base.specs.Calls.{IsKey, stated_length};
ghost use Rattle.version_list.specs.State.{IsKind, IsMoment};
ghost use Rattle.op_steps.specs.Claims.{no_claim};
ghost use Rattle.object_ops.specs.Deeds.{IsDeed, IsNewDeed, AfterCommit, AfterLook, barred_state, key_deed, DeedStands, cut_of, deed_task, left_of, step_of};
ghost use Rattle.object_ops.specs.KeyDeeds.{act_of, kind_of};
ghost use Rattle.slot_history.specs.Names.{key_name, bucket_slot, key_slot};
ghost use Rattle.drive_base.specs.declared.drive.TheConstants.{LONGEST_NAME};
ghost use Rattle.desk_base.specs.Answering.{Task};
ghost use Rattle.receipts.specs.Paying.{Pays};
ghost use Rattle.object_ops.specs.declared.deed_op.DeedState.TheVariants as state;

use crate::clearing::Clearing;
use crate::deed_op::{DeedOp, DeedState, KeyDeed};
use crate::key_act::KeyAct;
use crate::telling::tell_head;
use audit_trail::Audit;
use call_types::{Cut, Feed, Key, Mode, Refusal, Reply};
use desk_base::{Call, Teller};
use drive_base::{Drive, SetPlan};
use fault_base::NoMemory;
use op_steps::{Looked, Op, OpNext, call_refusal, look_at_bucket};
use receipts::Barred;
use slot_core::{Commit, Committed, Slot, SlotFault, Stub};
use slot_history::{bucket_name, bucket_slot, key_slot};
use std::alloc::Global;

impl DeedOp {
    /// The op of a call that is served as a deed, made in this Unix second, on a store over this set. It has done nothing yet.
    pub fn new(alloc: Global, set: SetPlan, call: &Call, now: u64) -> Result<DeedOp, NoMemory>
        requires deed { IsDeed call.now }
        requires moment { IsMoment now }
        ensures set { IfOk result (λ op. ⟦<DeedOp as Op>⟧.set op ≡ set) }
        ensures task { IfOk result (λ op. ⟦<DeedOp as Op>⟧.asked op ≡ record { call = call.now; now = now }) }
        ensures taken { IfOk result (λ op. ⟦<DeedOp as Op>⟧.taken op ≡ 0) }
        ensures begins { IfOk result (λ op. (slot : ℕ) × (slot < 64) × ⟦<DeedOp as Op>⟧.stands op (no_claim slot) []) }
    {
        match call {
            Call::Delete { at, pick } => DeedOp::of(alloc, set, at, KeyAct::Delete(*pick), now),
            Call::Create { at, kind } => {
                let own = kind.clone()?;
                DeedOp::of(alloc, set, at, KeyAct::Create(own), now)
            }
            Call::Abort { at, upload } => {
                DeedOp::of(alloc, set, at, KeyAct::Abort(*upload), now)
            }
            // The premise has no other call.
            _ => Err(NoMemory),
        }
    }

    /// The op that does this to this key.
    fn of(alloc: Global, set: SetPlan, at: &Key, ask: KeyAct, now: u64) -> Result<DeedOp, NoMemory>
        requires key { IsKey at.now }
        requires kind { IsKind (kind_of (act_of ask)) }
        requires moment { IsMoment now }
        ensures { IfOk result (IsNewDeed set at.now ask now) }
    {
        let name = bucket_name(alloc, &at.bucket)?;
        let key = at.clone()?;
        Ok(DeedOp {
            set,
            at: key,
            ask,
            name,
            now,
            state: DeedState::Looking,
            clearing: Clearing::none(alloc),
        })
    }
}

/// The deed that does this to a key, in a bucket of this mode.
fn deed_of(alloc: Global, at: &Key, mode: Mode, ask: &KeyAct) -> Result<KeyDeed, NoMemory>
    requires bucket { IsUtf8 at.now.bucket }
    requires key { IsUtf8 at.now.key }
    requires short { length (key_name at.now) ≤ LONGEST_NAME }
    requires kind { IsKind (kind_of (act_of ask.now)) }
    ensures { IfOk result (λ deed. deed.commit ≡ key_deed at.now (act_of ask.now) mode) }
{
    let key = at.clone()?;
    let act = ask.act()?;
    let commit = Commit::Key { at: key, mode, act };
    Ok(KeyDeed { commit })
}

/// How far it is after the look at its bucket.
pub(crate) fn after_look(alloc: Global, at: &Key, ask: &KeyAct, looked: Looked) -> DeedState
    requires bucket { IsUtf8 at.now.bucket }
    requires key { IsUtf8 at.now.key }
    requires short { length (key_name at.now) ≤ LONGEST_NAME }
    requires kind { IsKind (kind_of (act_of ask.now)) }
    ensures { AfterLook at.now (act_of ask.now) looked result }
{
    match looked {
        Looked::There(mode) => match deed_of(alloc, at, mode, ask) {
            Ok(deed) => DeedState::Committing(deed),
            Err(_) => DeedState::Told(Some(Cut::NoMemory)),
        },
        Looked::Refused(why) => DeedState::Telling(Reply::Refused(why)),
        Looked::LacksMemory => DeedState::Told(Some(Cut::NoMemory)),
    }
}

/// How far it is after its commit. Want of memory has no reply.
pub(crate) fn after_commit(answer: Result<Committed, SlotFault>) -> DeedState
    ensures { AfterCommit answer result }
{
    match answer {
        Ok(made) => DeedState::Telling(made.done),
        Err(fault) => match call_refusal(&fault) {
            Some(why) => DeedState::Telling(Reply::Refused(why)),
            None => DeedState::Told(Some(Cut::NoMemory)),
        },
    }
}

/// How far it is where its look or its commit can't be done.
pub(crate) fn barred_state(why: Barred) -> DeedState
    ensures { result ≡ barred_state why }
{
    match why {
        Barred::Spent => DeedState::Telling(Reply::Refused(Refusal::SeqSpent)),
        Barred::NoMemory => DeedState::Told(Some(Cut::NoMemory)),
    }
}

impl Op for DeedOp {
    ghost set = { λ op. op.set };

    ghost Asked = { Task };

    ghost asked = { λ op. deed_task op.at op.ask op.now };

    ghost owed = { λ set task cut log. Pays set task cut log };

    ghost stated = { λ task. stated_length task.call };

    ghost step = { λ op. step_of op };

    ghost left = { λ op. left_of op };

    ghost taken = { λ op. 0 };

    ghost stands = { λ op claim log. DeedStands op claim log };

    ghost cut_at = { λ op. cut_of op.state };

    fn next(&self) -> OpNext {
        match &self.state {
            DeedState::Looking => OpNext::Section(bucket_slot(&self.at.bucket)),
            DeedState::Committing(_) => OpNext::Section(key_slot(&self.at)),
            DeedState::Telling(_) => OpNext::Tell,
            DeedState::Told(_) => self.clearing.next(key_slot(&self.at)),
        }
    }

    fn section<D: Drive, A: Audit>(
        &mut self,
        alloc: Global,
        slot: &mut Slot<D, A>,
        disks: &mut [D],
    ) -> Option<Stub> {
        match &self.state {
            DeedState::Looking => {
                let look = look_at_bucket(alloc, slot, disks, self.name.as_str());
                self.state = after_look(alloc, &self.at, &self.ask, look.looked);
                look.stub
            }
            DeedState::Committing(deed) => {
                let turn = slot.commit(alloc, disks, &deed.commit, None, self.now);
                self.state = after_commit(turn.answer);
                self.clearing.begin();
                turn.stub
            }
            DeedState::Telling(_) => unreachable!(),
            DeedState::Told(_) => {
                self.clearing
                    .take(alloc, &self.set, key_slot(&self.at), slot);
                None
            }
        }
    }

    fn barred(&mut self, why: Barred) {
        if let DeedState::Told(_) = &self.state {
            self.clearing.pass_over();
        } else {
            self.state = barred_state(why);
        }
    }

    fn data<D: Drive>(&mut self, _alloc: Global, disks: &mut [D]) {
        let OpNext::Data = self.next() else {
            return;
        };
        self.clearing.remove(disks);
    }

    fn feed<F: Feed>(&mut self, _alloc: Global, _feed: &mut F) {}

    fn tell<T: Teller>(&mut self, _alloc: Global, teller: &mut T) {
        if let DeedState::Telling(reply) = &self.state {
            let cut = tell_head(teller, reply);
            self.state = DeedState::Told(cut);
        }
    }

    fn cut(&self) -> Option<Cut> {
        match &self.state {
            DeedState::Looking | DeedState::Committing(_) | DeedState::Telling(_) => None,
            DeedState::Told(cut) => *cut,
        }
    }
}
