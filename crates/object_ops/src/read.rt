//! HeadObject and GetObject: how they begin, and their steps.

ghost use Rattle.std.specs.Prelude.{◌≡◌, ◌<◌, ℕ, [], IfOk};
ghost use Rattle.desk_base.specs.Calls.{IsKey, stated_length};
ghost use Rattle.op_steps.specs.Claims.{no_claim};
ghost use Rattle.object_ops.specs.ReadStands.{IsRead, IsNewRead, StandsFor, read_task};
ghost use Rattle.desk_base.specs.Answering.{Task};
ghost use Rattle.receipts.specs.Paying.{Pays};
ghost use Rattle.object_ops.specs.Read.{barred_after, cut_of, left_of, step_of};

use crate::read_op::{ReadKind, ReadOp, ReadState, go_to};
use crate::read_outcome::{Begun, barred_after, begun_of, ending_of, looked_state};
use crate::read_pieces::put_in;
use crate::reading::{copied, pin_out, started_of};
use crate::telling::tell_head;
use audit_trail::Audit;
use call_types::{Cut, Feed, Key, Pick};
use desk_base::{Call, Teller};
use drive_base::{Drive, SetPlan};
use fault_base::NoMemory;
use op_steps::{Op, OpNext, look_at_bucket};
use receipts::Barred;
use seal_file::Text;
use slot_core::{Slot, Stub};
use slot_history::{bucket_name, bucket_slot, key_slot};
use std::alloc::Global;

impl ReadOp {
    /// The op of a HeadObject or a GetObject, made in this Unix second, on a store over this set. It has done nothing yet.
    pub fn new(alloc: Global, set: SetPlan, call: &Call, now: u64) -> Result<ReadOp, NoMemory>
        requires { IsRead call.now }
        ensures set { IfOk result (λ op. ⟦<ReadOp as Op>⟧.set op ≡ set) }
        ensures task { IfOk result (λ op. ⟦<ReadOp as Op>⟧.asked op ≡ record { call = call.now; now = now }) }
        ensures taken { IfOk result (λ op. ⟦<ReadOp as Op>⟧.taken op ≡ 0) }
        ensures begins { IfOk result (λ op. (slot : ℕ) × (slot < 64) × ⟦<ReadOp as Op>⟧.stands op (no_claim slot) []) }
    {
        match call {
            Call::Head { at, pick, matches } => {
                ReadOp::of(alloc, set, at, *pick, ReadKind::Head, matches, now)
            }
            Call::Get {
                at,
                pick,
                ask,
                matches,
            } => ReadOp::of(alloc, set, at, *pick, ReadKind::Get(*ask), matches, now),
            _ => Err(NoMemory),
        }
    }

    /// The op that asks this of a version of this key.
    fn of(
        alloc: Global,
        set: SetPlan,
        at: &Key,
        pick: Pick,
        kind: ReadKind,
        matches: &Option<Text>,
        now: u64,
    ) -> Result<ReadOp, NoMemory>
        requires { IsKey at.now }
        ensures { IfOk result (IsNewRead set at.now pick kind matches.now now) }
    {
        let name = bucket_name(alloc, &at.bucket)?;
        let key = at.clone()?;
        let own_matches = copied(matches)?;
        Ok(ReadOp {
            set,
            at: key,
            pick,
            kind,
            matches: own_matches,
            name,
            now,
            state: ReadState::Looking,
            pin: None,
            reading: None,
        })
    }
}

impl Op for ReadOp {
    ghost set = { λ op. op.set };

    ghost Asked = { Task };

    ghost asked = { λ op. read_task op };

    ghost owed = { λ set task cut log. Pays set task cut log };

    ghost stated = { λ task. stated_length task.call };

    ghost step = { λ op. step_of op.state op.at };

    ghost left = { λ op. left_of op.state op.reading };

    ghost taken = { λ op. 0 };

    ghost stands = { λ op claim log. StandsFor op claim log };

    ghost cut_at = { λ op. cut_of op.state };

    fn next(&self) -> OpNext {
        match &self.state {
            ReadState::Looking => OpNext::Section(bucket_slot(&self.at.bucket)),
            ReadState::Beginning(_) => OpNext::Section(key_slot(&self.at)),
            ReadState::Telling(_) => OpNext::Tell,
            ReadState::Fetching => OpNext::Data,
            ReadState::Giving => OpNext::Tell,
            ReadState::Ending(_) => OpNext::Section(key_slot(&self.at)),
            ReadState::Over(_) => OpNext::Done,
        }
    }

    fn section<D: Drive, A: Audit>(
        &mut self,
        alloc: Global,
        slot: &mut Slot<D, A>,
        disks: &mut [D],
    ) -> Option<Stub> {
        match &self.state {
            ReadState::Looking => {
                let look = look_at_bucket(alloc, slot, disks, self.name.as_str());
                self.state = looked_state(look.looked);
                look.stub
            }
            ReadState::Beginning(mode) => {
                let mode = *mode;
                let turn = slot.begin_read(alloc, disks, &self.at, mode, &self.pick);
                let begun = begun_of(
                    alloc,
                    &self.set,
                    &self.kind,
                    &self.matches,
                    started_of(turn.answer, mode),
                );
                let Begun {
                    state,
                    pin,
                    reading,
                } = begun;
                put_in(&mut self.reading, reading);
                self.pin = pin;
                go_to(&mut self.state, state);
                turn.stub
            }
            ReadState::Ending(cut) => {
                self.state = ReadState::Over(*cut);
                match pin_out(&mut self.pin) {
                    Some(pin) => slot.end_read(pin).stub,
                    None => None,
                }
            }
            ReadState::Telling(_) | ReadState::Fetching | ReadState::Giving | ReadState::Over(_) =>
                { None }
        }
    }

    fn barred(&mut self, why: Barred) {
        self.state = barred_after(&self.state, why);
    }

    fn data<D: Drive>(&mut self, alloc: Global, disks: &mut [D]) {
        match &self.state {
            ReadState::Fetching => self.fetch(alloc, disks),
            ReadState::Looking
            | ReadState::Beginning(_)
            | ReadState::Telling(_)
            | ReadState::Giving
            | ReadState::Ending(_)
            | ReadState::Over(_) => {}
        }
    }

    fn feed<F: Feed>(&mut self, _alloc: Global, _feed: &mut F) {}

    fn tell<T: Teller>(&mut self, _alloc: Global, teller: &mut T) {
        match &self.state {
            ReadState::Telling(reply) => {
                let cut = tell_head(teller, reply);
                self.state = ending_of(&self.pin, cut);
            }
            ReadState::Giving => self.tell_next(teller),
            ReadState::Looking
            | ReadState::Beginning(_)
            | ReadState::Fetching
            | ReadState::Ending(_)
            | ReadState::Over(_) => {}
        }
    }

    fn cut(&self) -> Option<Cut> {
        match &self.state {
            ReadState::Looking
            | ReadState::Beginning(_)
            | ReadState::Telling(_)
            | ReadState::Fetching
            | ReadState::Giving => None,
            ReadState::Ending(cut) | ReadState::Over(cut) => *cut,
        }
    }
}
