//! The sections of a PutObject.

ghost use Rattle.std.specs.Prelude.{◌≡◌, ◌+◌, ◌<◌, ◌^◌, List, None, Option, length, true};
ghost use Rattle.call_types.specs.declared.feed.Cut.{Cut as CutSpec};
ghost use Rattle.drive_base.specs.View.{DriveView, views};
ghost use Rattle.put_stage.specs.declared.stage.StageNext.TheVariants.{Finish};
ghost use Rattle.slot_history.specs.Names.{bucket_slot, key_slot};
ghost use Rattle.slot_core.specs.Numbers.{NumbersMove};
ghost use Rattle.slot_core.specs.Views.{numbers_of};
ghost use Rattle.slot_core.specs.declared.holding.Flight.{Flight as FlightSpec};
ghost use Rattle.op_steps.specs.Store.{slot_seen};
ghost use Rattle.op_steps.specs.Words.{TurnsSo};
ghost use Rattle.object_ops.specs.PutStands.{IsSamePut, PutStands, left_of};
ghost use Rattle.object_ops.specs.PutTarget.{key_of};
ghost use Rattle.object_ops.specs.declared.put_state.PutState.TheVariants as state;
ghost use Rattle.object_ops.specs.declared.put_state.Work.{Work as WorkSpec};

use crate::put_op::PutOp;
use crate::put_outcome::{PutEnd, after_look, end_of, put_committed};
use crate::put_stage_calls::begun;
use crate::put_state::{PutState, go_to};
use audit_trail::Audit;
use call_types::{Cut, Mode, Reply};
use drive_base::Drive;
use op_steps::look_at_bucket;
use slot_core::{Slot, Stub, Turn};
use slot_history::key_slot;
use std::alloc::Global;
use std::mem;

impl PutOp {
    /// How far it is. What is left behind is that nothing is to be told.
    pub(crate) fn moved_out(&mut self) -> PutState
        ensures out { result ≡ self.old.state }
        ensures state { self.new.state ≡ state.Told None }
        ensures same { IsSamePut self.old self.new }
        ensures read { self.new.read ≡ self.old.read }
        ensures clearing { self.new.clearing ≡ self.old.clearing }
    {
        mem::replace(&mut self.state, PutState::Told(None))
    }

    /// Looks at the bucket.
    pub(crate) fn look<D: Drive, A: Audit>(
        &mut self,
        alloc: Global,
        slot: &mut Slot<D, A>,
        disks: &mut [D],
    ) -> Option<Stub>
        requires state { self.old.state ≡ state.Looking }
        requires next { (numbers_of slot.old).index ≡ bucket_slot (key_of self.old.target).bucket }
        requires turns { (numbers_of slot.old).turns + 1 < 2 ^ 64 }
        requires slot_set { (numbers_of slot.old).set ≡ self.old.set }
        requires disks { length disks.old ≡ self.old.set.drives }
        ensures same { IsSamePut self.old self.new }
        ensures left { left_of self.new < left_of self.old }
        ensures read { self.new.read ≡ self.old.read }
        ensures disks { length disks.new ≡ length disks.old }
        ensures numbers { NumbersMove (numbers_of slot.old) (numbers_of slot.new) }
        ensures turns { TurnsSo D.Drive (PutStands self.old) (PutStands self.new) result
            (slot_seen A.entries A.count slot.old) (slot_seen A.entries A.count slot.new) (views D.Drive disks.old) (views D.Drive disks.new) }
    {
        let look = look_at_bucket(alloc, slot, disks, self.name.as_str());
        go_to(&mut self.state, after_look(look.looked, self.long));
        look.stub
    }

    /// Begins the put of the key, and the stage of its body. Where there is no memory for the stage the put is given up.
    pub(crate) fn begin<D: Drive, A: Audit>(
        &mut self,
        alloc: Global,
        slot: &mut Slot<D, A>,
        mode: Mode,
    ) -> Option<Stub>
        requires state { self.old.state ≡ state.Beginning mode }
        requires next { (numbers_of slot.old).index ≡ key_slot (key_of self.old.target) }
        requires turns { (numbers_of slot.old).turns + 1 < 2 ^ 64 }
        requires slot_set { (numbers_of slot.old).set ≡ self.old.set }
        ensures same { IsSamePut self.old self.new }
        ensures left { left_of self.new < left_of self.old }
        ensures read { self.new.read ≡ self.old.read }
        ensures numbers { NumbersMove (numbers_of slot.old) (numbers_of slot.new) }
        ensures turns { (disks : List DriveView) → length disks ≡ self.old.set.drives → TurnsSo D.Drive (PutStands self.old) (PutStands self.new) result
            (slot_seen A.entries A.count slot.old) (slot_seen A.entries A.count slot.new) disks disks }
    {
        let Turn { answer, stub } = slot.begin_put(alloc, self.target.key());
        let state = begun(
            alloc,
            self.set,
            self.register.as_str(),
            self.long,
            self.md5,
            mode,
            answer,
        );
        go_to(&mut self.state, state);
        stub
    }

    /// Ends the put, whose stage is over: it is committed, or given up.
    pub(crate) fn end<D: Drive, A: Audit>(
        &mut self,
        alloc: Global,
        slot: &mut Slot<D, A>,
        disks: &mut [D],
    ) -> Option<Stub>
        requires state { (work : WorkSpec) × (self.old.state ≡ state.Staging work) × (work.next ≡ Finish) }
        requires next { (numbers_of slot.old).index ≡ key_slot (key_of self.old.target) }
        requires turns { (numbers_of slot.old).turns + 1 < 2 ^ 64 }
        requires slot_set { (numbers_of slot.old).set ≡ self.old.set }
        requires disks { length disks.old ≡ self.old.set.drives }
        ensures same { IsSamePut self.old self.new }
        ensures left { left_of self.new < left_of self.old }
        ensures read { self.new.read ≡ self.old.read }
        ensures disks { length disks.new ≡ length disks.old }
        ensures numbers { NumbersMove (numbers_of slot.old) (numbers_of slot.new) }
        ensures turns { TurnsSo D.Drive (PutStands self.old) (PutStands self.new) result
            (slot_seen A.entries A.count slot.old) (slot_seen A.entries A.count slot.new) (views D.Drive disks.old) (views D.Drive disks.new) }
    {
        let PutState::Staging(work) = self.moved_out() else {
            unreachable!()
        };
        self.clearing.begin();
        let mode = work.mode;
        let flight = work.flight;
        match end_of(alloc, &self.target, mode, flight.id(), work.stage) {
            PutEnd::Commits(deed) => {
                let turn = slot.commit(alloc, disks, &deed, Some(flight), self.now);
                drop(deed);
                go_to(&mut self.state, put_committed(turn.answer));
                turn.stub
            }
            PutEnd::GivesUp(why) => {
                go_to(&mut self.state, PutState::Telling(Reply::Refused(why)));
                slot.drop_put(flight).stub
            }
            PutEnd::LacksMemory => {
                go_to(&mut self.state, PutState::Told(Some(Cut::NoMemory)));
                slot.drop_put(flight).stub
            }
        }
    }

    /// Gives the put up, and the call is cut.
    pub(crate) fn give_up<D: Drive, A: Audit>(&mut self, slot: &mut Slot<D, A>) -> Option<Stub>
        requires state { (flight : FlightSpec) × (cut : CutSpec) × (self.old.state ≡ state.Dropping flight cut) }
        requires next { (numbers_of slot.old).index ≡ key_slot (key_of self.old.target) }
        requires turns { (numbers_of slot.old).turns + 1 < 2 ^ 64 }
        requires slot_set { (numbers_of slot.old).set ≡ self.old.set }
        ensures same { IsSamePut self.old self.new }
        ensures left { left_of self.new < left_of self.old }
        ensures read { self.new.read ≡ self.old.read }
        ensures numbers { NumbersMove (numbers_of slot.old) (numbers_of slot.new) }
        ensures turns { (disks : List DriveView) → TurnsSo D.Drive (PutStands self.old) (PutStands self.new) result
            (slot_seen A.entries A.count slot.old) (slot_seen A.entries A.count slot.new) disks disks }
    {
        let PutState::Dropping(flight, cut) = self.moved_out() else {
            unreachable!()
        };
        self.clearing.begin();
        go_to(&mut self.state, PutState::Told(Some(cut)));
        slot.drop_put(flight).stub
    }

    /// Takes trash of the key's slot.
    pub(crate) fn clear<D: Drive, A: Audit>(&mut self, alloc: Global, slot: &mut Slot<D, A>)
        requires state { (cut : Option CutSpec) × (self.old.state ≡ state.Told cut) }
        requires takes { self.old.clearing.takes ≡ true }
        requires next { (numbers_of slot.old).index ≡ key_slot (key_of self.old.target) }
        requires turns { (numbers_of slot.old).turns + 1 < 2 ^ 64 }
        ensures same { IsSamePut self.old self.new }
        ensures left { left_of self.new < left_of self.old }
        ensures read { self.new.read ≡ self.old.read }
        ensures numbers { NumbersMove (numbers_of slot.old) (numbers_of slot.new) }
        ensures turns { (disks : List DriveView) → TurnsSo D.Drive (PutStands self.old) (PutStands self.new) None
            (slot_seen A.entries A.count slot.old) (slot_seen A.entries A.count slot.new) disks disks }
    {
        self.clearing
            .take(alloc, &self.set, key_slot(self.target.key()), slot);
    }
}
