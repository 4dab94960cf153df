//! How the stage of a put begins, takes the bytes of the body, and calls drives.

ghost use Rattle.std.specs.Prelude.{◌≡◌, ◌<◌, ◌≤◌, ◌^◌, length, ◌+◌, ℕ};
ghost use Rattle.drive_base.specs.View.{views};
ghost use Rattle.put_stage.specs.declared.stage.StageNext.TheVariants.{Step};
ghost use Rattle.op_steps.specs.Words.{CallsSo};
ghost use Rattle.object_ops.specs.PutStands.{IsSamePut, PutStands, left_of};
ghost use Rattle.object_ops.specs.PutStageCalls.{BeginsTo, BeginsWork, IsWorkOf, StepsWork, DrainsTo, FeedsTo, FillsTo, stage_cut};
ghost use Rattle.object_ops.specs.declared.put_state.PutState.TheVariants as state;
ghost use Rattle.object_ops.specs.declared.put_state.Work.{Work as WorkSpec};
ghost use Rattle.desk_base.specs.Calls.{most_body};
ghost use Rattle.put_stage.specs.Steps.{MayFill};
ghost use Rattle.object_ops.specs.Put.{drives_by, long_by, reach_by};

use crate::put_op::PutOp;
use crate::put_outcome::{after_begin, owing};
use crate::put_state::{PutState, Work, go_to};
use body_print::data_plan;
use call_types::{Cut, Feed, Mode, Reply};
use drive_base::{Drive, SetPlan};
use put_stage::{Stage, StageFault, StageNext};
use slot_core::{Flight, SlotFault};
use std::alloc::Global;

impl Work {
    /// The put of a flight, with this stage of its body.
    pub(crate) fn new(mode: Mode, flight: Flight, stage: Stage) -> Work
        ensures { IsWorkOf mode flight stage result }
    {
        let next = stage.next();
        Work {
            mode,
            flight,
            stage,
            next,
        }
    }

    /// It did one call of a drive, where one was due.
    fn stepped<D: Drive>(self, disks: &mut [D]) -> Work
        requires disks { length disks.old ≡ self.stage.load.set.drives }
        requires due { self.next ≡ Step }
        ensures disks { length disks.new ≡ length disks.old }
        ensures steps { StepsWork D.Drive self result disks.old disks.new }
    {
        let mode = self.mode;
        let flight = self.flight;
        let mut stage = self.stage;
        stage.step(disks);
        Work::new(mode, flight, stage)
    }
}

/// How far a put is with its flight: its stage begins, or it is given up, where there is no memory for that.
fn staged(
    alloc: Global,
    set: SetPlan,
    register: &str,
    long: u64,
    md5: Option<[u8; 16]>,
    mode: Mode,
    flight: Flight,
) -> PutState
    requires few { long ≤ most_body }
    requires short { length register.now < 2 ^ 16 }
    ensures { BeginsWork set register.now long md5 mode flight result }
{
    let id = flight.id();
    match Stage::new(alloc, data_plan(set, id), id, register, long, md5) {
        Ok(stage) => PutState::Staging(Work::new(mode, flight, stage)),
        Err(_) => PutState::Dropping(flight, Cut::NoMemory),
    }
}

/// How far a put is after its begin, by what that answered.
pub(crate) fn begun(
    alloc: Global,
    set: SetPlan,
    register: &str,
    long: u64,
    md5: Option<[u8; 16]>,
    mode: Mode,
    answer: Result<Flight, SlotFault>,
) -> PutState
    requires few { long ≤ most_body }
    requires short { length register.now < 2 ^ 16 }
    ensures { BeginsTo set register.now long md5 mode answer result }
{
    match answer {
        Ok(flight) => staged(alloc, set, register, long, md5, mode, flight),
        Err(fault) => after_begin(fault, long),
    }
}

impl PutOp {
    /// Does the call of a drive that is due for the stage.
    pub(crate) fn work_on<D: Drive>(&mut self, disks: &mut [D])
        requires state { (work : WorkSpec) × (self.old.state ≡ state.Staging work) × (work.next ≡ Step) }
        requires disks { length disks.old ≡ self.old.set.drives }
        ensures same { IsSamePut self.old self.new }
        ensures left { left_of self.new < left_of self.old }
        ensures read { self.new.read ≡ self.old.read }
        ensures disks { length disks.new ≡ length disks.old }
        ensures calls { CallsSo (PutStands self.old) (PutStands self.new) self.old.set (views D.Drive disks.old) (views D.Drive disks.new) }
    {
        if let PutState::Staging(work) = self.moved_out() {
            go_to(&mut self.state, PutState::Staging(work.stepped(disks)));
        }
    }
}

/// The bytes that are asked of a feed at once, where they are of no use.
const PIECE: usize = 16384;

/// A state, and how many bytes of the body were taken.
#[derive(Drop)]
pub(crate) struct PutFed {
    /// How far it is.
    pub(crate) state: PutState,
    /// The bytes that were taken.
    pub(crate) read: u64,
}

/// Why a call is cut whose fill was refused.
fn stage_cut(fault: &StageFault, read: u64, long: u64) -> Cut
    ensures { result ≡ stage_cut fault.now read long }
{
    match fault {
        StageFault::BodyCut => Cut::BodyCut { read, stated: long },
        StageFault::ReadFault => Cut::ReadFault,
        StageFault::NoMemory | StageFault::WriteQuorum(_) | StageFault::BadDigest { .. } => {
            Cut::NoMemory
        }
    }
}

/// Fills a stage with the next bytes.
fn fill<F: Feed>(alloc: Global, work: Work, long: u64, feed: &mut F) -> PutFed
    requires may { MayFill work.stage }
    requires feed { (F.seen feed.old).given + work.stage.load.left ≡ (F.seen feed.old).stated }
    requires stated { (F.seen feed.old).stated ≡ long }
    ensures fills { FillsTo work result.state (record { view = F.seen feed.old; faults = F.faults feed.old }) (record { view = F.seen feed.new; faults = F.faults feed.new }) }
    ensures counted { long_by long result.read result.state ≡ long }
    ensures reached { reach_by result.read result.state ≤ long }
    ensures over { (n : ℕ) → work.stage.load.set.drives ≡ n → drives_by n result.state ≡ n }
    ensures given { (F.seen feed.new).given ≡ result.read }
    ensures stated { (F.seen feed.new).stated ≡ (F.seen feed.old).stated }
{
    let mode = work.mode;
    let flight = work.flight;
    let mut stage = work.stage;
    match stage.fill(alloc, feed) {
        Ok(()) => {
            let read = long - stage.left();
            PutFed {
                state: PutState::Staging(Work::new(mode, flight, stage)),
                read,
            }
        }
        Err(fault) => {
            let read = long - stage.left();
            PutFed {
                state: PutState::Dropping(flight, stage_cut(&fault, read, long)),
                read,
            }
        }
    }
}

/// Takes the next bytes, which are of no use, before a reply.
fn drain<F: Feed>(reply: Reply, read: u64, long: u64, feed: &mut F) -> PutFed
    requires some { read < long }
    requires given { (F.seen feed.old).given ≡ read }
    requires stated { (F.seen feed.old).stated ≡ long }
    ensures drains { DrainsTo reply read long result (record { view = F.seen feed.old; faults = F.faults feed.old }) (record { view = F.seen feed.new; faults = F.faults feed.new }) }
    ensures counted { long_by long result.read result.state ≡ long }
    ensures reached { reach_by result.read result.state ≤ long }
    ensures over { (n : ℕ) → drives_by n result.state ≡ n }
    ensures given { (F.seen feed.new).given ≡ result.read }
    ensures stated { (F.seen feed.new).stated ≡ (F.seen feed.old).stated }
{
    let mut piece = [0; PIECE];
    let room = (long - read).min(PIECE as u64) as usize;
    match feed.take(&mut piece[..room]) {
        Ok(count) => {
            let taken = read + count as u64;
            PutFed {
                state: owing(reply, taken, long),
                read: taken,
            }
        }
        Err(cut) => PutFed {
            state: PutState::Told(Some(cut)),
            read,
        },
    }
}

/// Takes the next bytes, where some are due.
pub(crate) fn fed<F: Feed>(
    alloc: Global,
    state: PutState,
    read: u64,
    long: u64,
    feed: &mut F,
) -> PutFed
    requires counted { long_by long read state ≡ long }
    requires reached { reach_by read state ≤ long }
    requires given { (F.seen feed.old).given ≡ read }
    requires stated { (F.seen feed.old).stated ≡ long }
    ensures feeds { FeedsTo state read long result (record { view = F.seen feed.old; faults = F.faults feed.old }) (record { view = F.seen feed.new; faults = F.faults feed.new }) }
    ensures counted { long_by long result.read result.state ≡ long }
    ensures reached { reach_by result.read result.state ≤ long }
    ensures over { (n : ℕ) → drives_by n state ≡ n → drives_by n result.state ≡ n }
    ensures given { (F.seen feed.new).given ≡ result.read }
    ensures stated { (F.seen feed.new).stated ≡ (F.seen feed.old).stated }
{
    match state {
        PutState::Staging(work) => match work.next {
            StageNext::Fill => fill(alloc, work, long, feed),
            StageNext::Step | StageNext::Finish => PutFed {
                state: PutState::Staging(work),
                read,
            },
        },
        PutState::Draining(reply) => drain(reply, read, long, feed),
        PutState::Looking
        | PutState::Beginning(_)
        | PutState::Dropping(_, _)
        | PutState::Telling(_)
        | PutState::Told(_) => PutFed { state, read },
    }
}
