//! What a PutObject does after each of its sections.

ghost use Rattle.std.specs.Prelude.{◌≡◌};
ghost use Rattle.put_stage.specs.Steps.{MayFinish};
ghost use Rattle.object_ops.specs.PutOutcome.{AfterCommit, AfterLook, BarredAfter, BarredAt, BarredEnd, Ends, OwesNext, RefusedBegin, refusal_of_stage};

use crate::put_state::{PutState, Work};
use crate::put_target::PutTarget;
use call_types::{Cut, Mode, Refusal, Reply};
use op_steps::{Looked, call_refusal};
use put_stage::{Stage, StageFault};
use receipts::Barred;
use slot_core::{Commit, Committed, SlotFault};
use stamp_id::VersionId;
use std::alloc::Global;

/// How far it is once it has a reply: the rest of the body is taken first.
pub(crate) fn owing(reply: Reply, read: u64, long: u64) -> PutState
    ensures { OwesNext reply read long result }
{
    if read < long {
        PutState::Draining(reply)
    } else {
        PutState::Telling(reply)
    }
}

/// How far it is after the look at its bucket.
pub(crate) fn after_look(looked: Looked, long: u64) -> PutState
    ensures { AfterLook looked long result }
{
    match looked {
        Looked::There(mode) => PutState::Beginning(mode),
        Looked::Refused(why) => owing(Reply::Refused(why), 0, long),
        Looked::LacksMemory => PutState::Told(Some(Cut::NoMemory)),
    }
}

/// How far it is where the begin of its put is refused: only its slot's numbers have a reply.
pub(crate) fn after_begin(fault: SlotFault, long: u64) -> PutState
    ensures { RefusedBegin fault long result }
{
    match fault {
        SlotFault::SeqSpent => owing(Reply::Refused(Refusal::SeqSpent), 0, long),
        SlotFault::Quorum(_)
        | SlotFault::Key(_)
        | SlotFault::AuditFailed { .. }
        | SlotFault::NoMemory
        | SlotFault::NotInFlight(_) => PutState::Told(Some(Cut::NoMemory)),
    }
}

/// How far it is where its look or the begin of its put can't be done.
fn barred_begin(why: Barred, read: u64, long: u64) -> PutState
    ensures { BarredAt why read long result }
{
    match why {
        Barred::Spent => owing(Reply::Refused(Refusal::SeqSpent), read, long),
        Barred::NoMemory => PutState::Told(Some(Cut::NoMemory)),
    }
}

/// How far it is where the end of its put can't be done. Where there is no memory for its receipt the put is given up; a slot whose turns are spent does that
/// neither, and lists it still.
fn barred_end(work: Work, why: Barred, read: u64, long: u64) -> PutState
    ensures { BarredEnd work why read long result }
{
    match why {
        Barred::Spent => owing(Reply::Refused(Refusal::SeqSpent), read, long),
        Barred::NoMemory => PutState::Dropping(work.flight, Cut::NoMemory),
    }
}

/// How far it is where any section can't be done: a put that is given up goes without it.
pub(crate) fn barred_after(state: PutState, why: Barred, read: u64, long: u64) -> PutState
    ensures { BarredAfter state why read long result }
{
    match state {
        PutState::Staging(work) => barred_end(work, why, read, long),
        PutState::Dropping(_flight, cut) => PutState::Told(Some(cut)),
        _ => barred_begin(why, read, long),
    }
}

/// How a put ends once its stage is over.
#[derive(Drop)]
pub(crate) enum PutEnd {
    /// This is committed.
    Commits(Commit),
    /// It is given up, and the call refused for this.
    GivesUp(Refusal),
    /// It is given up, since there was not enough memory.
    LacksMemory,
}

/// The refusal of the call that a stage's is, if it is one.
fn stage_refusal(fault: &StageFault) -> Option<Refusal>
    ensures { result ≡ refusal_of_stage fault.now }
{
    match fault {
        StageFault::WriteQuorum(whys) => Some(Refusal::WriteQuorum(*whys)),
        StageFault::BadDigest { stated, computed } => Some(Refusal::BadDigest {
            stated: *stated,
            computed: *computed,
        }),
        StageFault::BodyCut | StageFault::ReadFault | StageFault::NoMemory => None,
    }
}

/// How a put of this flight's id ends, whose stage is over.
pub(crate) fn end_of(
    alloc: Global,
    target: &PutTarget,
    mode: Mode,
    id: VersionId,
    stage: Stage,
) -> PutEnd
    requires { MayFinish stage }
    ensures { Ends target.now mode id stage result }
{
    match stage.finish() {
        Ok(staged) => match target.deed(alloc, mode, id, &staged) {
            Ok(deed) => PutEnd::Commits(deed),
            Err(_) => PutEnd::LacksMemory,
        },
        Err(fault) => match stage_refusal(&fault) {
            Some(why) => PutEnd::GivesUp(why),
            None => PutEnd::LacksMemory,
        },
    }
}

/// How far it is after its commit. Want of memory has no reply.
pub(crate) fn put_committed(answer: Result<Committed, SlotFault>) -> PutState
    ensures { AfterCommit answer result }
{
    match answer {
        Ok(made) => PutState::Telling(made.done),
        Err(fault) => match call_refusal(&fault) {
            Some(why) => PutState::Telling(Reply::Refused(why)),
            None => PutState::Told(Some(Cut::NoMemory)),
        },
    }
}
