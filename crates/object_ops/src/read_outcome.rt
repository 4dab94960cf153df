//! What a HeadObject and a GetObject do after each of their steps.

ghost use Rattle.std.specs.Prelude.{◌≡◌, false};
ghost use Rattle.object_ops.specs.Read.{Looks, Plans, barred_after, barred_state, ending_of, fetched_state, lacks_pin};
ghost use Rattle.object_ops.specs.ReadStands.{Begins, told_state};
ghost use Rattle.object_ops.specs.ReadingPlan.{drives_of};

use crate::read_op::{ReadKind, ReadState};
use crate::reading::{Planned, Reading, Started, Stepped, planned_of};
use call_types::{Cut, Refusal, Reply};
use drive_base::SetPlan;
use op_steps::Looked;
use receipts::Barred;
use seal_file::Text;
use slot_core::Pin;
use std::alloc::Global;

/// How far an op is after its look.
pub(crate) fn looked_state(looked: Looked) -> ReadState
    ensures { Looks looked result }
{
    match looked {
        Looked::There(mode) => ReadState::Beginning(mode),
        Looked::Refused(why) => ReadState::Telling(Reply::Refused(why)),
        Looked::LacksMemory => ReadState::Over(Some(Cut::NoMemory)),
    }
}

/// How far it is after what was planned for a version, and its reading.
fn planned_state(planned: Planned) -> (ReadState, Option<Reading>)
    ensures { Plans planned result.0 result.1 }
{
    match planned {
        Planned::Tells(reply) => (ReadState::Telling(reply), None),
        Planned::Reads(reading) => (ReadState::Fetching, Some(reading)),
        Planned::LacksMemory => (ReadState::Ending(Some(Cut::NoMemory)), None),
    }
}

/// How far an op is after the begin of its read, with its pin and its reading.
#[derive(Drop)]
pub(crate) struct Begun {
    /// How far it is.
    pub(crate) state: ReadState,
    /// The pin, where a version was found.
    pub(crate) pin: Option<Pin>,
    /// The reading, where its body is read.
    pub(crate) reading: Option<Reading>,
}

/// How far an op is after the begin of its read.
pub(crate) fn begun_of(
    alloc: Global,
    set: &SetPlan,
    kind: &ReadKind,
    matches: &Option<Text>,
    started: Started,
) -> Begun
    ensures begins { Begins set.now kind.now matches.now started result }
    ensures held { lacks_pin result.state result.pin ≡ false }
    ensures same_drives { drives_of set.now result.reading ≡ set.now.drives }
{
    match started {
        Started::Found(version, id, pin) => {
            let (state, reading) = planned_state(planned_of(
                alloc, set, version, id, kind, matches,
            ));
            Begun {
                state,
                pin: Some(pin),
                reading,
            }
        }
        Started::Refused(why) => Begun {
            state: ReadState::Telling(Reply::Refused(why)),
            pin: None,
            reading: None,
        },
        Started::LacksMemory => Begun {
            state: ReadState::Over(Some(Cut::NoMemory)),
            pin: None,
            reading: None,
        },
    }
}

/// How far it is where a section can't be done that tells nothing yet.
fn barred_state(why: Barred) -> ReadState
    ensures { result ≡ barred_state why }
{
    match why {
        Barred::Spent => ReadState::Telling(Reply::Refused(Refusal::SeqSpent)),
        Barred::NoMemory => ReadState::Over(Some(Cut::NoMemory)),
    }
}

/// How far it is where any section can't be done: the end of a read goes without it.
pub(crate) fn barred_after(state: &ReadState, why: Barred) -> ReadState
    ensures { result ≡ barred_after state.now why }
{
    match state {
        ReadState::Ending(cut) => ReadState::Over(*cut),
        _ => barred_state(why),
    }
}

/// How far a GetObject is after a step of its reading: letters are a refusal, or a cut once the head is told.
pub(crate) fn fetched_state(stepped: &Stepped, told: bool) -> ReadState
    ensures { result ≡ fetched_state stepped.now told }
{
    match stepped {
        Stepped::Goes => ReadState::Fetching,
        Stepped::Gives => ReadState::Giving,
        Stepped::Refused(whys) => {
            if told {
                ReadState::Ending(Some(Cut::ShardCut(*whys)))
            } else {
                ReadState::Telling(Reply::Refused(Refusal::ShardQuorum(*whys)))
            }
        }
        Stepped::LacksMemory => ReadState::Ending(Some(Cut::NoMemory)),
    }
}

/// How far it is after a telling that no bytes follow: a read that has a pin ends.
pub(crate) fn ending_of(pin: &Option<Pin>, cut: Option<Cut>) -> ReadState
    ensures { result ≡ ending_of pin.now cut }
{
    match pin {
        None => ReadState::Over(cut),
        Some(_) => ReadState::Ending(cut),
    }
}

/// How far it is after the head or a piece, with so many bytes left: the piece comes next, or a drive call, or nothing.
pub(crate) fn told_state(left: u64, was_told: bool, cut: Option<Cut>) -> ReadState
    ensures { result ≡ told_state left was_told cut }
{
    match cut {
        Some(why) => ReadState::Ending(Some(why)),
        None => {
            if !was_told {
                ReadState::Giving
            } else if left > 0 {
                ReadState::Fetching
            } else {
                ReadState::Ending(None)
            }
        }
    }
}
