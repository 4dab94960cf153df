//! What a change of a key answers.

ghost use Rattle.std.specs.Prelude.{◌≡◌, None, []};
ghost use Rattle.version_list.specs.declared.outcome.ActFault.TheVariants.{NoMemory};

use crate::state::KeyState;
use call_types::{Brief, KeyRefusal, Reply};
use fault_base::NoMemory;
use seal_file::Bytes;
use std::alloc::{AllocError, Global};

/// What a change of a key leaves, and answers.
#[derive(Drop)]
pub struct Applied {
    /// The new state, none where it is the old one.
    pub state: Option<KeyState>,
    /// The reply, as `Brief::Answer`.
    pub done: Brief,
    /// The ids, 16 bytes each, of the data that a version of the old state has and no version of the new one.
    pub gone: Bytes,
}

/// Why a change is not made.
#[derive(Clone, Copy, PartialEq, Eq)]
pub enum ActFault {
    /// The state of the key refuses it.
    Refused(KeyRefusal),
    /// There was not enough memory.
    NoMemory,
}

impl From<NoMemory> for ActFault {
    ghost from_gives = { λ _ fault. fault ≡ NoMemory };

    fn from(_error: NoMemory) -> ActFault {
        ActFault::NoMemory
    }
}

impl From<AllocError> for ActFault {
    ghost from_gives = { λ _ fault. fault ≡ NoMemory };

    fn from(_error: AllocError) -> ActFault {
        ActFault::NoMemory
    }
}

/// What a change leaves: the new state, none where it is the old one, and the data that is gone.
#[derive(Drop)]
pub struct Outcome {
    /// The new state.
    pub state: Option<KeyState>,
    /// The data ids that no version has any more, 16 bytes each.
    pub gone: Bytes,
}

impl Outcome {
    /// No change.
    pub fn none(alloc: Global) -> Outcome
        ensures state { result.state ≡ None }
        ensures gone { result.gone ≡ [] }
    {
        Outcome {
            state: None,
            gone: Bytes::empty(alloc),
        }
    }

    /// The change, answered with this reply.
    pub fn answered(self, reply: Reply) -> Applied
        ensures state { result.state ≡ self.state }
        ensures done { result.done ≡ Brief.Answer reply }
        ensures gone { result.gone ≡ self.gone }
    {
        Applied {
            state: self.state,
            done: Brief::Answer(reply),
            gone: self.gone,
        }
    }
}
