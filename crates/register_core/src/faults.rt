//! Why a register's call was refused.

ghost use Rattle.std.specs.Prelude.{◌≡◌};
ghost use Rattle.register_core.specs.declared.faults.QuorumFault.TheVariants.{NoMemory as TheNoMemory};

use call_types::Whys;
use fault_base::NoMemory;
use std::alloc::{AllocError, AllocFailed};

/// Why a register's call was refused. Each carries a `Why` for each lane, or for each data drive.
#[derive(Clone, Copy, PartialEq, Eq)]
pub enum QuorumFault {
    /// Too few lanes have a good file, or the content that they have is refused: why, for each lane.
    ReadQuorum(Whys),
    /// Too few lanes took a write: why, for each lane.
    WriteQuorum(Whys),
    /// A change may have taken effect, and its data can't be found on enough data drives.
    Undecided {
        /// How many good files have the change.
        k: u8,
        /// How many lanes have no good file.
        u: u8,
        /// Why each data drive gave no manifest of the change's data.
        whys: Whys,
    },
    /// There was not enough memory.
    NoMemory,
}

impl From<AllocError> for QuorumFault {
    ghost from_gives = { λ _ fault. fault ≡ TheNoMemory };

    fn from(_error: AllocError) -> QuorumFault {
        QuorumFault::NoMemory
    }
}

impl<T: Drop> From<AllocFailed<T>> for QuorumFault {
    ghost from_gives = { λ _ fault. fault ≡ TheNoMemory };

    fn from(_refused: AllocFailed<T>) -> QuorumFault {
        QuorumFault::NoMemory
    }
}

impl From<NoMemory> for QuorumFault {
    ghost from_gives = { λ _ fault. fault ≡ TheNoMemory };

    fn from(_error: NoMemory) -> QuorumFault {
        QuorumFault::NoMemory
    }
}
