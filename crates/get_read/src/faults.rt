//! Why nothing was read.

ghost use Rattle.std.specs.Prelude.{◌≡◌};
ghost use Rattle.get_read.specs.declared.faults.BodyFault.TheVariants.{NoMemory};

use call_types::Whys;
use std::alloc::{AllocError, AllocFailed};

/// Why a read was refused.
#[derive(Clone, Copy, PartialEq, Eq)]
pub enum BodyFault {
    /// The range has no byte of a body of this length. No reader answers this.
    InvalidRange(u64),
    /// All drives were tried, and too few gave what was asked. It tells why, for each drive.
    ShardQuorum(Whys),
    /// There was not enough memory.
    NoMemory,
}

impl From<AllocError> for BodyFault {
    ghost from_gives = { λ _ error. error ≡ NoMemory };

    fn from(_error: AllocError) -> BodyFault {
        BodyFault::NoMemory
    }
}

impl<T: Drop> From<AllocFailed<T>> for BodyFault {
    ghost from_gives = { λ _ error. error ≡ NoMemory };

    fn from(_refused: AllocFailed<T>) -> BodyFault {
        BodyFault::NoMemory
    }
}

impl From<fault_base::NoMemory> for BodyFault {
    ghost from_gives = { λ _ error. error ≡ NoMemory };

    fn from(_refused: fault_base::NoMemory) -> BodyFault {
        BodyFault::NoMemory
    }
}
