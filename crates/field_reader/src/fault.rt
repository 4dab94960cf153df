//! Why a content could not be read.

ghost use Rattle.std.specs.Prelude.{◌≡◌, Ok, Err, if◌then◌else◌};
ghost use Rattle.field_reader.specs.declared.fault.ReadFault.TheVariants.{At, NoMemory};

use std::alloc::{AllocError, AllocFailed};

/// A content is no spelling. It tells the place of the first fault: the start of the first field that breaks its rule,
/// the number of bytes of the content where bytes are missing, or the first byte too many.
#[derive(Clone, Copy, PartialEq, Eq)]
pub struct Misspelled(pub u64);

/// Why a content could not be read into values that take memory.
#[derive(Clone, Copy, PartialEq, Eq)]
pub enum ReadFault {
    /// It is no spelling: the place of the first fault, as [`Misspelled`] tells it.
    At(u64),
    /// There was not enough memory.
    NoMemory,
}

impl From<Misspelled> for ReadFault {
    ghost from_gives = { λ misspelled e. e ≡ At misspelled.0 };

    fn from(misspelled: Misspelled) -> ReadFault {
        ReadFault::At(misspelled.0)
    }
}

impl From<AllocError> for ReadFault {
    ghost from_gives = { λ _ e. e ≡ NoMemory };

    fn from(_error: AllocError) -> ReadFault {
        ReadFault::NoMemory
    }
}

impl<T: Drop> From<AllocFailed<T>> for ReadFault {
    ghost from_gives = { λ _ e. e ≡ NoMemory };

    fn from(_error: AllocFailed<T>) -> ReadFault {
        ReadFault::NoMemory
    }
}

/// The fault of a field that starts at `start`, unless it keeps its rule.
pub fn refuse_unless(kept: bool, start: u64) -> Result<(), Misspelled>
    ensures { result ≡ (if kept then Ok tt else Err (record { 0 = start })) }
{
    if kept { Ok(()) } else { Err(Misspelled(start)) }
}
