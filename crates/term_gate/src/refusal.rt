//! Why a set was not opened.

ghost use Rattle.std.specs.Prelude.{◌≡◌};
ghost use Rattle.term_gate.specs.declared.refusal.OpenRefusal.TheVariants.{NoMemory as TheNoMemory};

use crate::record::Format;
use call_types::Whys;
use fault_base::NoMemory;
use std::alloc::{AllocError, AllocFailed};

/// Why a set was not opened.
#[derive(Clone, Copy, PartialEq, Eq)]
pub enum OpenRefusal {
    /// A drive has the format of another set, or of another drive of this one.
    WrongSet {
        /// The format that was found.
        found: Format,
        /// The format that the drive should have, with term 0.
        wanted: Format,
    },
    /// Too few drives gave a good format, or took one: why, for each drive.
    OpenQuorum(Whys),
    /// There was not enough memory.
    NoMemory,
    /// The greatest term that was read is the last one.
    TermSpent,
    /// An audit failed while the slots were opened: its count of faults before and after. `open_set` never answers it.
    AuditFailed {
        /// The count before.
        before: u64,
        /// The count after.
        after: u64,
    },
}

impl From<NoMemory> for OpenRefusal {
    ghost from_gives = { λ _ refusal. refusal ≡ TheNoMemory };

    fn from(_error: NoMemory) -> OpenRefusal {
        OpenRefusal::NoMemory
    }
}

impl From<AllocError> for OpenRefusal {
    ghost from_gives = { λ _ refusal. refusal ≡ TheNoMemory };

    fn from(_error: AllocError) -> OpenRefusal {
        OpenRefusal::NoMemory
    }
}

impl<T: Drop> From<AllocFailed<T>> for OpenRefusal {
    ghost from_gives = { λ _ refusal. refusal ≡ TheNoMemory };

    fn from(_refused: AllocFailed<T>) -> OpenRefusal {
        OpenRefusal::NoMemory
    }
}
