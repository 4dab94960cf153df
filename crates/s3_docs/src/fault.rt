//! Why a document was not read.

ghost use Rattle.std.specs.Prelude.{◌≡◌};
ghost use Rattle.s3_docs.specs.declared.fault.DocFault.TheVariants.{NoMemory};

use std::alloc::AllocError;

/// Why a document was not read.
#[derive(Clone, Copy, PartialEq, Eq)]
pub enum DocFault {
    /// The place, in bytes, of the first byte at which no document goes on, or the number of bytes where a document
    /// ends early.
    MalformedXML(u64),
    /// There was not enough memory.
    NoMemory,
}

impl From<AllocError> for DocFault {
    ghost from_gives = { λ _ fault. fault ≡ NoMemory };

    fn from(_error: AllocError) -> DocFault {
        DocFault::NoMemory
    }
}
