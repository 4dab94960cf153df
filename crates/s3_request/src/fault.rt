//! Why no call was read.

ghost use Rattle.std.specs.Prelude.{◌≡◌};
ghost use Rattle.call_types.specs.declared.refusal.Refusal.TheVariants.{InvalidArgument};
ghost use Rattle.s3_request.specs.declared.fault.CallFault.TheVariants.{NoMemory as Wanting};
ghost use Rattle.s3_request.specs.Refusing.{IsRefusal};

use call_types::Refusal;
use fault_base::NoMemory;
use seal_file::Text;
use std::alloc::{AllocError, Global};

/// Why no call was read.
#[derive(Drop)]
pub enum CallFault {
    /// The call is refused.
    Refused(Refusal),
    /// There was not enough memory.
    NoMemory,
}

impl From<NoMemory> for CallFault {
    ghost from_gives = { λ _ fault. fault ≡ Wanting };

    fn from(_wanting: NoMemory) -> CallFault {
        CallFault::NoMemory
    }
}

impl From<AllocError> for CallFault {
    ghost from_gives = { λ _ fault. fault ≡ Wanting };

    fn from(_wanting: AllocError) -> CallFault {
        CallFault::NoMemory
    }
}

/// The refusal of the argument of this name.
pub fn invalid_argument(alloc: Global, name: &str) -> CallFault
    ensures { IsRefusal (InvalidArgument name.now) result }
{
    match Text::from_slice(alloc, name.as_bytes()) {
        Ok(name) => CallFault::Refused(Refusal::InvalidArgument(name)),
        Err(NoMemory) => CallFault::NoMemory,
    }
}
