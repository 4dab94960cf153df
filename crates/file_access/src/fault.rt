//! Why a drive gave nothing of a file.

ghost use Rattle.std.specs.Prelude.{◌≡◌};
ghost use Rattle.file_access.specs.declared.fault.FetchFault.TheVariants.{Because};

use call_types::Why;

/// Why a drive gave nothing of a file.
#[derive(Clone, Copy, PartialEq, Eq)]
pub enum FetchFault {
    /// For this cause.
    Because(Why),
    /// There was not enough memory, and no call failed.
    NoMemory,
}

impl From<Why> for FetchFault {
    ghost from_gives = { λ why given. given ≡ Because why };

    fn from(why: Why) -> FetchFault {
        FetchFault::Because(why)
    }
}

/// What a call of a drive gave, or why it gave nothing: the drive lacks a file of this kind, or the call failed, with the
/// counts of faults before it and after it.
macro_rules! told {
    ($drive:ident, $kind:ident, $before:ident, $call:expr) => {
        match $call {
            Ok(given) => Ok(given),
            Err(DriveFault::Absent) => Err(Why::Lacks($kind)),
            Err(_) => {
                let after = $drive.faults();
                Err(Why::Failed {
                    before: $before,
                    after,
                })
            }
        }
    };
}

pub(crate) use told;
