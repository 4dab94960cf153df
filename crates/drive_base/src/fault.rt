//! Why a call on a drive was refused.

use thiserror::Error;

/// Why a call on a drive was refused.
#[derive(Clone, Copy, Debug, PartialEq, Eq, Error)]
pub enum DriveFault {
    /// No file is shown under the name, or no loose file is there under the loose name.
    #[error("no such file")]
    Absent,
    /// The drive didn't do the call, and counted a fault.
    #[error("the drive failed")]
    Failed,
    /// No memory was found for the answer. It comes from `names` alone.
    #[error("out of memory")]
    NoMemory,
}
