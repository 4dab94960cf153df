//! Why a folder can't be opened as a drive.

use drive_base::DriveFault;
use std::alloc::{AllocError, AllocFailed};
use thiserror::Error;

/// Why a folder can't be opened as a drive.
#[derive(Clone, Copy, Debug, PartialEq, Eq, Error)]
pub enum FileFault {
    /// The system refused a call on the folder.
    #[error("the folder can't be opened as a drive")]
    Failed,
    /// No memory was found for the names.
    #[error("out of memory")]
    NoMemory,
}

impl From<AllocError> for FileFault {
    fn from(_error: AllocError) -> FileFault {
        FileFault::NoMemory
    }
}

impl<T: Drop> From<AllocFailed<T>> for FileFault {
    fn from(_refused: AllocFailed<T>) -> FileFault {
        FileFault::NoMemory
    }
}

impl From<DriveFault> for FileFault {
    fn from(fault: DriveFault) -> FileFault {
        match fault {
            DriveFault::NoMemory => FileFault::NoMemory,
            DriveFault::Absent | DriveFault::Failed => FileFault::Failed,
        }
    }
}
