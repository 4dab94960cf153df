//! The lock that keeps a second process out of a store's folder.

use std::fs::{self, File, TryLockError};
use std::rt::Files;
use thiserror::Error;

/// Why a folder couldn't be locked.
#[derive(Clone, Copy, Debug, PartialEq, Eq, Error)]
pub enum LockFault {
    /// Another process, or another lock of this one, holds it.
    #[error("the folder is in use")]
    Held,
    /// The folder isn't there, or the system can't lock it.
    #[error("the folder can't be locked")]
    Failed,
}

/// The lock of a folder. It is held until it is dropped or the process ends, however it ends.
///
/// Two processes on one folder would each remove the loose files of the other, so who opens drives below a folder takes its
/// lock first. It is `flock` of the folder itself, which writes no file and binds only those that ask for it.
#[derive(Drop)]
pub struct RootLock {
    folder: File,
}

impl RootLock {
    /// Takes the lock of the folder of this path, and doesn't wait for it.
    pub fn take<R: Files<File = File>>(rt: &R, path: &str) -> Result<RootLock, LockFault> {
        let Ok(folder) = fs::open(rt, path) else {
            return Err(LockFault::Failed);
        };
        match folder.try_lock() {
            Ok(()) => Ok(RootLock { folder }),
            Err(TryLockError::WouldBlock) => Err(LockFault::Held),
            Err(TryLockError::Error(_)) => Err(LockFault::Failed),
        }
    }
}
