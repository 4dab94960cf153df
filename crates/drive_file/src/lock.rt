//! A value behind a lock, for several ways to it.

ghost use Rattle.std.specs.Prelude.{◌≡◌, IsSome};
ghost use Rattle.std.specs.Arc.{arc_value};

use fault_base::NoMemory;
use std::alloc::Global;
use std::snapshot::Snapshot;
use std::sync::{Arc, Mutex, MutexGuard, Wait};

/// A value behind a lock, and beside the lock what the value was when it came there.
#[derive(Drop)]
pub(crate) struct Home<D> {
    of: Snapshot<D>,
    mutex: Mutex<D>,
}

/// A lock, and the value behind it.
#[derive(Drop)]
pub(crate) struct Lock<D> {
    place: Arc<Option<Home<D>>>,
    ghost filled: { IsSome (arc_value place) },
}

impl<D: Drop> Lock<D> {
    ghost use Rattle.std.specs.Prelude.{IfErr, IfOk, Some};
    ghost use Rattle.drive_file.specs.SharedDrive.{lock_root};

    /// A lock with this value, which comes back, untouched, where no memory was found: the place is had before it goes in.
    pub(crate) fn new(alloc: Global, value: D) -> Result<Lock<D>, D>
        ensures back { IfErr result (λ back. back ≡ value) }
        ensures root { IfOk result (λ lock. lock_root lock ≡ Some value) }
    {
        let Ok(mut place) = Arc::new(alloc, None) else {
            return Err(value);
        };
        match Arc::get_mut(&mut place) {
            Some(inside) => {
                *inside = Some(Home {
                    of: Snapshot::of(&value),
                    mutex: Mutex::new(value),
                });
            }
            None => return Err(value),
        }
        Ok(Lock { place })
    }

    /// The same lock once more.
    pub(crate) fn again(&self) -> Result<Lock<D>, NoMemory>
        ensures root { IfOk result (λ other. lock_root other ≡ lock_root self.now) }
    {
        let place = Arc::try_clone(&self.place)?;
        Ok(Lock { place })
    }

    /// Waits for the lock and takes it.
    pub(crate) fn lock<R: Wait>(&self, rt: &R) -> MutexGuard<'_, D> {
        match &*self.place {
            Some(home) => home.mutex.lock(rt),
            None => unreachable!(),
        }
    }
}
