//! What tells the time.

ghost use Rattle.std.specs.Prelude.{◌≡◌, ◌<◌, ℕ, None, Some, Option, IfSome};
ghost use Rattle.io_base.specs.Clock.{year_10000};

use std::marker::Model;
use std::time::Duration;
use std::{rt, thread};

/// The moment past the last one: the beginning of the year 10000, in Unix seconds.
pub const MOMENT_LIMIT: u64 = 253_402_300_800;

/// Tells the moment, in whole Unix seconds, and rests.
pub trait Clock {
    /// What `now` answers, or None for a clock that does not tell it.
    ghost moment: { Self → Option ℕ };

    /// The moment now. It never fails.
    fn now(&self) -> u64
        ensures range { result < year_10000 }
        ensures told { IfSome (moment self.now) (λ m. result ≡ m) };

    /// Waits for so many seconds, where the clock can. It changes nothing that a contract sees, and it returns; that it
    /// waits, or for how long, is said of no clock.
    fn rest(&self, seconds: u64);
}

/// A clock that stands at one moment, which it tells. Its `rest` answers at once.
#[derive(Clone, Copy, PartialEq, Eq)]
pub struct MemClock {
    moment: u64,
}

impl Model for MemClock {
    ghost use Rattle.std.specs.Prelude.{ℕ, ◌<◌};
    ghost use Rattle.io_base.specs.Clock.{year_10000};

    ghost Value = { ℕ };

    ghost view = { λ c. c.moment };

    ghost invariant = { λ c. c.moment < year_10000 };

    ghost inverse = { λ m. record { moment = m } };
}

impl MemClock {
    /// A clock that stands at `now`, in Unix seconds.
    pub fn new(now: u64) -> MemClock
        requires { now < year_10000 }
        ensures { result ≡ now }
    {
        MemClock { moment: now }
    }
}

impl Clock for MemClock {
    ghost moment = { λ c. Some c };

    fn now(&self) -> u64
        ensures range { result < year_10000 }
        ensures told { result ≡ self.now }
    {
        self.moment
    }

    fn rest(&self, _seconds: u64) {}
}

/// The system's clock. It tells nothing. A time outside the range of moments, or one that can't be
/// read, is answered as the nearest moment, or as 0.
#[derive(Drop)]
pub struct SystemClock<R> {
    rt: R,
}

impl<R: rt::Clock + Drop> SystemClock<R> {
    ghost use Rattle.io_base.specs.SystemClock.{clock_runtime};

    /// The clock of this runtime.
    pub fn new(rt: R) -> SystemClock<R>
        ensures { clock_runtime result ≡ rt }
    {
        SystemClock { rt }
    }
}

impl<R: rt::Clock + Drop> Clock for SystemClock<R> {
    ghost moment = { λ _. None };

    fn now(&self) -> u64 {
        match self.rt.since_1970() {
            Ok(time) => time.as_secs().min(MOMENT_LIMIT - 1),
            Err(_) => 0,
        }
    }

    /// Sleeps.
    fn rest(&self, seconds: u64) {
        thread::sleep(&self.rt, Duration::from_secs(seconds));
    }
}
