//! The trait of all sinks.

ghost use Rattle.std.specs.Prelude.{◌≡◌, ℕ, List, Option};
ghost use Rattle.io_base.specs.Count.{CountsFault};
ghost use Rattle.io_base.specs.Sink.{Gave};
ghost use Rattle.io_base.specs.Trail.{GiveCall, given_more};

use crate::IoFault;

/// Takes bytes, and keeps their order.
pub trait Sink {
    /// All the bytes given so far, or None for a sink that does not tell them.
    ghost given: { Self → Option (List ℕ) };

    /// The gives that were asked of it and what each answered, the newest first. Every sink tells them.
    ghost gives: { Self → List GiveCall };

    /// How many calls have failed.
    ghost faults: { Self → ℕ };

    /// Adds all of `bytes`, or fails after a front part of them.
    fn give(&mut self, bytes: &[u8]) -> Result<(), IoFault>
        ensures given { Gave result bytes.now (given self.old) (given self.new) }
        ensures trail { gives self.new ≡ given_more (gives self.old) bytes.now result }
        ensures counted { CountsFault result (faults self.old) (faults self.new) };

    /// How many calls have failed. The count stands still at `u64::MAX`.
    fn write_faults(&self) -> u64
        ensures { result ≡ faults self.now };
}

impl<K: Sink> Sink for &mut K {
    ghost given = { λ k. K.given k.now };

    ghost gives = { λ k. K.gives k.now };

    ghost faults = { λ k. K.faults k.now };

    fn give(&mut self, bytes: &[u8]) -> Result<(), IoFault> {
        (**self).give(bytes)
    }

    fn write_faults(&self) -> u64 {
        (**self).write_faults()
    }
}
