//! The trait of all sources.

ghost use Rattle.std.specs.Prelude.{◌≡◌, ℕ, List, Option};
ghost use Rattle.io_base.specs.Count.{CountsFault};
ghost use Rattle.io_base.specs.Source.{Took};
ghost use Rattle.io_base.specs.Trail.{TakeCall, taken_more};

use crate::IoFault;

/// Gives bytes, one after the other, until it has ended.
pub trait Source {
    /// The bytes not yet taken, or None for a source that does not tell them.
    ghost left: { Self → Option (List ℕ) };

    /// The takes that were asked of it and what each answered, the newest first. Every source tells them.
    ghost takes: { Self → List TakeCall };

    /// How many calls have failed.
    ghost faults: { Self → ℕ };

    /// Moves the next bytes to the front of `into` and answers how many. It answers 0 into a buffer
    /// that is not empty only where the source has ended. A call that fails takes nothing, and may
    /// have written to `into`.
    fn take(&mut self, into: &mut [u8]) -> Result<usize, IoFault>
        ensures taken { Took result into.new (left self.old) (left self.new) }
        ensures trail { takes self.new ≡ taken_more (takes self.old) result into.new }
        ensures counted { CountsFault result (faults self.old) (faults self.new) };

    /// Says that what is taken next begins a message of its own: a limit on the time of one message counts anew. It takes nothing.
    fn begin_message(&mut self)
        ensures left { left self.new ≡ left self.old }
        ensures trail { takes self.new ≡ takes self.old }
        ensures counted { faults self.new ≡ faults self.old };

    /// How many calls have failed. The count stands still at `u64::MAX`.
    fn read_faults(&self) -> u64
        ensures { result ≡ faults self.now };
}

impl<S: Source> Source for &mut S {
    ghost left = { λ s. S.left s.now };

    ghost takes = { λ s. S.takes s.now };

    ghost faults = { λ s. S.faults s.now };

    fn take(&mut self, into: &mut [u8]) -> Result<usize, IoFault> {
        (**self).take(into)
    }

    fn begin_message(&mut self) {
        (**self).begin_message();
    }

    fn read_faults(&self) -> u64 {
        (**self).read_faults()
    }
}
