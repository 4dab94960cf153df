//! The trait of all doors.

ghost use Rattle.std.specs.Prelude.{◌≡◌, ℕ, Bool, List, Option};
ghost use Rattle.io_base.specs.Count.{CountsFault};
ghost use Rattle.io_base.specs.Door.{Ends, Gives, IsOwed, told_more};

use crate::{IoFault, Sink, Source};

/// Takes connections, one after the other, until no more will come.
pub trait Door {
    /// Where the bytes of a connection come from.
    type In: Source + Send + Drop;

    /// Where the bytes of a connection go to.
    type Out: Sink + Send + Drop;

    /// Whether `next` has answered that no connection will come any more.
    ghost over: { Self → Bool };

    /// The pairs that `next` gave, in their order, or None for a door that does not tell them.
    ghost gave: { Self → Option (List (Self.In × Self.Out)) };

    /// The pairs that came back, in their order, or None for a door that does not tell them.
    ghost returned: { Self → Option (List (Self.In × Self.Out)) };

    /// How many calls have failed.
    ghost faults: { Self → ℕ };

    /// The two ends of the next connection, or None where no connection will come any more.
    fn next(&mut self) -> Result<Option<(Self::In, Self::Out)>, IoFault>
        ensures over { Ends result (over self.old) (over self.new) }
        ensures gave { Gives result (gave self.old) (gave self.new) }
        ensures returned { returned self.new ≡ returned self.old }
        ensures counted { CountsFault result (faults self.old) (faults self.new) };

    /// Takes the ends of a connection that is over. It takes no memory, and never fails. Where a pair is owed, since fewer
    /// came back than were given, this one is the last that came back.
    fn back(&mut self, source: Self::In, sink: Self::Out)
        ensures returned { IsOwed (gave self.old) (returned self.old)
            → returned self.new ≡ told_more (returned self.old) (source, sink) }
        ensures over { over self.new ≡ over self.old }
        ensures gave { gave self.new ≡ gave self.old }
        ensures count { faults self.new ≡ faults self.old };

    /// How many calls have failed. The count stands still at `u64::MAX`.
    fn faults(&self) -> u64
        ensures { result ≡ faults self.now };
}
