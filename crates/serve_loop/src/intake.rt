//! Where heads and bodies come from: a wire, and the length of the body that is read.

ghost use Rattle.std.specs.Prelude.{◌≤◌};
ghost use Rattle.serve_loop.specs.Intakes.{AreLast};

use call_types::{Cut, Feed};
use http_wire::{Head, Wire, WireFault};
use io_base::Source;
use std::alloc::Global;

/// How many bytes of a body are passed over at once.
const PIECE: usize = 16_384;

/// A wire, and the stated length of the body that is read from it. What waits in the wire is the end of what the takes answered.
#[derive(Drop)]
pub struct Intake<S: Source> {
    pub(crate) wire: Wire<S>,
    pub(crate) stated: u64,
    pub ghost within: { wire.body_left ≤ stated },
    pub ghost last: { AreLast wire.window (S.takes wire.source) },
}

impl<S: Source + Drop> Intake<S> {
    ghost use Rattle.std.specs.Prelude.{◌≡◌, [], None, Some};
    ghost use Rattle.http_wire.specs.Answers.{Answers};
    ghost use Rattle.http_wire.specs.Seen.{seen};
    ghost use Rattle.serve_loop.specs.Intakes.{IsAtRest, PassesOver};
    ghost use Rattle.serve_loop.specs.Seen.{from_of, wire_of};

    /// An intake over a wire of which no head was read yet.
    pub(crate) fn new(wire: Wire<S>) -> Intake<S>
        requires none { wire.body_left ≡ 0 }
        requires empty { wire.window ≡ [] }
        ensures { result.wire ≡ wire }
    {
        Intake { wire, stated: 0 }
    }

    /// The next head, or None where the source has ended.
    pub(crate) fn next_head(&mut self, alloc: Global) -> Result<Option<Head>, WireFault>
        requires { IsAtRest (wire_of self.old) }
        ensures answers { Answers result self.old.wire.window (from_of self.old) (from_of self.new)
            (wire_of self.new) (S.faults self.old.wire.source) (S.faults self.new.wire.source) }
        ensures stated { self.new.stated ≡ self.new.wire.body_left }
    {
        let answer = self.wire.next_head(alloc);
        self.stated = self.wire.body_left();
        answer
    }

    /// How many bytes of the body were not read yet.
    pub(crate) fn body_left(&self) -> u64
        ensures { result ≡ self.now.wire.body_left }
    {
        self.wire.body_left()
    }

    /// Reads the rest of the body, and drops it.
    pub(crate) fn pass_over(&mut self) -> Result<(), Cut>
        ensures passes { PassesOver result (wire_of self.old) (wire_of self.new) (from_of self.old)
            (from_of self.new) (S.faults self.old.wire.source) (S.faults self.new.wire.source) }
        ensures same { self.new.stated ≡ self.old.stated }
    {
        self.wire.retry();
        let mut piece = [0; PIECE];
        while self.wire.body_left() > 0 {
            self.take(&mut piece)?;
        }
        Ok(())
    }

    /// The source, after all that was taken from it.
    pub(crate) fn into_source(self) -> S
        ensures { result ≡ self.wire.source }
    {
        self.wire.into_source()
    }
}

impl<S: Source + Drop> Feed for Intake<S> {
    ghost use Rattle.std.specs.Prelude.{◌≡◌, None};
    ghost use Rattle.call_types.specs.Feeds.{Gives, GivesCause};
    ghost use Rattle.serve_loop.specs.Intakes.{LiftsRefusal, feed_of};
    ghost use Rattle.serve_loop.specs.Seen.{from_of, wire_of};

    ghost seen = { λ intake. feed_of intake.stated (wire_of intake) (from_of intake) };

    ghost faults = { λ intake. S.faults intake.wire.source };

    fn take(&mut self, into: &mut [u8]) -> Result<usize, Cut>
        ensures gives { Gives result into.new (feed_of self.old.stated (wire_of self.old) (from_of self.old))
            (feed_of self.new.stated (wire_of self.new) (from_of self.new)) }
        ensures cause { GivesCause result (feed_of self.new.stated (wire_of self.new) (from_of self.new))
            (S.faults self.old.wire.source) (S.faults self.new.wire.source) }
        ensures lifted { LiftsRefusal result (wire_of self.new) }
        ensures same { self.new.stated ≡ self.old.stated }
    {
        self.wire.retry();
        match self.wire.body(into) {
            Ok(count) => Ok(count),
            Err(WireFault::BodyCut { .. }) => Err(Cut::BodyCut {
                read: self.stated - self.wire.body_left(),
                stated: self.stated,
            }),
            Err(_) => Err(Cut::ReadFault),
        }
    }
}
