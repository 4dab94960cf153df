//! A sink in memory.

ghost use Rattle.std.specs.Prelude.{◌≡◌, [], Some};
ghost use Rattle.io_base.specs.Count.{CountsFault};
ghost use Rattle.io_base.specs.Sink.{Gave};
ghost use Rattle.io_base.specs.Trail.{given_more};

use crate::trail::{Gives, no_gives, one_give};
use crate::{IoFault, Sink};
use ghost_note::Note;
use std::marker::Model;

/// A sink that keeps its bytes in memory, tells them, and fails at chosen calls.
#[derive(Drop)]
pub struct MemSink {
    given: Vec<u8>,
    fails: Vec<u64>,
    calls: u64,
    faults: u64,
    starved: u64,
    gives: Note<Gives>,
}

impl Model for MemSink {
    ghost use Rattle.std.specs.Prelude.{◌≡◌};
    ghost use Rattle.io_base.specs.MemSink.{MemorySink};
    ghost use Rattle.io_base.specs.Trail.{accepted};

    ghost Value = { MemorySink };

    ghost view = { λ s. record {
      given = s.given.items;
      fails = s.fails.items;
      calls = s.calls;
      faults = s.faults;
      starved = s.starved;
      gives = s.gives.value;
    } };

    ghost invariant = { λ s. s.given.items ≡ accepted s.gives.value };
}

impl MemSink {
    /// An empty sink. `give` fails in exactly the calls whose numbers, from 0, stand in `fails`, and
    /// besides where it finds no memory; a call that fails is numbered too, and adds nothing. Numbers
    /// stand still at `u64::MAX`.
    pub fn new(fails: Vec<u64>) -> MemSink
        ensures { result ≡ record { given = []; fails = fails.items; calls = 0; faults = 0; starved = 0; gives = [] } }
    {
        MemSink {
            given: Vec::new(*fails.allocator()),
            fails,
            calls: 0,
            faults: 0,
            starved: 0,
            gives: no_gives(),
        }
    }

    /// All the bytes given so far.
    pub fn given(&self) -> &[u8]
        ensures { result.now ≡ self.now.given }
    {
        &self.given
    }

    /// How many calls found no memory. They are faults too.
    pub fn starved(&self) -> u64
        ensures { result ≡ self.now.starved }
    {
        self.starved
    }
}

impl Sink for MemSink {
    ghost use Rattle.io_base.specs.MemSink.{KeepsInOrder};

    ghost given = { λ s. Some s.given };

    ghost gives = { λ s. s.gives };

    ghost faults = { λ s. s.faults };

    fn give(&mut self, bytes: &[u8]) -> Result<(), IoFault>
        ensures given { Gave result bytes.now (Some self.old.given) (Some self.new.given) }
        ensures trail { self.new.gives ≡ given_more self.old.gives bytes.now result }
        ensures counted { CountsFault result self.old.faults self.new.faults }
        ensures exact { KeepsInOrder result bytes.now self.old self.new }
    {
        let call = self.calls;
        self.calls = call.saturating_add(1);
        let answer = if self.fails.contains(&call) {
            self.faults = self.faults.saturating_add(1);
            Err(IoFault::Failed)
        } else if self.given.extend_from_slice(bytes).is_err() {
            self.starved = self.starved.saturating_add(1);
            self.faults = self.faults.saturating_add(1);
            Err(IoFault::Failed)
        } else {
            Ok(())
        };
        self.gives = one_give(&self.gives, bytes, &answer);
        answer
    }

    fn write_faults(&self) -> u64 {
        self.faults
    }
}
