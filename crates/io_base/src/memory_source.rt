//! A source in memory.

ghost use Rattle.std.specs.Prelude.{◌≡◌, ◌++◌, [], Some, length, min, take, drop};
ghost use Rattle.io_base.specs.Count.{CountsFault};
ghost use Rattle.io_base.specs.Source.{Took};
ghost use Rattle.io_base.specs.Trail.{taken_more};

use crate::trail::{Takes, no_takes, one_take};
use crate::{IoFault, Source};
use ghost_note::Note;
use std::marker::Model;

/// A source over bytes in memory, which tells what is left and fails at chosen calls.
#[derive(Drop)]
pub struct MemSource {
    bytes: Vec<u8>,
    taken: usize,
    fails: Vec<u64>,
    calls: u64,
    faults: u64,
    takes: Note<Takes>,
}

impl Model for MemSource {
    ghost use Rattle.std.specs.Prelude.{◌≤◌, drop, length};
    ghost use Rattle.io_base.specs.MemSource.{MemorySource};

    ghost Value = { MemorySource };

    ghost view = { λ s. record {
      left = drop s.taken s.bytes.items;
      fails = s.fails.items;
      calls = s.calls;
      faults = s.faults;
      takes = s.takes.value;
    } };

    ghost invariant = { λ s. s.taken ≤ length s.bytes.items };
}

impl MemSource {
    /// A source of these bytes. `take` fails in exactly the calls whose numbers, from 0, stand in
    /// `fails`; a call that fails is numbered too. Numbers stand still at `u64::MAX`.
    pub fn new(bytes: Vec<u8>, fails: Vec<u64>) -> MemSource
        ensures { result ≡ record { left = bytes.items; fails = fails.items; calls = 0; faults = 0; takes = [] } }
    {
        MemSource {
            bytes,
            taken: 0,
            fails,
            calls: 0,
            faults: 0,
            takes: no_takes(),
        }
    }
}

impl Source for MemSource {
    ghost use Rattle.io_base.specs.MemSource.{GivesInOrder};

    ghost left = { λ s. Some s.left };

    ghost takes = { λ s. s.takes };

    ghost faults = { λ s. s.faults };

    fn take(&mut self, into: &mut [u8]) -> Result<usize, IoFault>
        ensures taken { Took result into.new (Some self.old.left) (Some self.new.left) }
        ensures trail { self.new.takes ≡ taken_more self.old.takes result into.new }
        ensures counted { CountsFault result self.old.faults self.new.faults }
        ensures exact { GivesInOrder result into.new self.old self.new }
    {
        let call = self.calls;
        self.calls = call.saturating_add(1);
        if self.fails.contains(&call) {
            self.faults = self.faults.saturating_add(1);
            self.takes = one_take(&self.takes, &Err(IoFault::Failed), into);
            return Err(IoFault::Failed);
        }
        let n = copy_front(&self.bytes[self.taken..], into);
        self.taken += n;
        self.takes = one_take(&self.takes, &Ok(n), into);
        Ok(n)
    }

    fn begin_message(&mut self)
        ensures left { Some self.new.left ≡ Some self.old.left }
        ensures trail { self.new.takes ≡ self.old.takes }
        ensures counted { self.new.faults ≡ self.old.faults }
        ensures same { self.new ≡ self.old }
    {}

    fn read_faults(&self) -> u64 {
        self.faults
    }
}

/// Copies as many bytes as both have room for, and answers how many.
fn copy_front(from: &[u8], into: &mut [u8]) -> usize
    ensures count { result ≡ min (length into.old) (length from.now) }
    ensures copied { into.new ≡ take result from.now ++ drop result into.old }
{
    let n = into.len().min(from.len());
    into[..n].copy_from_slice(&from[..n]);
    n
}
