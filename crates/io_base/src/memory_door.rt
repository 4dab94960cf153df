//! A door in memory.

ghost use Rattle.std.specs.Prelude.{◌≡◌, false, [], Some, IfOk, take};
ghost use Rattle.io_base.specs.Count.{CountsFault};
ghost use Rattle.io_base.specs.Door.{Ends, Gives, IsOwed, told_more};

use crate::{Door, IoFault, MemSink, MemSource};
use fault_base::{NoMemory, count_after};
use std::alloc::Global;
use std::collections::VecDeque;
use std::marker::Model;
use std::snapshot::Snapshot;

/// A door over pairs in memory. It gives them in their order, keeps those that come back, tells both, and fails at chosen
/// calls.
#[derive(Drop)]
pub struct MemDoor {
    all: Snapshot<Vec<(MemSource, MemSink)>>,
    waiting: VecDeque<(MemSource, MemSink)>,
    given: usize,
    returned: Vec<(MemSource, MemSink)>,
    fails: Vec<u64>,
    calls: u64,
    faults: u64,
    is_over: bool,
}

impl Model for MemDoor {
    ghost use Rattle.std.specs.Prelude.{◌≡◌, ◌≤◌, true, length, drop, vec_capacity};
    ghost use Rattle.io_base.specs.MemDoor.{MemoryDoor};

    ghost Value = { MemoryDoor };

    ghost view = { λ d. record {
      pairs = d.all.value.items;
      given = d.given;
      returned = d.returned.items;
      fails = d.fails.items;
      calls = d.calls;
      faults = d.faults;
      over = d.is_over;
    } };

    ghost invariant = { λ d.
        (d.waiting.items ≡ drop d.given d.all.value.items)
        × (d.given ≤ length d.all.value.items)
        × (length d.all.value.items ≤ vec_capacity d.returned)
        × (d.is_over ≡ true → d.given ≡ length d.all.value.items) };
}

impl MemDoor {
    /// A door over these pairs. `next` fails in exactly the calls whose numbers, from 0, stand in `fails`; a call that fails is
    /// numbered too, and gives nothing. Numbers stand still at `u64::MAX`. It makes the room for the pairs that come back, and
    /// the only error is want of memory for it.
    pub fn new(
        alloc: Global,
        pairs: Vec<(MemSource, MemSink)>,
        fails: Vec<u64>,
    ) -> Result<MemDoor, NoMemory>
        ensures { IfOk result (λ door. door ≡ record {
          pairs = pairs.items;
          given = 0;
          returned = [];
          fails = fails.items;
          calls = 0;
          faults = 0;
          over = false;
        }) }
    {
        let returned = Vec::with_capacity(alloc, pairs.len())?;
        Ok(MemDoor {
            all: Snapshot::of(&pairs),
            waiting: VecDeque::from(pairs),
            given: 0,
            returned,
            fails,
            calls: 0,
            faults: 0,
            is_over: false,
        })
    }

    /// The pairs that came back, in their order.
    pub fn into_returned(self) -> Vec<(MemSource, MemSink)>
        ensures { result.items ≡ self.returned }
    {
        let MemDoor { returned, .. } = self;
        returned
    }
}

impl Door for MemDoor {
    ghost use Rattle.io_base.specs.MemDoor.{GivesInTurn, KeepsOwed};

    type In = MemSource;

    type Out = MemSink;

    ghost over = { λ d. d.over };

    ghost gave = { λ d. Some (take d.given d.pairs) };

    ghost returned = { λ d. Some d.returned };

    ghost faults = { λ d. d.faults };

    fn next(&mut self) -> Result<Option<(MemSource, MemSink)>, IoFault>
        ensures over { Ends result self.old.over self.new.over }
        ensures gave { Gives result (Some (take self.old.given self.old.pairs)) (Some (take self.new.given self.new.pairs)) }
        ensures returned { Some self.new.returned ≡ Some self.old.returned }
        ensures counted { CountsFault result self.old.faults self.new.faults }
        ensures exact { GivesInTurn result self.old self.new }
    {
        let call = self.calls;
        self.calls = count_after(call);
        if self.fails.contains(&call) {
            self.faults = count_after(self.faults);
            return Err(IoFault::Failed);
        }
        let Some(pair) = self.waiting.pop_front() else {
            self.is_over = true;
            return Ok(None);
        };
        self.given += 1;
        Ok(Some(pair))
    }

    fn back(&mut self, source: MemSource, sink: MemSink)
        ensures returned { IsOwed (Some (take self.old.given self.old.pairs)) (Some self.old.returned)
            → Some self.new.returned ≡ told_more (Some self.old.returned) (source, sink) }
        ensures over { self.new.over ≡ self.old.over }
        ensures gave { Some (take self.new.given self.new.pairs) ≡ Some (take self.old.given self.old.pairs) }
        ensures count { self.new.faults ≡ self.old.faults }
        ensures exact { KeepsOwed (source, sink) self.old self.new }
    {
        if self.returned.len() < self.given {
            let _ = self.returned.push((source, sink));
        }
    }

    fn faults(&self) -> u64 {
        self.faults
    }
}
