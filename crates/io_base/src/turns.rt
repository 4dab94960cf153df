//! Works done one after another, with the failures that it is told.

ghost use Rattle.std.specs.Prelude.{◌≡◌, ◌<◌, ◌≤◌, [], ◌∷◌, ◌++◌, All, vec_len, vec_capacity};
ghost use Rattle.fault_base.specs.Counts.{last_count};
ghost use Rattle.io_base.specs.Works.{Apart, CountsLeft};
ghost use Rattle.io_base.specs.Turns.{RunsInTurn, TakesOne, TakesTurns};

use crate::{Spawned, Work};
use fault_base::count_after;
use std::alloc::Global;
use std::marker::Model;

/// Does works one after another, and leaves those of chosen numbers.
#[derive(Drop)]
pub struct Turns {
    fails: Vec<u64>,
    begun: u64,
    faults: u64,
    starved: u64,
}

impl Model for Turns {
    ghost use Rattle.std.specs.Prelude.{◌≤◌};
    ghost use Rattle.fault_base.specs.Counts.{last_count};
    ghost use Rattle.io_base.specs.Turns.{WorksInTurn};

    ghost Value = { WorksInTurn };

    ghost view = { λ t. record {
      fails = t.fails.items;
      begun = t.begun;
      faults = t.faults;
      starved = t.starved;
    } };

    ghost invariant = { λ t. (t.begun ≤ last_count) × (t.faults ≤ last_count) };
}

impl Turns {
    /// Exactly the works whose numbers, from 0 and through all runs, stand in `fails` can't be started; one that can't be is
    /// numbered too. Numbers stand still at `u64::MAX`.
    pub fn new(fails: Vec<u64>) -> Turns
        ensures { result ≡ record { fails = fails.items; begun = 0; faults = 0; starved = 0 } }
    {
        Turns {
            fails,
            begun: 0,
            faults: 0,
            starved: 0,
        }
    }

    /// Does the works one after another. Where it finds no memory to keep them apart, it counts that and begins none.
    pub(crate) fn run_all<W: Work + Drop>(&mut self, alloc: Global, works: Vec<W>) -> Spawned<W>
        ensures over { All W.over result.done.items }
        ensures counted { CountsLeft result.left.items self.old.faults self.new.faults }
        ensures apart { Apart W.kept works.items result.done.items result.left.items }
        ensures runs { RunsInTurn W.kept self.old self.new works.items result.done.items result.left.items }
    {
        let done = Vec::with_capacity(alloc, works.len());
        let left = Vec::with_capacity(alloc, works.len());
        let (Ok(done), Ok(left)) = (done, left) else {
            self.faults = count_after(self.faults);
            self.starved = count_after(self.starved);
            return Spawned {
                done: Vec::new(alloc),
                left: works,
            };
        };
        self.take_each(works, done, left)
    }

    /// Does each work, or leaves it, where both lists are empty and have room for all.
    fn take_each<W: Work + Drop>(
        &mut self,
        works: Vec<W>,
        mut done: Vec<W>,
        mut left: Vec<W>,
    ) -> Spawned<W>
        requires counts { (self.old.begun ≤ last_count) × (self.old.faults ≤ last_count) }
        requires empty { (done.items ≡ []) × (left.items ≡ []) }
        requires room { (vec_len works ≤ vec_capacity done) × (vec_len works ≤ vec_capacity left) }
        ensures over { All W.over result.done.items }
        ensures took { TakesTurns W.kept self.old self.new works.items result.done.items result.left.items }
    {
        for work in works {
            self.take_one(work, &mut done, &mut left);
        }
        Spawned { done, left }
    }

    /// Does one work, or leaves it.
    fn take_one<W: Work + Drop>(&mut self, mut work: W, done: &mut Vec<W>, left: &mut Vec<W>)
        requires { (vec_len done.old < vec_capacity done.old) × (vec_len left.old < vec_capacity left.old) }
        ensures took { TakesOne W.kept W.over work self.old self.new done.old.items done.new.items left.old.items left.new.items }
        ensures room { (vec_capacity done.old ≤ vec_capacity done.new) × (vec_capacity left.old ≤ vec_capacity left.new) }
    {
        let number = self.begun;
        self.begun = count_after(number);
        if self.fails.contains(&number) {
            self.faults = count_after(self.faults);
            add(left, work);
        } else {
            work.work();
            add(done, work);
        }
    }

    /// How many works could not be started, and runs that found no memory.
    pub fn faults(&self) -> u64
        ensures { result ≡ self.now.faults }
    {
        self.faults
    }

    /// How many runs found no memory. They are faults too.
    pub fn starved(&self) -> u64
        ensures { result ≡ self.now.starved }
    {
        self.starved
    }
}

/// Adds a work to a list that has room for it.
fn add<W: Drop>(list: &mut Vec<W>, work: W)
    requires { vec_len list.old < vec_capacity list.old }
    ensures items { list.new.items ≡ list.old.items ++ work ∷ [] }
    ensures room { vec_capacity list.old ≤ vec_capacity list.new }
{
    let _ = list.push(work);
}
