//! What does works beside one another.

ghost use Rattle.std.specs.Prelude.{◌≡◌, ◌+◌, [], map, All, vec_len};
ghost use Rattle.io_base.specs.Spawner.{Runs, spawner_faults};
ghost use Rattle.io_base.specs.Works.{Apart, CountsLeft};

use crate::{Spawned, Turns, Work};
use std::alloc::Global;
use std::thread;
use std::thread::Threads;

/// How works are done: each by a thread of its own, or one after another.
#[derive(Drop)]
pub enum Spawner {
    /// Real threads. Where the system gives none, works are done one after another.
    Threads,
    /// One after another, with the failures that it is told.
    InTurn(Turns),
}

impl Spawner {
    /// Does each work, beside the others, and waits for all. Works that could not be started are left, which happens in turn
    /// alone.
    pub fn run_all<R: Threads + Sync, W: Work + Drop>(
        &mut self,
        rt: &R,
        alloc: Global,
        works: Vec<W>,
    ) -> Spawned<W>
        ensures count { vec_len result.done + vec_len result.left ≡ vec_len works }
        ensures over { All W.over result.done.items }
        ensures apart { Apart W.kept works.items result.done.items result.left.items }
        ensures counted { CountsLeft result.left.items (spawner_faults self.old) (spawner_faults self.new) }
        ensures exact { Runs W.kept self.old self.new works.items result.done.items result.left.items }
    {
        match self {
            Spawner::Threads => run_beside(rt, alloc, works),
            Spawner::InTurn(turns) => turns.run_all(alloc, works),
        }
    }

    /// How many works could not be started, and runs in turn that found no memory. The count stands still at `u64::MAX`.
    pub fn faults(&self) -> u64
        ensures { result ≡ spawner_faults self.now }
    {
        match self {
            Spawner::Threads => 0,
            Spawner::InTurn(turns) => turns.faults(),
        }
    }
}

/// Does each work by a thread of its own. It takes no memory.
fn run_beside<R: Threads + Sync, W: Work + Drop>(
    rt: &R,
    alloc: Global,
    mut works: Vec<W>,
) -> Spawned<W>
    ensures over { All W.over result.done.items }
    ensures kept { map W.kept result.done.items ≡ map W.kept works.items }
    ensures left { result.left.items ≡ [] }
{
    work_each(rt, &mut works);
    Spawned {
        done: works,
        left: Vec::new(alloc),
    }
}

fn work_each<R: Threads + Sync, W: Work>(rt: &R, works: &mut [W])
    ensures over { All W.over works.new }
    ensures kept { map W.kept works.new ≡ map W.kept works.old }
{
    let count = works.len();
    if count > 0 {
        thread::for_each_mut(rt, works, count, &|_, work| work.work());
    }
}
