//! Workers: each a pass and a door.

ghost use Rattle.std.specs.Prelude.{◌≡◌, ◌+◌, ◌≤◌, ◌++◌, [], All, IsTrue, length, map, reverse, vec_capacity, vec_len};
ghost use Rattle.std.specs.List.{AllByRecursion};
ghost use Rattle.serve_loop.specs.Doors.{capped};
ghost use Rattle.store_shared.specs.SharedPasses.{FitsDesk, shared_holds};
ghost use Rattle.io_base.specs.Spawner.{spawner_faults};
ghost use Rattle.ostore.specs.Workers.{AnyRose, AreUnited, FitsEach, IsOfDesk, IsPost, IsStill, WorksRan, door_by, pass_by, starved_in, workers_of};

use audit_trail::Audit;
use desk_base::Gate;
use drive_base::Drive;
use drive_file::Share;
use io_base::{Clock, Door, Spawned, Spawner};
use serve_loop::ServeWork;
use std::alloc::Global;
use std::io::Eprint;
use std::sync::Wait;
use std::thread::Threads;
use store_shared::{SharedDesk, SharedPass, fits_law};

/// Makes a worker of each pass and the door of its place, the last ones first, for which there is room.
pub fn employ<
    'a,
    R: Wait + Copy + Drop,
    D: Drive + Drop,
    A: Audit + Drop,
    O: Door + Drop,
    C: Clock,
    G: Gate,
>(
    rt: R,
    alloc: Global,
    desk: &'a SharedDesk<R, D, A, G>,
    clock: &'a C,
    passes: Vec<SharedPass<D, A>>,
    doors: &mut Vec<O>,
    works: &mut Vec<ServeWork<'a, R, SharedDesk<R, D, A, G>, O, C>>,
)
    requires fit { FitsEach desk.now passes.items }
    requires count { length passes.items ≡ length doors.old.items }
    requires none { works.old.items ≡ [] }
    requires room { vec_len doors.old ≤ vec_capacity works.old }
    ensures posts { All (IsPost desk.now clock.now) (workers_of works.new.items) }
    ensures passes { passes.items ≡ reverse (map pass_by (workers_of works.new.items)) }
    ensures doors { doors.old.items ≡ reverse (map door_by (workers_of works.new.items)) }
    ensures none { doors.new.items ≡ [] }
    ensures room { vec_capacity doors.new ≡ vec_capacity doors.old }
{
    let mut passes = passes;
    while let Some(door) = doors.pop() {
        let Some(pass) = passes.pop() else {
            unreachable!()
        };
        works.push_reserved(ServeWork::new(rt, alloc, desk, pass, door, clock));
    }
    passes.destroy_empty();
}

/// Does works of this desk and clock beside one another.
pub fn run_each<
    'a,
    R: Eprint + Threads + Wait + Copy + Drop + Send + Sync,
    D: Share + Send + Drop,
    A: Audit + Send + Drop,
    O: Door + Send + Drop,
    C: Clock + Sync,
    G: Gate + Send + Sync,
>(
    rt: &R,
    alloc: Global,
    desk: &'a SharedDesk<R, D, A, G>,
    clock: &'a C,
    spawner: &mut Spawner,
    works: Vec<ServeWork<'a, R, SharedDesk<R, D, A, G>, O, C>>,
) -> Spawned<ServeWork<'a, R, SharedDesk<R, D, A, G>, O, C>>
    requires posts { All (IsPost desk.now clock.now) (workers_of works.items) }
    ensures ran { WorksRan D.Drive D.root A.entries A.count O.Door O.In.Source O.Out.Sink (C.moment clock.now) (workers_of works.entry.items)
        (workers_of result.done.items) (workers_of result.left.items) (spawner_faults spawner.old) (spawner_faults spawner.new) }
    ensures count { vec_len result.done + vec_len result.left ≡ vec_len works.entry }
{
    spawner.run_all(rt, alloc, works)
}

/// A pass that those of workers were joined with, whether the door of some worker failed, and what all workers count.
#[derive(Drop)]
pub struct TakenBack<D, A> {
    /// The pass.
    pub whole: SharedPass<D, A>,
    /// Whether a door failed.
    pub has_failed: bool,
    /// How many connections of the workers ended for want of memory. The count stays at its greatest value.
    pub starved: u64,
}

/// Takes works apart, the last one first: their passes are joined with one, and their doors put behind the others, for which there is room.
pub fn take_back<
    'a,
    R: Wait + Copy + Drop,
    D: Drive + Drop,
    A: Audit + Drop,
    O: Door + Drop,
    C: Clock,
    G: Gate,
>(
    desk: &'a SharedDesk<R, D, A, G>,
    pass: SharedPass<D, A>,
    works: Vec<ServeWork<'a, R, SharedDesk<R, D, A, G>, O, C>>,
    doors: &mut Vec<O>,
) -> TakenBack<D, A>
    requires fits { FitsDesk desk.now (shared_holds pass) }
    requires desk { All (IsOfDesk desk.now) (workers_of works.items) }
    requires room { vec_len doors.old + vec_len works ≤ vec_capacity doors.old }
    ensures united { AreUnited pass (map pass_by (workers_of works.entry.items)) result.whole }
    ensures fits { FitsDesk desk.now (shared_holds result.whole) }
    ensures doors { doors.new.items ≡ doors.old.items ++ reverse (map door_by (workers_of works.entry.items)) }
    ensures failed { IsTrue result.has_failed → AnyRose O.Door (workers_of works.entry.items) }
    ensures still { (IsTrue result.has_failed → ⊥) → AllByRecursion (IsStill O.Door) (workers_of works.entry.items) }
    ensures starved { result.starved ≡ capped (starved_in (workers_of works.entry.items)) }
    ensures capacity { vec_capacity doors.new ≡ vec_capacity doors.old }
    ensures len { vec_len doors.new ≡ vec_len doors.old + vec_len works.entry }
{
    fits_law::<R, D, A, G>();
    let mut works = works;
    let mut whole = pass;
    let mut has_failed = false;
    let mut starved = 0u64;
    while let Some(work) = works.pop() {
        has_failed |= work.has_failed();
        starved = starved.saturating_add(work.starved());
        let (other, door) = work.into_parts();
        let (joined, _) = desk.join(whole, other);
        whole = joined;
        doors.push_reserved(door);
    }
    works.destroy_empty();
    TakenBack {
        whole,
        has_failed,
        starved,
    }
}
