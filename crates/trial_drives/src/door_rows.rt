//! Rows over the door in memory of `io_base`, and over works.

ghost use Rattle.std.specs.Prelude.{◌≡◌, ℕ, true};

use crate::stream_rows::numbers;
use io_base::{
    Door, IoFault, MemDoor, MemSink, MemSource, Sink, Source, Spawned, Spawner, Turns, Work,
};
use std::alloc::{AllocError, Global};
use std::mem;
use std::thread::Threads;
use trial_base::{Names, NoAnswer, bytes, first, said};

/// Takes one connection, gives back its next 8 bytes at most, and hands it back.
fn echo_next<O: Door + Drop>(door: &mut O) -> Result<Option<usize>, IoFault> {
    let Some((mut source, mut sink)) = door.next()? else {
        return Ok(None);
    };
    let mut bytes = [0u8; 8];
    let count = source.take(&mut bytes)?;
    sink.give(&bytes[..count])?;
    door.back(source, sink);
    Ok(Some(count))
}

/// A connection whose source has these bytes.
fn pair(alloc: Global, bytes: Vec<u8>) -> (MemSource, MemSink) {
    let source = MemSource::new(bytes, Vec::new(alloc));
    (source, MemSink::new(Vec::new(alloc)))
}

/// A door whose connections have the bytes of the words.
fn door_of(alloc: Global, names: &Names, fails: &str, row: &str) -> Result<MemDoor, NoAnswer> {
    let mut pairs = Vec::new(alloc);
    for word in row.split(' ') {
        if !word.is_empty() {
            pairs.push(pair(alloc, bytes(alloc, names, word)?))?;
        }
    }
    Ok(MemDoor::new(alloc, pairs, numbers(alloc, fails)?)?)
}

/// `next`: how many bytes a connection gave back, and how many faults the door counted.
fn next(alloc: Global, door: &mut MemDoor) -> Result<String, NoAnswer> {
    let answer = echo_next(door);
    let faults = door.faults();
    match answer {
        Ok(Some(count)) => Ok(format!(in alloc; "{count} bytes, faults {faults}")?),
        Ok(None) => Ok(format!(in alloc; "over, faults {faults}")?),
        Err(IoFault::Failed) => Ok(format!(in alloc; "failed, faults {faults}")?),
    }
}

/// `returned`: what the sinks of the connections that came back were given.
fn returned(alloc: Global, door: MemDoor) -> Result<String, NoAnswer> {
    let pairs = door.into_returned();
    let mut line = format!(in alloc; "{} pairs", pairs.len())?;
    for (_, sink) in pairs.iter() {
        let digits = hex::encode(alloc, sink.given())?;
        line.push_str(" ")?;
        line.push_str(digits.as_str())?;
    }
    Ok(line)
}

/// A work with a number, which it keeps.
#[derive(Drop)]
struct Task {
    id: u64,
    is_done: bool,
}

impl Work for Task {
    ghost Kept = { ℕ };

    ghost kept = { λ t. t.id };

    ghost over = { λ t. t.is_done ≡ true };

    fn work(&mut self) {
        self.is_done = true;
    }
}

/// The works with the numbers from 1 on.
fn tasks(alloc: Global, count: u64) -> Result<Vec<Task>, AllocError> {
    let mut works = Vec::new(alloc);
    for id in 1..=count {
        works.push(Task { id, is_done: false })?;
    }
    Ok(works)
}

/// The number that the decimal digits of the tasks' numbers make, of those that are done or not, as is asked.
fn digits_of(tasks: &[Task], is_done: bool) -> u64 {
    let mut all: u64 = 0;
    for task in tasks {
        if task.is_done == is_done {
            all = all.wrapping_mul(10).wrapping_add(task.id);
        }
    }
    all
}

/// `run COUNT`: the works that were done, those that were left, and how many could not be started in all.
fn run<R: Threads + Sync>(
    alloc: Global,
    rt: &R,
    spawner: &mut Spawner,
    count: u64,
) -> Result<String, NoAnswer> {
    let works = tasks(alloc, count)?;
    let Spawned { done, left } = spawner.run_all(rt, alloc, works);
    let (done, left) = (
        digits_of(done.as_slice(), true),
        digits_of(left.as_slice(), false),
    );
    Ok(format!(in alloc; "done {done}, left {left}, faults {}", spawner.faults())?)
}

/// Runs in turn, which leave the works of these numbers, and then by threads: what came of each run. Rows show it, and can't
/// do it: what is sent to a thread rests on bounds that a method of a trait has only by its `impl`.
fn run_each<R: Threads + Sync>(
    alloc: Global,
    rt: &R,
    fails: Vec<u64>,
) -> Result<Vec<String>, NoAnswer> {
    let mut runs = Vec::new(alloc);
    let mut spawner = Spawner::InTurn(Turns::new(fails));
    for count in [3, 0, 4] {
        runs.push(run(alloc, rt, &mut spawner, count)?)?;
    }
    let mut spawner = Spawner::Threads;
    for count in [4, 0] {
        runs.push(run(alloc, rt, &mut spawner, count)?)?;
    }
    Ok(runs)
}

/// A door, and what came of runs of works.
#[derive(Drop)]
pub struct Doors {
    door: MemDoor,
    runs: Vec<String>,
}

impl Doors {
    /// A door without connections, after runs of works.
    pub fn new<R: Threads + Sync>(alloc: Global, rt: &R) -> Result<Doors, NoAnswer> {
        let runs = run_each(alloc, rt, numbers(alloc, "1,4,5")?)?;
        let door = MemDoor::new(alloc, Vec::new(alloc), Vec::new(alloc))?;
        Ok(Doors { door, runs })
    }

    /// `door new FAILS BYTES..`, `door next` and `door returned`, which leaves a door without connections
    pub fn door(&mut self, alloc: Global, names: &Names, row: &str) -> Result<String, NoAnswer> {
        let (call, rest) = first(row);
        match call {
            "new" => {
                let (fails, rest) = first(rest);
                self.door = door_of(alloc, names, fails, rest)?;
                said(alloc, "new")
            }
            "next" => next(alloc, &mut self.door),
            "returned" => {
                let none = door_of(alloc, names, "-", "")?;
                returned(alloc, mem::replace(&mut self.door, none))
            }
            _ => said(alloc, "no such call"),
        }
    }

    /// `works NUMBER`: what came of the run of this number, from 0.
    pub fn works(&self, alloc: Global, number: u64) -> Result<String, NoAnswer> {
        for (at, run) in self.runs.iter().enumerate() {
            if at as u64 == number {
                return said(alloc, run.as_str());
            }
        }
        said(alloc, "no such run")
    }
}
