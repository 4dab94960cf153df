//! The program `ostore`: a store of versioned objects over the drives of an erasure set, in memory or in folders.
//!
//! `main` reads the words, makes the drives, the streams, the clock and for `serve` the doors, and hands them to [`run`](running::run), whose contract is the
//! promise of the program, or to [`run_alone`](program::run_alone), which has the same for the commands without doors. `command_line` reads the words. `memory`
//! and `folders` make a `rig`, and `openers` does by threads what `folders` does one after another. `opening` opens a store over a rig and hands all back,
//! `piping` serves a connection over it, `serving` serves doors over it by `workers` whose passes `dealing` cuts off one another, and `surveying` tells what its
//! drives have for formats. `statuses` has the exit statuses.
#![tactic(auto)]

ghost use Rattle.std.specs.Prelude.{◌≡◌, ◌≢◌, ◌≤◌, IfOk, None, length};
ghost use Rattle.ostore.specs.Locked.{RigFailsUnlocked};
ghost use Rattle.ostore.specs.Program.{EndsWith, Fits};
ghost use Rattle.ostore.specs.Rigs.{IsRigOf};
ghost use Rattle.command_line.specs.Words.{Says};
ghost use Rattle.command_line.specs.declared.plan.Command.TheVariants.{Serve};
ghost use Rattle.serve_loop.specs.Seen.{wires_of};

mod dealing;
mod document;
mod folders;
mod gate;
mod laws;
mod memory;
mod notices;
mod openers;
mod opening;
mod piping;
mod program;
mod rig;
mod running;
mod serving;
mod sharing;
mod statuses;
mod surveying;
#[cfg(test)]
mod tests;
mod ways;
mod workers;

use audit_trail::{Audit, NullAudit};
use command_line::{Command, Plan, Usage, plan_of};
use drive_base::Drive;
use drive_file::{FileDrive, SystemFolder};
use folders::{file_rig, root_lock};
use io_base::{Sink, Source, Spawner, StdSink, StdSource, SystemClock, TcpDoor, TcpLimits};
use memory::memory_rig;
use notices::{tell_in_memory, tell_listening, tell_starved, tell_usage};
use openers::file_rig_beside;
use program::run_alone;
use rig::Rig;
use running::run;
use statuses::{OUT_OF_MEMORY, READ_FAULT, USAGE, cause_of};
use std::alloc::{AllocError, Global};
use std::env;
use std::io::{Eprint, ErrorKind, Stdin};
use std::net::{Net, TcpListener, TcpStream};
use std::process::ExitCode;
use std::rt::{Clock, Files};
use std::sync::Wait;
use std::thread::Threads;
use ways::with_ways;

/// Runs over the standard streams. Each exit status but 0 is named on standard error.
fn main(rt: HostRuntime) -> ExitCode {
    let status = match begin(&rt) {
        Ok(
            Begun {
                words,
                plan,
                source,
            },
        ) => {
            let words = words.as_slice();
            let mut sink = StdSink::new(rt.stdout());
            match &plan.root {
                None => match memory_rig(rt.alloc(), plan.set) {
                    Ok(rig) => {
                        if !matches!(plan.command, Command::Status) {
                            tell_in_memory(&rt);
                        }
                        run_over(&rt, words, &plan, source, &mut sink, rig)
                    }
                    Err(_) => OUT_OF_MEMORY,
                },
                Some(root) => {
                    // Held until the run has ended.
                    let lock = root_lock(&rt, root.as_str());
                    match folder_rig(&rt, &plan, root.as_str(), lock.is_some()) {
                        Ok(rig) => run_over(&rt, words, &plan, source, &mut sink, rig),
                        Err(_) => OUT_OF_MEMORY,
                    }
                }
            }
        }
        Err(status) => status,
    };
    if status == USAGE {
        tell_usage(&rt);
    }
    if let Some(cause) = cause_of(status) {
        let _ = eprintln!(rt; "ostore: {cause}");
    }
    ExitCode::from(status)
}

/// What a run begins with, but for its rig: the words, what they say, and the standard input.
#[derive(Drop)]
struct Begun {
    words: Vec<String>,
    plan: Plan,
    source: StdSource<Stdin>,
}

/// Takes the words and reads them, or answers the exit status.
fn begin(rt: &HostRuntime) -> Result<Begun, u8>
    ensures { IfOk result (λ begun. Says begun.words.items begun.plan) }
{
    let words = words_of(rt)?;
    match plan_of(rt.alloc(), words.as_slice()) {
        Ok(plan) => match StdSource::new(rt.alloc(), rt.stdin()) {
            Ok(source) => Ok(Begun {
                words,
                plan,
                source,
            }),
            Err(_) => Err(OUT_OF_MEMORY),
        },
        Err(Usage::NotACommand) => Err(USAGE),
        Err(Usage::NoMemory) => Err(OUT_OF_MEMORY),
    }
}

/// The rig over the folders of a root, which for `serve` are opened side by side.
fn folder_rig<R: Files + AllocGlobal + Threads + Clone + Drop + Send + Sync>(
    rt: &R,
    plan: &Plan,
    root: &str,
    is_locked: bool,
) -> Result<Rig<FileDrive<SystemFolder<R>>, NullAudit>, AllocError>
where
    R::File: Send,
    R::Dir: Send,
    ensures rig { IfOk result (λ rig. IsRigOf plan.now.set rig) }
    ensures locked { IfOk result (λ rig. RigFailsUnlocked is_locked rig) }
{
    if matches!(plan.command, Command::Serve) {
        file_rig_beside(rt, plan.set, root, is_locked)
    } else {
        file_rig(rt, plan.set, root, is_locked)
    }
}

/// Runs over the system's clock and a rig, and for `serve` over doors. Where the address can't be listened at, nothing is done.
fn run_over<
    R: AllocGlobal
        + Clock
        + Eprint
        + Net<Listener = TcpListener, Stream = TcpStream>
        + Threads
        + Wait
        + Copy
        + Drop
        + Send
        + Sync,
    S: Source + Drop,
    K: Sink,
    D: Drive + Send + Drop,
    A: Audit + Send + Drop,
>(rt: &R, words: &[String], plan: &Plan, source: S, sink: &mut K, rig: Rig<D, A>) -> u8
    requires says { Says words.now plan.now }
    requires fits { Fits words.now rig }
    ensures alone { plan.now.command ≢ Serve → EndsWith D.Drive A.entries A.count plan.now.command None rig (wires_of S.Source K.Sink source sink.old)
        (λ left. wires_of S.Source K.Sink left sink.new) result }
{
    let clock = SystemClock::new(*rt);
    let Command::Serve = plan.command else {
        return run_alone(rt, words, source, sink, rig, &clock).ended.status;
    };
    let Ok(rig) = with_ways(*rt, rt.alloc(), rig) else {
        return OUT_OF_MEMORY;
    };
    let Ok(doors) = doors_of(*rt, rt.alloc(), plan.listen.as_str(), plan.workers) else {
        return OUT_OF_MEMORY;
    };
    tell_listening(rt, &doors[0], plan.listen.as_str());
    if doors[0].local_addr().is_none() {
        // No store is opened for nobody, so that no term is taken.
        return READ_FAULT;
    }
    let mut spawner = Spawner::Threads;
    let ended = run(rt, words, source, sink, rig, &clock, doors, &mut spawner).ended;
    tell_starved(rt, ended.starved);
    ended.status
}

/// A door for each worker, all at one address. Where it can't be listened at, each of them fails.
fn doors_of<R: Clock + Net<Listener = TcpListener, Stream = TcpStream> + Copy + Drop + Send>(
    rt: R,
    alloc: Global,
    listen: &str,
    workers: u8,
) -> Result<Vec<TcpDoor<R>>, AllocError>
    requires some { 1 ≤ workers }
    ensures { IfOk result (λ doors. length doors.items ≡ workers) }
{
    let mut doors = Vec::with_capacity(alloc, usize::from(workers))?;
    doors.push(TcpDoor::open(rt, alloc, listen, TcpLimits::usual()))?;
    for _ in 1..workers {
        let door = doors[0].again();
        doors.push(door)?;
    }
    Ok(doors)
}

/// The words behind the program's name, or the exit status where they aren't to be had.
fn words_of(rt: &HostRuntime) -> Result<Vec<String>, u8> {
    let mut words = match env::args(rt) {
        Ok(words) => words,
        Err(error) if error.kind() == ErrorKind::InvalidData => return Err(USAGE),
        Err(_) => return Err(OUT_OF_MEMORY),
    };
    let _name = words.next();
    words.collect(rt.alloc()).map_err(|_| OUT_OF_MEMORY)
}
