//! The whole program: every command, and for `serve` doors and a spawner.

ghost use Rattle.std.specs.Prelude.{◌≡◌, ◌<◌, None, Some, length};
ghost use Rattle.io_base.specs.Spawner.{spawner_faults};
ghost use Rattle.ostore.specs.Program.{Fits, SaysNothing};
ghost use Rattle.ostore.specs.Serving.{AllUndone, DoesAll, without_door};
ghost use Rattle.ostore.specs.declared.gate.NoGate.{NoGate};
ghost use Rattle.command_line.specs.Words.{Says};
ghost use Rattle.command_line.specs.declared.plan.Plan.{Plan as CommandLine};
ghost use Rattle.serve_loop.specs.Seen.{wires_of};
ghost use Rattle.turn_lock.specs.declared.lock.TheConstants.{ALL_PARTS};

use crate::gate::NoGate;
use crate::laws::{begun_law, served_law};
use crate::piping::Finished;
use crate::program::run_command;
use crate::rig::{Ended, Rig};
use crate::serving::serve;
use crate::statuses::{OUT_OF_MEMORY, USAGE};
use audit_trail::Audit;
use command_line::{Command, Usage, plan_of};
use drive_file::Share;
use io_base::{Clock, Door, Sink, Source, Spawner};
use std::io::Eprint;
use std::sync::Wait;
use std::thread::Threads;

/// A run that has ended, with its source and its doors.
#[derive(Drop)]
pub struct Ran<D, A, S, O> {
    /// How it ended.
    pub ended: Ended<D, A, Vec<O>>,
    /// The source, behind all that was taken from it.
    pub source: S,
}

/// Does the command that the words say. For `serve` each door has a worker of its own, beside the others; for all others no door is touched.
pub fn run<
    R: AllocGlobal + Eprint + Threads + Wait + Copy + Drop + Send + Sync,
    S: Source + Drop,
    K: Sink,
    D: Share + Send + Drop,
    A: Audit + Send + Drop,
    C: Clock + Sync,
    O: Door + Send + Drop,
>(
    rt: &R,
    words: &[String],
    source: S,
    sink: &mut K,
    rig: Rig<D, A>,
    clock: &C,
    doors: Vec<O>,
    spawner: &mut Spawner,
) -> Ran<D, A, S, O>
    requires fits { Fits words.now rig }
    requires few { length doors.items < ALL_PARTS }
    ensures usage { SaysNothing words.now → AllUndone R NoGate D.Drive D.root A.entries A.count O.Door O.In.Source O.Out.Sink (C.moment clock.now) clock.now rig doors.items (spawner_faults spawner.old) (spawner_faults spawner.new) result.ended
        (wires_of S.Source K.Sink source sink.old)
        (wires_of S.Source K.Sink result.source sink.new) }
    ensures does { (plan : CommandLine) → Says words.now plan → DoesAll R NoGate D.Drive D.root A.entries A.count O.Door O.In.Source O.Out.Sink (C.moment clock.now) clock.now plan.command rig doors.items (spawner_faults spawner.old) (spawner_faults spawner.new) result.ended
        (wires_of S.Source K.Sink source sink.old)
        (wires_of S.Source K.Sink result.source sink.new) }
{
    begun_law::<R, D, A, C, O, NoGate>();
    served_law::<R, D, A, C, O, NoGate>();
    let alloc = rt.alloc();
    match plan_of(alloc, words) {
        Ok(plan) => match plan.command {
            Command::Serve => Ran {
                ended: serve(rt, alloc, rig, clock, doors, spawner, NoGate),
                source,
            },
            command => with_doors(
                run_command(rt, alloc, command, source, sink, rig, clock),
                doors,
            ),
        },
        Err(Usage::NotACommand) => undone(USAGE, rig, source, doors),
        Err(Usage::NoMemory) => undone(OUT_OF_MEMORY, rig, source, doors),
    }
}

/// A run that did nothing.
fn undone<D, A, S, O>(status: u8, rig: Rig<D, A>, source: S, doors: Vec<O>) -> Ran<D, A, S, O>
    ensures status { result.ended.status ≡ status }
    ensures rig { result.ended.rig ≡ Some rig }
    ensures opening { result.ended.opening ≡ None }
    ensures line { result.ended.line ≡ None }
    ensures starved { result.ended.starved ≡ 0 }
    ensures doors { result.ended.door ≡ doors }
    ensures source { result.source ≡ source }
{
    with_doors(
        Finished {
            ended: Ended::with(status, rig),
            source,
        },
        doors,
    )
}

/// A run of a command without doors, and the doors.
fn with_doors<D, A, S, O>(finished: Finished<D, A, S>, doors: Vec<O>) -> Ran<D, A, S, O>
    ensures ended { without_door result.ended ≡ finished.ended }
    ensures doors { result.ended.door ≡ doors }
    ensures source { result.source ≡ finished.source }
{
    let Finished { ended, source } = finished;
    let Ended {
        status,
        rig,
        opening,
        line,
        starved,
        door: _,
    } = ended;
    Ran {
        ended: Ended {
            status,
            rig,
            opening,
            line,
            starved,
            door: doors,
        },
        source,
    }
}
