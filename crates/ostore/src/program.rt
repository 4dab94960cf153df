//! What the program does with its words, its input and its rig.

ghost use Rattle.ostore.specs.Program.{Does, EndsUndone, Fits, SaysNothing};
ghost use Rattle.ostore.specs.Rigs.{IsRigOf};
ghost use Rattle.command_line.specs.Words.{Says};
ghost use Rattle.command_line.specs.declared.plan.Plan.{Plan as CommandLine};
ghost use Rattle.serve_loop.specs.Seen.{wires_of};

use crate::piping::{Finished, pipe};
use crate::rig::{Ended, Rig};
use crate::statuses::{OUT_OF_MEMORY, USAGE};
use crate::surveying::status;
use audit_trail::Audit;
use command_line::{Command, Usage, plan_of};
use drive_base::Drive;
use io_base::{Clock, Sink, Source};
use std::alloc::Global;
use std::io::Eprint;

/// Does the command that the words say, on one thread. The words of `serve` are none of these commands.
pub fn run_alone<R: AllocGlobal + Eprint, S: Source + Drop, K: Sink, D: Drive, A: Audit, C: Clock>(
    rt: &R,
    words: &[String],
    source: S,
    sink: &mut K,
    rig: Rig<D, A>,
    clock: &C,
) -> Finished<D, A, S>
    requires fits { Fits words.now rig }
    ensures usage { SaysNothing words.now → EndsUndone D.Drive A.entries A.count rig result.ended
        (wires_of S.Source K.Sink source sink.old)
        (wires_of S.Source K.Sink result.source sink.new) }
    ensures does { (plan : CommandLine) → Says words.now plan → Does D.Drive A.entries A.count plan.command (C.moment clock.now) rig result.ended
        (wires_of S.Source K.Sink source sink.old)
        (wires_of S.Source K.Sink result.source sink.new) }
{
    let alloc = rt.alloc();
    match plan_of(alloc, words) {
        Ok(plan) => run_command(rt, alloc, plan.command, source, sink, rig, clock),
        Err(Usage::NotACommand) => Finished {
            ended: Ended::with(USAGE, rig),
            source,
        },
        Err(Usage::NoMemory) => Finished {
            ended: Ended::with(OUT_OF_MEMORY, rig),
            source,
        },
    }
}

/// Does one command. That of `serve` is not done: the exit status is 2.
pub fn run_command<R: Eprint, S: Source + Drop, K: Sink, D: Drive, A: Audit, C: Clock>(
    rt: &R,
    alloc: Global,
    command: Command,
    source: S,
    sink: &mut K,
    rig: Rig<D, A>,
    clock: &C,
) -> Finished<D, A, S>
    requires fits { IsRigOf rig.set rig }
    ensures { Does D.Drive A.entries A.count command (C.moment clock.now) rig result.ended
        (wires_of S.Source K.Sink source sink.old)
        (wires_of S.Source K.Sink result.source sink.new) }
{
    match command {
        Command::Pipe => pipe(rt, alloc, source, sink, rig, clock),
        Command::Status => Finished {
            ended: status(alloc, sink, rig),
            source,
        },
        Command::Serve => Finished {
            ended: Ended::with(USAGE, rig),
            source,
        },
    }
}
