//! One exchange after its head: the call of a head is served, or refused.

ghost use Rattle.std.specs.Prelude.{◌≡◌, ◌<◌, false, OnOk};
ghost use Rattle.desk_base.specs.Calls.{IsLawful, stated_length};
ghost use Rattle.http_wire.specs.Framing.{SaysLength};
ghost use Rattle.io_base.specs.Clock.{year_10000};
ghost use Rattle.s3_request.specs.Bodies.{StatesLength};
ghost use Rattle.serve_loop.specs.Exchanges.{leaves_body};
ghost use Rattle.serve_loop.specs.Intakes.{IsAtRest};
ghost use Rattle.serve_loop.specs.Seen.{told_of, wire_of};
ghost use Rattle.serve_loop.specs.Steps.{FinishesReply, ReadiesIntake, RefusesCall, ServesCall, ServesHead};
ghost use Rattle.serve_loop.specs.Turns.{BreaksOff, OnAnswered};

use crate::ends::{ConnectionEnd, Turn, turn_of};
use crate::intake::Intake;
use crate::manner::{leaves_body, manner_of};
use crate::replies::{ReplyTeller, give_refusal, greet};
use call_types::{Cut, Refusal};
use desk_base::{Call, Desk};
use http_wire::Head;
use io_base::{Clock, Sink, Source};
use s3_request::{CallFault, read_call};
use std::alloc::Global;
use std::io::Eprint;

/// The most bytes of a body: 5 GiB.
pub const MOST_BODY: u64 = 5_368_709_120;

/// What serves all requests of a connection: the runtime, the allocator, the desk and the clock.
#[derive(Drop)]
pub(crate) struct Server<'a, R, K, C> {
    pub(crate) rt: &'a R,
    pub(crate) alloc: Global,
    pub(crate) desk: &'a K,
    pub(crate) clock: &'a C,
}

/// Serves the request of a head.
pub(crate) fn serve_head<R: Eprint, K: Desk, C: Clock, S: Source + Drop, T: Sink>(
    server: &Server<'_, R, K, C>,
    pass: &mut K::Pass,
    head: &Head,
    is_last: bool,
    intake: &mut Intake<S>,
    sink: &mut T,
) -> Turn
    requires fits { K.fits server.now.desk.now (K.holds pass.old) }
    requires states { SaysLength head.now.lines intake.old.stated }
    requires fresh { intake.old.wire.body_left ≡ intake.old.stated }
    ensures turn { ServesHead T.Sink (K.answers server.now.desk.now) (C.moment server.now.clock.now) result head.now is_last pass.old pass.new
        intake.old intake.new sink.old sink.new }
    ensures rests { OnAnswered result (IsAtRest (wire_of intake.new)) }
    ensures holds { K.holds pass.new ≡ K.holds pass.old }
{
    let now = server.clock.now();
    match read_call(server.alloc, head, MOST_BODY) {
        Ok(call) => {
            let manner = manner_of(head, is_last, false);
            let close = manner.closes();
            let answer = serve_call(server, pass, head, &call, now, close, intake, sink);
            drop(call);
            turn_of(answer, manner)
        }
        Err(CallFault::Refused(why)) => {
            let manner = manner_of(head, is_last, leaves_body(&why));
            let close = manner.closes();
            let answer = refuse(server.rt, server.alloc, head, why, now, close, intake, sink);
            turn_of(answer, manner)
        }
        Err(CallFault::NoMemory) => Turn::Ended(ConnectionEnd::NoMemory),
    }
}

/// Has the desk serve a call, and gives the reply once the body is read to its end.
/// Where the call takes no body, the body is read before.
fn serve_call<R: Eprint, K: Desk, C, S: Source + Drop, T: Sink>(
    server: &Server<'_, R, K, C>,
    pass: &mut K::Pass,
    head: &Head,
    call: &Call,
    now: u64,
    close: bool,
    intake: &mut Intake<S>,
    sink: &mut T,
) -> Result<(), Cut>
    requires fits { K.fits server.now.desk.now (K.holds pass.old) }
    requires lawful { IsLawful call.now }
    requires moment { now < year_10000 }
    requires states { StatesLength intake.old.stated call.now }
    requires fresh { intake.old.wire.body_left ≡ intake.old.stated }
    ensures goes { ServesCall T.Sink (K.answers server.now.desk.now) result head.now call.now now close pass.old pass.new
        intake.old intake.new sink.old sink.new }
    ensures rests { OnOk result (IsAtRest (wire_of intake.new)) }
    ensures holds { K.holds pass.new ≡ K.holds pass.old }
{
    greet(sink, head, intake.body_left())?;
    ready(call, intake)?;
    let mut held = Vec::new(server.alloc);
    let mut teller = ReplyTeller {
        rt: server.rt,
        alloc: server.alloc,
        sink,
        head,
        call,
        now,
        close,
        waits: call.stated_length() > 0,
        held: &mut held,
    };
    match server
        .desk
        .call(server.alloc, pass, call, now, intake, &mut teller)
    {
        Ok(_) => finish(intake, &mut teller),
        Err(cut) => break_off(cut, &mut teller),
    }
}

/// Leaves the body to a call that takes one, and reads and drops it before a call that takes none.
fn ready<S: Source + Drop>(call: &Call, intake: &mut Intake<S>) -> Result<(), Cut>
    requires fresh { intake.old.wire.body_left ≡ intake.old.stated }
    requires states { StatesLength intake.old.stated call.now }
    ensures readies { ReadiesIntake result (stated_length call.now) intake.old intake.new }
{
    if call.stated_length() == 0 {
        intake.pass_over()?;
        intake.stated = 0;
    }
    Ok(())
}

/// Reads the rest of the body, and then gives what is left of a reply.
fn finish<R, S: Source + Drop, T: Sink>(
    intake: &mut Intake<S>,
    teller: &mut ReplyTeller<'_, R, T>,
) -> Result<(), Cut>
    ensures name { teller.new.sink.ghost_name ≡ teller.old.sink.ghost_name }
    ensures finishes { FinishesReply T.Sink result intake.old intake.new teller.old teller.new }
{
    intake.pass_over()?;
    teller.flush()
}

/// Gives what was told of a reply whose body was cut. Where the call was cut otherwise, it gives nothing.
fn break_off<R, T: Sink>(cut: Cut, teller: &mut ReplyTeller<'_, R, T>) -> Result<(), Cut>
    ensures name { teller.new.sink.ghost_name ≡ teller.old.sink.ghost_name }
    ensures breaks { BreaksOff cut result (told_of T.Sink teller.old) (told_of T.Sink teller.new)
        (T.faults teller.old.sink.now) (T.faults teller.new.sink.now) }
{
    if let Cut::ShardCut(_) = &cut {
        teller.flush()?;
    }
    Err(cut)
}

/// Refuses the call of a head: at once where its body is left unread, and else after the body.
fn refuse<R: Eprint, S: Source + Drop, T: Sink>(
    rt: &R,
    alloc: Global,
    head: &Head,
    why: Refusal,
    now: u64,
    close: bool,
    intake: &mut Intake<S>,
    sink: &mut T,
) -> Result<(), Cut>
    requires fresh { intake.old.wire.body_left ≡ intake.old.stated }
    ensures goes { RefusesCall T.Sink result head.now why now close intake.old intake.new sink.old sink.new }
    ensures rests { leaves_body why ≡ false → OnOk result (IsAtRest (wire_of intake.new)) }
{
    if leaves_body(&why) {
        return give_refusal(rt, alloc, sink, Some(head), why, now, close);
    }
    greet(sink, head, intake.body_left())?;
    intake.pass_over()?;
    give_refusal(rt, alloc, sink, Some(head), why, now, close)
}
