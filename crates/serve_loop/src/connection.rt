//! One connection: heads are read, and the request of each is served before the next is read.

ghost use Rattle.std.specs.Prelude.{◌≡◌, ◌↔◌, IsTrue};
ghost use Rattle.serve_loop.specs.Exchanges.{last_number};
ghost use Rattle.serve_loop.specs.Intakes.{IsAtRest};
ghost use Rattle.serve_loop.specs.Replies.{RefusesHead};
ghost use Rattle.serve_loop.specs.Seen.{wire_of, wires_of};
ghost use Rattle.serve_loop.specs.Sending.{sink_view};
ghost use Rattle.serve_loop.specs.Session.{Session};
ghost use Rattle.serve_loop.specs.Steps.{ServesAll, ServesRequest};
ghost use Rattle.serve_loop.specs.Turns.{OnAnswered, unread_for};

use crate::ends::{ConnectionEnd, Turn, turn_of};
use crate::exchange::{Server, serve_head};
use crate::intake::Intake;
use crate::manner::Manner;
use crate::replies::give_refusal;
use call_types::Refusal;
use desk_base::Desk;
use http_wire::{Wire, WireFault};
use io_base::{Clock, Sink, Source};
use std::alloc::Global;
use std::io::Eprint;

/// The most requests that are served on one connection.
pub const MOST_REQUESTS: u64 = 1_000_000;

/// A connection that was served: how it ended, and its source.
#[derive(Drop)]
pub struct Served<S> {
    /// How it ended.
    pub end: ConnectionEnd,
    /// The source, after all that was taken from it.
    pub source: S,
}

/// Serves the requests of a connection, one after another. It gives the reply of each before it reads the next.
/// It says a reply that is a 5xx refusal on standard error too, except 501.
pub fn serve_connection<R: Eprint, K: Desk, S: Source + Drop, T: Sink, C: Clock>(
    rt: &R,
    alloc: Global,
    desk: &K,
    pass: &mut K::Pass,
    source: S,
    sink: &mut T,
    clock: &C,
) -> Served<S>
    requires fits { K.fits desk.now (K.holds pass.old) }
    ensures session { Session (K.answers desk.now) (C.moment clock.now) pass.old pass.new result.end
        (wires_of S.Source T.Sink source sink.old)
        (wires_of S.Source T.Sink result.source sink.new) }
    ensures holds { K.holds pass.new ≡ K.holds pass.old }
{
    let server = Server {
        rt,
        alloc,
        desk,
        clock,
    };
    match Wire::new(alloc, source) {
        Ok(wire) => {
            let mut intake = Intake::new(wire);
            let end = serve_all(&server, pass, &mut intake, sink);
            Served {
                end,
                source: intake.into_source(),
            }
        }
        Err(source) => Served {
            end: ConnectionEnd::NoMemory,
            source,
        },
    }
}

/// Serves requests until the connection ends.
fn serve_all<R: Eprint, K: Desk, C: Clock, S: Source + Drop, T: Sink>(
    server: &Server<'_, R, K, C>,
    pass: &mut K::Pass,
    intake: &mut Intake<S>,
    sink: &mut T,
) -> ConnectionEnd
    requires fits { K.fits server.now.desk.now (K.holds pass.old) }
    requires rests { IsAtRest (wire_of intake.old) }
    ensures session { ServesAll T.Sink (K.answers server.now.desk.now) (C.moment server.now.clock.now) result pass.old pass.new
        intake.old intake.new sink.old sink.new }
    ensures holds { K.holds pass.new ≡ K.holds pass.old }
{
    for number in 0..MOST_REQUESTS {
        match serve_one(server, pass, is_last(number), intake, sink) {
            Turn::Answered => {}
            Turn::Ended(end) => return end,
        }
    }
    ConnectionEnd::Closed
}

/// Whether no request is served after the one of this number, from 0.
fn is_last(number: u64) -> bool
    ensures { IsTrue result ↔ (number ≡ last_number) }
{
    number == MOST_REQUESTS - 1
}

/// Reads one request and answers it.
fn serve_one<R: Eprint, K: Desk, C: Clock, S: Source + Drop, T: Sink>(
    server: &Server<'_, R, K, C>,
    pass: &mut K::Pass,
    is_last: bool,
    intake: &mut Intake<S>,
    sink: &mut T,
) -> Turn
    requires fits { K.fits server.now.desk.now (K.holds pass.old) }
    requires rests { IsAtRest (wire_of intake.old) }
    ensures turn { ServesRequest T.Sink (K.answers server.now.desk.now) (C.moment server.now.clock.now) result is_last pass.old pass.new
        intake.old intake.new sink.old sink.new }
    ensures rests { OnAnswered result (IsAtRest (wire_of intake.new)) }
    ensures holds { K.holds pass.new ≡ K.holds pass.old }
{
    match intake.next_head(server.alloc) {
        Ok(Some(head)) => serve_head(server, pass, &head, is_last, intake, sink),
        Ok(None) => Turn::Ended(ConnectionEnd::Over),
        Err(fault) => match unread(fault) {
            Ok(why) => refuse_head(server.rt, server.alloc, server.clock.now(), sink, why),
            Err(end) => Turn::Ended(end),
        },
    }
}

/// The refusal of bytes that are no head which is served, or else the end of a connection whose next head can't be read.
fn unread(fault: WireFault) -> Result<Refusal, ConnectionEnd>
    ensures { result ≡ unread_for fault }
{
    match fault {
        WireFault::BadHead => Ok(Refusal::BadHead),
        WireFault::HeadTooLong => Ok(Refusal::HeadTooLong),
        WireFault::ChunkedBody => Ok(Refusal::ChunkedBody),
        WireFault::BodyCut { .. } => Err(ConnectionEnd::InputCut),
        WireFault::ReadFault => Err(ConnectionEnd::ReadFault),
        WireFault::NoMemory => Err(ConnectionEnd::NoMemory),
    }
}

/// Refuses a head and closes.
fn refuse_head<R: Eprint, T: Sink>(
    rt: &R,
    alloc: Global,
    now: u64,
    sink: &mut T,
    why: Refusal,
) -> Turn
    ensures { RefusesHead result why now (sink_view T.Sink sink.old) (sink_view T.Sink sink.new) (T.faults sink.old) (T.faults sink.new) }
{
    turn_of(
        give_refusal(rt, alloc, sink, None, why, now, true),
        Manner::ServerCloses,
    )
}
