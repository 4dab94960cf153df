//! How connections, the requests on them, and the serving of a door end.

ghost use Rattle.std.specs.Prelude.{◌≡◌, ◌+◌};
ghost use Rattle.serve_loop.specs.Doors.{capped, want_in};
ghost use Rattle.serve_loop.specs.Turns.{end_for, turn_for};

use crate::manner::Manner;
use call_types::{Cut, Whys};

/// How a connection ended.
#[derive(Clone, Copy)]
pub enum ConnectionEnd {
    /// The source was read to its end, or the client asked to close.
    Over,
    /// The server closed after a refusal that closes, or after as many requests as it serves on one connection.
    Closed,
    /// The source ended inside a head or a body.
    InputCut,
    /// The source failed, and counted it.
    ReadFault,
    /// The sink failed, and counted it.
    WriteFault,
    /// Too few drives had a shard of a reply's body, so it was cut after its head: why, for each drive.
    ReplyCut(Whys),
    /// There was not enough memory.
    NoMemory,
}

/// How the serving of a door ended.
#[derive(Clone, Copy)]
pub enum DoorEnd {
    /// No connection will come any more.
    Over,
    /// The door failed: its count of faults before the serving and after it.
    DoorFailed { before: u64, after: u64 },
}

/// What one request led to.
#[derive(Clone, Copy)]
pub enum Turn {
    /// It was answered, and the next may be read.
    Answered,
    /// The connection has ended.
    Ended(ConnectionEnd),
}

/// The end of a connection in whose last exchange this cut came.
pub(crate) fn end_of(cut: Cut) -> ConnectionEnd
    ensures { result ≡ end_for cut }
{
    match &cut {
        Cut::ReadFault => ConnectionEnd::ReadFault,
        Cut::BodyCut { .. } => ConnectionEnd::InputCut,
        Cut::WriteFault => ConnectionEnd::WriteFault,
        Cut::ShardCut(whys) => ConnectionEnd::ReplyCut(*whys),
        Cut::NoMemory => ConnectionEnd::NoMemory,
    }
}

/// A count of connections that ended for want of memory, after one more connection. It stays at its greatest value.
pub(crate) fn count_want(starved: u64, end: &ConnectionEnd) -> u64
    ensures { result ≡ capped (starved + want_in end.now) }
{
    match end {
        ConnectionEnd::NoMemory => starved.saturating_add(1),
        _ => starved,
    }
}

/// What an exchange leads to whose reply was given, or cut.
pub(crate) fn turn_of(answer: Result<(), Cut>, manner: Manner) -> Turn
    ensures { result ≡ turn_for answer manner }
{
    match answer {
        Ok(()) => match manner {
            Manner::Stays => Turn::Answered,
            Manner::ClientCloses => Turn::Ended(ConnectionEnd::Over),
            Manner::ServerCloses => Turn::Ended(ConnectionEnd::Closed),
        },
        Err(cut) => Turn::Ended(end_of(cut)),
    }
}
