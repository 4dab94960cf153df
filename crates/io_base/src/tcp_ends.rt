//! The two ends of a connection over TCP, which share one descriptor.

ghost use Rattle.std.specs.Prelude.{◌≡◌, ◌≤◌, [], None, IfSome, IsErr};
ghost use Rattle.std.specs.Duration.{as_nanos};
ghost use Rattle.std.specs.Io.{ReadsAtMost};
ghost use Rattle.std.specs.Io.KnownBytes.{ReadConsumes};
ghost use Rattle.io_base.specs.Pace.{CountsWait, no_wait, waited_of};

use crate::pace::Pace;
use crate::{IoFault, Sink, Source, StdSink, StdSource, TcpLimits};
use std::alloc::Global;
use std::io::{ErrorKind, Read, Write};
use std::net::{Shutdown, TcpStream};
use std::sync::Arc;
use std::time::Duration;
use std::{io, rt};

/// How often a connection that ends is read at most, 4 KiB each time.
const END_READS: u64 = 16;

/// Reads from a connection. It fails where the peer gives nothing for the connection's idle time, and where it gave less than
/// 1 KiB while it was waited for too long.
#[derive(Drop)]
pub struct TcpReader<R> {
    socket: Arc<TcpStream, Global>,
    rt: R,
    slow: Duration,
    pace: Pace,
}

impl<R> TcpReader<R> {
    /// Forgets how long the peer was waited for.
    pub(crate) fn begin(&mut self)
        ensures pace { waited_of self.new.pace ≡ no_wait }
        ensures same { self.new.slow ≡ self.old.slow }
    {
        self.pace = Pace::new();
    }
}

impl<R: rt::Clock + Drop> Read for TcpReader<R> {
    fn read(&mut self, buf: &mut [u8]) -> io::Result<usize>
        ensures bound { ReadsAtMost result buf.new }
        ensures bytes { ReadConsumes None None result buf.new }
        ensures slow { as_nanos self.old.slow ≤ (waited_of self.old.pace).nanos → IsErr result }
        ensures pace { CountsWait result (waited_of self.old.pace) (waited_of self.new.pace) }
        ensures same { self.new.slow ≡ self.old.slow }
    {
        if self.pace.is_slow(self.slow) {
            return Err(io::Error::from(ErrorKind::TimedOut));
        }
        let start = self.rt.monotonic()?;
        let mut socket: &TcpStream = &self.socket;
        let answer = socket.read(buf);
        let end = self.rt.monotonic().unwrap_or(start);
        let count = match &answer {
            Ok(count) => *count,
            Err(_) => 0,
        };
        self.pace = self.pace.after(end.saturating_sub(start), count);
        answer
    }
}

/// Writes to a connection. It fails where the peer takes nothing for the time that a write may take.
#[derive(Drop)]
pub struct TcpWriter {
    socket: Arc<TcpStream, Global>,
}

impl Write for TcpWriter {
    fn write(&mut self, buf: &[u8]) -> io::Result<usize> {
        let mut socket: &TcpStream = &self.socket;
        socket.write(buf)
    }

    fn flush(&mut self) -> io::Result<()> {
        Ok(())
    }
}

/// Where the bytes of a connection over TCP come from. It tells the takes that were asked of it, and not what the peer still
/// sends.
#[derive(Drop)]
pub struct TcpIn<R> {
    source: StdSource<TcpReader<R>>,
    socket: Arc<TcpStream, Global>,
    linger: Duration,
    /// Whether the peer has ended, or was cut.
    is_over: bool,
}

/// Where the bytes of a connection over TCP go to. It tells the bytes of the gives that the system took.
pub type TcpOut = StdSink<TcpWriter>;

impl<R: rt::Clock + Drop> Source for TcpIn<R> {
    ghost left = { λ _. None };

    ghost takes = { λ s. ⟦<StdSource<TcpReader<R>> as Source>⟧.takes s.source };

    ghost faults = { λ s. ⟦<StdSource<TcpReader<R>> as Source>⟧.faults s.source };

    fn take(&mut self, into: &mut [u8]) -> Result<usize, IoFault> {
        let answer = self.source.take(into);
        match answer {
            Ok(0) if into.is_empty() => {}
            Ok(0) | Err(_) => self.is_over = true,
            Ok(_) => {}
        }
        answer
    }

    fn begin_message(&mut self) {
        self.source.begin();
    }

    fn read_faults(&self) -> u64 {
        self.source.read_faults()
    }
}

/// The ends of a connection, of which nothing was asked yet, or None where it can't be set up.
pub(crate) fn set_up<R: rt::Clock + Copy>(
    rt: R,
    alloc: Global,
    stream: TcpStream,
    limits: TcpLimits,
) -> Option<(TcpIn<R>, TcpOut)>
    ensures source { IfSome result (λ pair. ⟦<TcpIn<R> as Source>⟧.faults pair.0 ≡ 0) }
    ensures takes { IfSome result (λ pair. ⟦<TcpIn<R> as Source>⟧.takes pair.0 ≡ []) }
    ensures sink { IfSome result (λ pair. ⟦<TcpOut as Sink>⟧.faults pair.1 ≡ 0) }
    ensures gives { IfSome result (λ pair. ⟦<TcpOut as Sink>⟧.gives pair.1 ≡ []) }
{
    stream.set_nodelay(true).ok()?;
    stream.set_read_timeout(Some(limits.idle)).ok()?;
    stream.set_write_timeout(Some(limits.write)).ok()?;
    let socket = Arc::new(alloc, stream).ok()?;
    let reader = TcpReader {
        socket: Arc::try_clone(&socket).ok()?,
        rt,
        slow: limits.slow,
        pace: Pace::new(),
    };
    let writer = TcpWriter {
        socket: Arc::try_clone(&socket).ok()?,
    };
    let source = TcpIn {
        source: StdSource::new(alloc, reader).ok()?,
        socket,
        linger: limits.linger,
        is_over: false,
    };
    Some((source, StdSink::new(writer)))
}

/// Where the server ends a connection: says that no more is written, and reads what the peer still sends, up to 64 KiB and for
/// a short time, since the system answers unread bytes with a reset that can overtake the last reply.
pub(crate) fn end<R: rt::Clock + Drop>(rt: &R, source: &TcpIn<R>) {
    if source.is_over || source.socket.shutdown(Shutdown::Write).is_err() {
        return;
    }
    let _ = drain(rt, &source.socket, source.linger);
}

/// Reads and drops what comes until the peer has ended, the time is over, or 64 KiB were read.
fn drain<R: rt::Clock>(rt: &R, mut socket: &TcpStream, time: Duration) -> io::Result<()> {
    let start = rt.monotonic()?;
    let mut bytes = [0u8; 4096];
    for _ in 0..END_READS {
        let left = time.saturating_sub(rt.monotonic()?.saturating_sub(start));
        socket.set_read_timeout(Some(left))?;
        if socket.read(&mut bytes)? == 0 {
            break;
        }
    }
    Ok(())
}
