//! A door over TCP.

ghost use Rattle.std.specs.Prelude.{◌≡◌, [], false, IfOk, IfSome, IsErr, None, Some};
ghost use Rattle.std.specs.Duration.{as_nanos};
ghost use Rattle.io_base.specs.Count.{CountsFault};
ghost use Rattle.io_base.specs.Door.{Ends, Gives, told_more};
ghost use Rattle.io_base.specs.TcpDoor.{accept_step, door_listens};

use crate::tcp_ends::{end, set_up};
use crate::trail::{Pairs, no_pairs, one_pair};
use crate::{Door, IoFault, Sink, Source, TcpIn, TcpLimits, TcpOut};
use fault_base::count_after;
use ghost_note::Note;
use std::alloc::Global;
use std::io::ErrorKind;
use std::net::{Net, SocketAddr, TcpListener, TcpStream};
use std::sync::Arc;
use std::time::Duration;
use std::{rt, thread};

/// How long the door rests before it asks again, where descriptors or memory are short.
const REST_MILLIS: u64 = 100;

/// A door that listens for connections over TCP. It is never over, and tells the pairs that it gave and those that came back.
/// It counts only what ends it: that it could not be made, or that the system takes no connection for it.
#[derive(Drop)]
pub struct TcpDoor<R> {
    rt: R,
    alloc: Global,
    listener: Option<Arc<TcpListener, Global>>,
    limits: TcpLimits,
    gave: Note<Pairs<TcpIn<R>, TcpOut>>,
    returned: Note<Pairs<TcpIn<R>, TcpOut>>,
    faults: u64,
}

impl<R: Net<Listener = TcpListener, Stream = TcpStream> + rt::Clock + Copy + Send> TcpDoor<R> {
    /// Listens at `listen`, as `127.0.0.1:9000`. Where the door can't be made it is closed: each `next` fails. So it is where
    /// a read or a write may take no time, since no connection could be set up, or a slow peer has none, since no byte of it would
    /// be read.
    pub fn open(rt: R, alloc: Global, listen: &str, limits: TcpLimits) -> TcpDoor<R>
        ensures count { ⟦<TcpDoor<R> as Door>⟧.faults result ≡ 0 }
        ensures gave { ⟦<TcpDoor<R> as Door>⟧.gave result ≡ Some [] }
        ensures returned { ⟦<TcpDoor<R> as Door>⟧.returned result ≡ Some [] }
        ensures idle { as_nanos limits.idle ≡ 0 → door_listens result ≡ false }
        ensures write { as_nanos limits.write ≡ 0 → door_listens result ≡ false }
        ensures slow { as_nanos limits.slow ≡ 0 → door_listens result ≡ false }
    {
        let listener = if limits.idle.is_zero() || limits.write.is_zero() || limits.slow.is_zero() {
            None
        } else {
            listen_at(rt, alloc, listen)
        };
        TcpDoor {
            rt,
            alloc,
            listener,
            limits,
            gave: no_pairs(),
            returned: no_pairs(),
            faults: 0,
        }
    }
}

/// The listener of a new door, or None where it can't be made.
fn listen_at<R: Net<Listener = TcpListener, Stream = TcpStream> + Copy>(
    rt: R,
    alloc: Global,
    listen: &str,
) -> Option<Arc<TcpListener, Global>> {
    let listener = TcpListener::bind(&rt, listen).ok()?;
    Arc::new(alloc, listener).ok()
}

impl<R: rt::Clock + Copy + Send> TcpDoor<R> {
    /// One more door for the same address, which failed at nothing yet, so that each thread waits at a door of its own: a lock
    /// round one door would let no connection end while another one is waited for. Of a closed door, or where no more are
    /// had, it is closed.
    pub fn again(&self) -> TcpDoor<R>
        ensures count { ⟦<TcpDoor<R> as Door>⟧.faults result ≡ 0 }
        ensures gave { ⟦<TcpDoor<R> as Door>⟧.gave result ≡ Some [] }
        ensures returned { ⟦<TcpDoor<R> as Door>⟧.returned result ≡ Some [] }
        ensures closed { door_listens self.now ≡ false → door_listens result ≡ false }
    {
        let listener = match &self.listener {
            Some(listener) => Arc::try_clone(listener).ok(),
            None => None,
        };
        TcpDoor {
            rt: self.rt,
            alloc: self.alloc,
            listener,
            limits: self.limits,
            gave: no_pairs(),
            returned: no_pairs(),
            faults: 0,
        }
    }

    /// Where it listens, or None for a closed door.
    pub fn local_addr(&self) -> Option<SocketAddr>
        ensures { door_listens self.now ≡ false → result ≡ None }
    {
        match &self.listener {
            Some(listener) => listener.local_addr().ok(),
            None => None,
        }
    }
}

impl<R: rt::Clock + Copy + Send> Door for TcpDoor<R> {
    type In = TcpIn<R>;

    type Out = TcpOut;

    ghost over = { λ _. false };

    ghost gave = { λ d. Some d.gave.value };

    ghost returned = { λ d. Some d.returned.value };

    ghost faults = { λ d. d.faults };

    /// Waits for a connection. One that can't be set up is dropped, and the next one is waited for. A closed door fails, and
    /// nothing was asked of the ends of a connection yet.
    fn next(&mut self) -> Result<Option<(TcpIn<R>, TcpOut)>, IoFault>
        ensures over { Ends result false false }
        ensures gave { Gives result (Some self.old.gave.value) (Some self.new.gave.value) }
        ensures returned { Some self.new.returned.value ≡ Some self.old.returned.value }
        ensures counted { CountsFault result self.old.faults self.new.faults }
        ensures closed { door_listens self.old ≡ false → IsErr result }
        ensures stays { door_listens self.new ≡ door_listens self.old }
        ensures source { IfOk result (λ pair. IfSome pair (λ ends. ⟦<TcpIn<R> as Source>⟧.faults ends.0 ≡ 0)) }
        ensures takes { IfOk result (λ pair. IfSome pair (λ ends. ⟦<TcpIn<R> as Source>⟧.takes ends.0 ≡ [])) }
        ensures sink { IfOk result (λ pair. IfSome pair (λ ends. ⟦<TcpOut as Sink>⟧.faults ends.1 ≡ 0)) }
        ensures gives { IfOk result (λ pair. IfSome pair (λ ends. ⟦<TcpOut as Sink>⟧.gives ends.1 ≡ [])) }
    {
        if let Some(listener) = &self.listener {
            if let Some((source, sink)) = accept_from(self.rt, self.alloc, listener, self.limits) {
                self.gave = one_pair(&self.gave, &source, &sink);
                return Ok(Some((source, sink)));
            }
        }
        self.faults = count_after(self.faults);
        Err(IoFault::Failed)
    }

    /// Ends the connection, so that its last reply is not lost where the peer has sent more than was read.
    fn back(&mut self, source: TcpIn<R>, sink: TcpOut)
        ensures returned { Some self.new.returned.value ≡ told_more (Some self.old.returned.value) (source, sink) }
        ensures same { self.new ≡ record self.old { returned = self.new.returned } }
    {
        self.returned = one_pair(&self.returned, &source, &sink);
        end(&self.rt, &source);
    }

    fn faults(&self) -> u64 {
        self.faults
    }
}

/// The next connection that can be set up, or None where the system takes no more.
fn accept_from<R: rt::Clock + Copy>(
    rt: R,
    alloc: Global,
    listener: &TcpListener,
    limits: TcpLimits,
) -> Option<(TcpIn<R>, TcpOut)>
    ensures source { IfSome result (λ ends. ⟦<TcpIn<R> as Source>⟧.faults ends.0 ≡ 0) }
    ensures takes { IfSome result (λ ends. ⟦<TcpIn<R> as Source>⟧.takes ends.0 ≡ []) }
    ensures sink { IfSome result (λ ends. ⟦<TcpOut as Sink>⟧.faults ends.1 ≡ 0) }
    ensures gives { IfSome result (λ ends. ⟦<TcpOut as Sink>⟧.gives ends.1 ≡ []) }
{
    for _ in 0..u64::MAX {
        match listener.accept() {
            Ok((stream, _)) => {
                let ends = set_up(rt, alloc, stream, limits);
                if ends.is_some() {
                    return ends;
                }
            }
            Err(e) => match next_step(e.kind()) {
                Step::Retry => {}
                Step::Rest => thread::sleep(&rt, Duration::from_millis(REST_MILLIS)),
                Step::End => return None,
            },
        }
    }
    None
}

/// What follows where the system gave no connection.
#[derive(Clone, Copy, PartialEq, Eq)]
pub(crate) enum Step {
    Retry,
    Rest,
    End,
}

/// A peer that is gone already and a call that was interrupted are nothing to wait for; all else but what can't get better
/// may be want of descriptors or of memory.
pub(crate) fn next_step(kind: ErrorKind) -> Step
    ensures { result ≡ accept_step kind }
{
    match kind {
        ErrorKind::InvalidInput | ErrorKind::Unsupported | ErrorKind::PermissionDenied => Step::End,
        ErrorKind::Interrupted | ErrorKind::ConnectionAborted | ErrorKind::ConnectionReset =>
            Step::Retry,
        _ => Step::Rest,
    }
}
