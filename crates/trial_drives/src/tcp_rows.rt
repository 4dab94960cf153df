//! Rows over the door over TCP of `io_base`, on the loopback and by one thread: the system keeps connections and bytes
//! until they are taken.

use io_base::{Door, IoFault, Sink, Source, TcpDoor, TcpIn, TcpLimits, TcpOut};
use std::alloc::Global;
use std::io::{self, ErrorKind, Read, Write};
use std::net::{Shutdown, TcpStream};
use std::time::Duration;
use trial_base::{NoAnswer, first, number, said, said_bytes, word};

/// A door over TCP, and another one for the same address.
#[derive(Drop)]
pub struct TcpDoors {
    rt: HostRuntime,
    first: TcpDoor<HostRuntime>,
    second: TcpDoor<HostRuntime>,
}

/// A client of a door, and the two ends that the door gave for it.
#[derive(Drop)]
struct Met {
    client: TcpStream,
    source: TcpIn<HostRuntime>,
    sink: TcpOut,
}

/// Short times, so that nobody waits long, and this long for a slow peer.
fn short(slow: Duration) -> TcpLimits {
    TcpLimits {
        idle: Duration::from_millis(50),
        write: Duration::from_millis(50),
        slow,
        linger: Duration::from_millis(50),
    }
}

/// The limits `usual`, `short`, `strict` where a peer is slow at once, and `none` where it has no time at all.
fn limits(word: &str) -> Option<TcpLimits> {
    match word {
        "usual" => Some(TcpLimits::usual()),
        "short" => Some(short(Duration::from_secs(60))),
        "strict" => Some(short(Duration::from_millis(40))),
        "none" => Some(short(Duration::from_secs(0))),
        _ => None,
    }
}

/// Connects to a door.
fn meet(rt: HostRuntime, door: &mut TcpDoor<HostRuntime>) -> io::Result<Met> {
    let Some(addr) = door.local_addr() else {
        return Err(io::Error::from(ErrorKind::NotFound));
    };
    let client = TcpStream::connect(&rt, addr)?;
    client.set_read_timeout(Some(Duration::from_secs(10)))?;
    match door.next() {
        Ok(Some((source, sink))) => Ok(Met {
            client,
            source,
            sink,
        }),
        _ => Err(io::Error::from(ErrorKind::NotFound)),
    }
}

/// What a server and its client read: a request, a reply, and how many bytes come after it.
#[derive(Clone, Copy)]
struct Exchange {
    request: [u8; 3],
    reply: [u8; 4],
    after: usize,
}

/// Serves one client, which asks and then sends no more.
fn serve_one(rt: HostRuntime, door: &mut TcpDoor<HostRuntime>) -> io::Result<Exchange> {
    let Met {
        mut client,
        mut source,
        mut sink,
    } = meet(rt, door)?;
    client.write_all(b"ask more")?;
    let mut request = [0u8; 3];
    if source.take(&mut request) != Ok(3) || sink.give(b"told").is_err() {
        return Err(io::Error::from(ErrorKind::InvalidData));
    }
    client.shutdown(Shutdown::Write)?;
    door.back(source, sink);
    let mut reply = [0u8; 4];
    client.read_exact(&mut reply)?;
    let mut more = [0u8; 1];
    let after = client.read(&mut more)?;
    Ok(Exchange {
        request,
        reply,
        after,
    })
}

/// `serve`: the request that was taken, the reply that was read, and how many bytes came after it.
fn served(
    alloc: Global,
    rt: HostRuntime,
    door: &mut TcpDoor<HostRuntime>,
) -> Result<String, NoAnswer> {
    let Ok(exchange) = serve_one(rt, door) else {
        return said(alloc, "not served");
    };
    let request = said_bytes(alloc, "", exchange.request.as_slice())?;
    let reply = said_bytes(alloc, "", exchange.reply.as_slice())?;
    let after = exchange.after;
    Ok(format!(in alloc;
        "{request}, {reply}, {after} more, faults {}",
        door.faults()
    )?)
}

/// What a take gave.
fn taken(answer: Result<usize, IoFault>) -> &'static str {
    match answer {
        Ok(3) => "three bytes",
        Ok(0) => "the end",
        Ok(_) => "bytes",
        Err(IoFault::Failed) => "failed",
    }
}

/// `wait`: what a take gives where the peer sends nothing, and where it has sent three bytes since.
fn waited(
    alloc: Global,
    rt: HostRuntime,
    door: &mut TcpDoor<HostRuntime>,
) -> Result<String, NoAnswer> {
    let Ok(mut met) = meet(rt, door) else {
        return said(alloc, "not met");
    };
    let mut bytes = [0u8; 64];
    let idle = taken(met.source.take(&mut bytes));
    let sent = if met.client.write_all(b"ask").is_ok() {
        "sent"
    } else {
        "not sent"
    };
    let then = taken(met.source.take(&mut bytes));
    Ok(format!(in alloc;
        "{idle}, {sent}, {then}, faults {}",
        met.source.read_faults()
    )?)
}

/// `flood`: what comes of gives to a peer that takes nothing. The system keeps some megabytes for it.
fn flooded(
    alloc: Global,
    rt: HostRuntime,
    door: &mut TcpDoor<HostRuntime>,
) -> Result<String, NoAnswer> {
    let Ok(
        Met {
            client,
            source,
            mut sink,
        },
    ) = meet(rt, door)
    else {
        return said(alloc, "not met");
    };
    let piece = [0u8; 65_536];
    let mut answer = Ok(());
    for _ in 0..1024u64 {
        if answer.is_ok() {
            answer = sink.give(&piece);
        }
    }
    let gave = match answer {
        Ok(()) => "done",
        Err(IoFault::Failed) => "failed",
    };
    let faults = sink.write_faults();
    door.back(source, sink);
    drop(client);
    Ok(format!(in alloc; "{gave}, faults {faults}, of the door {}", door.faults())?)
}

/// `next`: what a door gives, and how many faults it counted.
fn next(alloc: Global, door: &mut TcpDoor<HostRuntime>) -> Result<String, NoAnswer> {
    let gave = match door.next() {
        Ok(Some(_)) => "a connection",
        Ok(None) => "over",
        Err(IoFault::Failed) => "failed",
    };
    Ok(format!(in alloc; "{gave}, faults {}", door.faults())?)
}

impl TcpDoors {
    /// Doors that are closed.
    pub fn new(rt: HostRuntime) -> TcpDoors {
        let first = TcpDoor::open(rt, rt.alloc(), "", TcpLimits::usual());
        let second = first.again();
        TcpDoors { rt, first, second }
    }

    /// `open LIMITS ADDRESS`: whether the door listens.
    fn open(&mut self, alloc: Global, row: &str) -> Result<String, NoAnswer> {
        let (word, listen) = first(row);
        let Some(limits) = limits(word) else {
            return said(alloc, "no such limits");
        };
        self.first = TcpDoor::open(self.rt, alloc, listen, limits);
        self.second = self.first.again();
        said(
            alloc,
            if self.first.local_addr().is_some() {
                "listens"
            } else {
                "closed"
            },
        )
    }

    /// What a call on a door gave, which is the first one or `again` the second.
    pub fn answer(&mut self, alloc: Global, row: &str) -> Result<String, NoAnswer> {
        let (call, rest) = first(row);
        let rt = self.rt;
        let door = match word(rest, 0) {
            "again" => &mut self.second,
            _ => &mut self.first,
        };
        match call {
            "open" => self.open(alloc, rest),
            "serve" => served(alloc, rt, door),
            "wait" => waited(alloc, rt, door),
            "flood" => flooded(alloc, rt, door),
            "next" => next(alloc, door),
            _ => kind_of(alloc, call, rest),
        }
    }
}

/// `kind NUMBER`: the kind of the system's error of this number.
fn kind_of(alloc: Global, call: &str, row: &str) -> Result<String, NoAnswer> {
    if call != "kind" {
        return said(alloc, "no such call");
    }
    let number = number(row).min(0xffff) as i32;
    Ok(format!(in alloc; "{:?}", io::Error::from_raw_os_error(number).kind())?)
}
