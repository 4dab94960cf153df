//! Rows over `http_wire`: the heads and bodies that come of bytes in pieces.

use crate::sources::Pieces;
use crate::texts::{said_text, text};
use http_wire::{Head, Wire, WireFault, head_laws, wire_laws};
use io_base::{MemSource, Source, no_takes};
use std::alloc::Global;
use trial_base::{Names, NoAnswer, first, said, said_number};

/// A connection: a wire, and the last head that it gave.
#[derive(Drop)]
pub struct Connection {
    /// The wire.
    wire: Wire<Pieces>,
    /// The head.
    head: Option<Head>,
}

/// A connection over bytes of which at most `first` come at first and at most `most` at once, and of which the takes
/// `fails` fail.
fn connect(
    alloc: Global,
    bytes: &[u8],
    first: usize,
    most: usize,
    fails: Vec<u64>,
) -> Result<Connection, NoAnswer> {
    let bytes = Vec::from_slice(alloc, bytes)?;
    let source = Pieces {
        source: MemSource::new(bytes, fails),
        first,
        most,
        takes: no_takes(),
    };
    match Wire::new(alloc, source) {
        Ok(wire) => Ok(Connection { wire, head: None }),
        Err(_) => Err(NoAnswer),
    }
}

/// A refusal of a wire in words.
fn said_fault(alloc: Global, fault: WireFault) -> Result<String, NoAnswer> {
    match fault {
        WireFault::BodyCut { read, stated } => {
            Ok(format!(in alloc; "cut behind {read} of {stated}")?)
        }
        WireFault::NoMemory => Err(NoAnswer),
        _ => Ok(format!(in alloc; "{fault}")?),
    }
}

/// `next`: how many lines the next head has, and how many bytes its body.
fn next(alloc: Global, connection: &mut Connection) -> Result<String, NoAnswer> {
    if connection.wire.body_left() > 0 {
        return said(alloc, "the body was not read");
    }
    match connection.wire.next_head(alloc) {
        Ok(Some(head)) => {
            let (lines, body) = (head.len(), connection.wire.body_left());
            connection.head = Some(head);
            Ok(format!(in alloc; "lines {lines}, body {body}")?)
        }
        Ok(None) => said(alloc, "the end"),
        Err(fault) => said_fault(alloc, fault),
    }
}

/// What comes first of bytes in pieces.
fn first_of(alloc: Global, bytes: &[u8], first: usize, most: usize) -> Result<String, NoAnswer> {
    let mut connection = connect(alloc, bytes, first, most, Vec::new(alloc))?;
    next(alloc, &mut connection)
}

/// `once TEXT`: what comes first of bytes that come at once.
fn once(alloc: Global, bytes: &[u8]) -> Result<String, NoAnswer> {
    first_of(alloc, bytes, usize::MAX, usize::MAX)
}

/// `head TEXT`: what comes first of bytes that come at once; and what else comes where they come one by one, or cut
/// behind any of them.
fn head(alloc: Global, bytes: &[u8]) -> Result<String, NoAnswer> {
    let whole = once(alloc, bytes)?;
    let single = first_of(alloc, bytes, 1, 1)?;
    if single != whole {
        return Ok(format!(in alloc; "{whole}, one by one {single}")?);
    }
    for cut in 1..bytes.len() {
        let other = first_of(alloc, bytes, cut, usize::MAX)?;
        if other != whole {
            return Ok(format!(in alloc; "{whole}, cut behind {cut} {other}")?);
        }
    }
    Ok(whole)
}

/// How many bytes one row may read of a body.
const ROOM: usize = 8;

/// `body COUNT`: how many bytes of the body come where there is room for so many, and what stands in that room.
fn body(alloc: Global, connection: &mut Connection, count: usize) -> Result<String, NoAnswer> {
    let mut into = [0; ROOM];
    let room = count.min(ROOM);
    match connection.wire.body(&mut into[..room]) {
        Ok(came) => {
            let text = said_text(alloc, &into[..room])?;
            Ok(format!(in alloc; "{came} {text}")?)
        }
        Err(fault) => said_fault(alloc, fault),
    }
}

/// Appends a header line as `, NAME [VALUE]`.
fn push_line(alloc: Global, out: &mut String, name: &[u8], value: &[u8]) -> Result<(), NoAnswer> {
    let name = said_text(alloc, name)?;
    let value = said_text(alloc, value)?;
    Ok(write!(out, ", {name} [{value}]")?)
}

/// `parts`: the method, the target, the version and the lines of the last head.
fn parts(alloc: Global, head: &Head) -> Result<String, NoAnswer> {
    let method = said_text(alloc, head.method())?;
    let target = said_text(alloc, head.target())?;
    let mut out = format!(in alloc; "{method} {target} 1.{}", head.minor())?;
    if head.is_empty() {
        out.push_str(", no line")?;
    }
    for line in 0..head.len() {
        push_line(alloc, &mut out, head.name(line), head.value(line))?;
    }
    Ok(out)
}

/// `value NAME`: the value of the first line of a name in the last head.
fn value(alloc: Global, head: &Head, name: &str) -> Result<String, NoAnswer> {
    let Some(value) = head.value_of(name.as_bytes()) else {
        return said(alloc, "none");
    };
    let value = said_text(alloc, value)?;
    Ok(format!(in alloc; "[{value}]")?)
}

/// A number of bytes, or `all`.
fn count(word: &str) -> Result<usize, NoAnswer> {
    if word == "all" {
        return Ok(usize::MAX);
    }
    match word.parse::<usize>() {
        Ok(count) => Ok(count),
        Err(_) => Err(NoAnswer),
    }
}

/// The takes that fail: numbers with `,` between them, or `-`.
fn fails(alloc: Global, word: &str) -> Result<Vec<u64>, NoAnswer> {
    let mut fails = Vec::new(alloc);
    if word == "-" {
        return Ok(fails);
    }
    for take in word.split(',') {
        match take.parse::<u64>() {
            Ok(take) => fails.push(take)?,
            Err(_) => return Err(NoAnswer),
        }
    }
    Ok(fails)
}

/// `new FIRST MOST FAILS TEXT`: a connection over a text.
fn new(alloc: Global, names: &Names, row: &str) -> Result<Connection, NoAnswer> {
    let (first_word, row) = first(row);
    let (most, row) = first(row);
    let (takes, spelled) = first(row);
    let bytes = text(alloc, names, spelled)?;
    let fails = fails(alloc, takes)?;
    connect(
        alloc,
        bytes.as_slice(),
        count(first_word)?,
        count(most)?,
        fails,
    )
}

/// `source`: how many faults the source of a connection counts, and what it gives next.
fn source(alloc: Global, connection: Connection) -> Result<String, NoAnswer> {
    let Connection { wire, head } = connection;
    drop(head);
    let mut source = wire.into_source();
    let mut into = [0; ROOM];
    let faults = source.read_faults();
    let came = match source.take(&mut into) {
        Ok(came) => came as u64,
        Err(_) => return said_number(alloc, "it fails, faults ", faults),
    };
    let text = said_text(alloc, &into)?;
    Ok(format!(in alloc; "faults {faults}, next {came} {text}")?)
}

/// The rows of a connection.
fn of_connection(
    alloc: Global,
    connection: &mut Connection,
    call: &str,
    rest: &str,
) -> Result<String, NoAnswer> {
    match call {
        "next" => return next(alloc, connection),
        "body" => return body(alloc, connection, count(rest)?),
        "left" => return said_number(alloc, "", connection.wire.body_left()),
        "retry" => {
            connection.wire.retry();
            return said(alloc, "done");
        }
        _ => {}
    }
    let Some(head) = &connection.head else {
        return said(alloc, "no head");
    };
    match call {
        "parts" => parts(alloc, head),
        "value" => value(alloc, head, rest),
        _ => said(alloc, "no such call"),
    }
}

pub fn answer(
    alloc: Global,
    names: &Names,
    connection: &mut Option<Connection>,
    words: &str,
) -> Result<String, NoAnswer> {
    let (call, rest) = first(words);
    match call {
        "head" => head(alloc, text(alloc, names, rest)?.as_slice()),
        "once" => once(alloc, text(alloc, names, rest)?.as_slice()),
        "new" => {
            *connection = Some(new(alloc, names, rest)?);
            said(alloc, "nothing is read")
        }
        "source" => match connection.take() {
            Some(connection) => source(alloc, connection),
            None => said(alloc, "no connection"),
        },
        "laws" => {
            head_laws();
            wire_laws();
            said(alloc, "done")
        }
        _ => match connection {
            Some(connection) => of_connection(alloc, connection, call, rest),
            None => said(alloc, "no connection"),
        },
    }
}
