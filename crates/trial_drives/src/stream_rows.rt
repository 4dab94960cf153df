//! Rows over the sources, sinks and clocks of `io_base`.

use crate::outside::{FixedTime, Outside};
use io_base::{
    Clock, IoFault, MOMENT_LIMIT, MemClock, MemSink, MemSource, Sink, Source, StdSink, StdSource,
    SystemClock,
};
use std::alloc::{AllocError, Global};
use std::io::Stdin;
use std::rt;
use trial_base::{Names, NoAnswer, bytes, first, number, said, said_bytes, said_number};

/// Sources, sinks, and what is behind those over the outside.
#[derive(Drop)]
pub struct Streams {
    rt: HostRuntime,
    source: MemSource,
    sink: MemSink,
    reader: StdSource<Outside>,
    writer: Outside,
}

/// A value that another thread may have.
fn sent<T: Send>(value: T) -> T {
    value
}

/// Nothing outside, whose calls are broken.
fn nothing(alloc: Global) -> Outside {
    Outside {
        turns: String::new(alloc),
        calls: 0,
        bytes: Vec::new(alloc),
        taken: 0,
        flushes: 0,
        breaks_flushes: false,
    }
}

/// The numbers of a word, with commas between them; no number in `-`.
pub fn numbers(alloc: Global, word: &str) -> Result<Vec<u64>, AllocError> {
    let mut numbers = Vec::new(alloc);
    for word in word.split(',') {
        if word != "-" {
            numbers.push(number(word))?;
        }
    }
    Ok(numbers)
}

/// What is taken from a source into a buffer of so many bytes, which held `-`: how many there were, and the whole buffer.
fn take_from<S: Source + Drop>(
    alloc: Global,
    mut source: S,
    room: u64,
) -> Result<String, NoAnswer> {
    let mut into = [b'-'; 8];
    let room = room.min(8) as usize;
    match source.take(&mut into[..room]) {
        Ok(count) => {
            let front = format!(in alloc; "{count} in ")?;
            said_bytes(alloc, front.as_str(), &into[..room])
        }
        Err(IoFault::Failed) => said(alloc, "failed"),
    }
}

/// What came of a give.
fn given(answer: Result<(), IoFault>) -> &'static str {
    match answer {
        Ok(()) => "done",
        Err(IoFault::Failed) => "failed",
    }
}

/// What comes of giving the bytes of each word to one sink, and how many faults it counted.
fn give_each<K: Sink + Drop>(
    alloc: Global,
    names: &Names,
    mut sink: K,
    row: &str,
) -> Result<String, NoAnswer> {
    let mut line = String::new(alloc);
    for word in row.split(' ') {
        let bytes = bytes(alloc, names, word)?;
        line.push_str(given(sink.give(bytes.as_slice())))?;
        line.push_str(", ")?;
    }
    Ok(format!(in alloc; "{line}faults {}", sink.write_faults())?)
}

impl Streams {
    /// Streams that have nothing.
    pub fn new(rt: HostRuntime) -> Result<Streams, AllocError> {
        let alloc = rt.alloc();
        Ok(Streams {
            rt,
            source: sent(MemSource::new(Vec::new(alloc), Vec::new(alloc))),
            sink: sent(MemSink::new(Vec::new(alloc))),
            reader: StdSource::new(alloc, nothing(alloc))?,
            writer: nothing(alloc),
        })
    }

    /// `source new FAILS BYTES`, `source take ROOM` and `source faults`
    fn source(&mut self, alloc: Global, names: &Names, row: &str) -> Result<String, NoAnswer> {
        let (call, rest) = first(row);
        match call {
            "new" => {
                let (fails, rest) = first(rest);
                let bytes = bytes(alloc, names, rest)?;
                self.source = MemSource::new(bytes, numbers(alloc, fails)?);
                said(alloc, "new")
            }
            "take" => take_from(alloc, &mut self.source, number(rest)),
            "faults" => said_number(alloc, "", self.source.read_faults()),
            _ => said(alloc, "no such call"),
        }
    }

    /// `sink new FAILS`, `sink give BYTES..` and `sink given`
    fn sink(&mut self, alloc: Global, names: &Names, row: &str) -> Result<String, NoAnswer> {
        let (call, rest) = first(row);
        match call {
            "new" => {
                self.sink = MemSink::new(numbers(alloc, rest)?);
                said(alloc, "new")
            }
            "give" => give_each(alloc, names, &mut self.sink, rest),
            "given" => {
                let starved = self.sink.starved();
                let front = format!(in alloc; "starved {starved}, ")?;
                said_bytes(alloc, front.as_str(), self.sink.given())
            }
            _ => said(alloc, "no such call"),
        }
    }

    /// `reader new TURNS BYTES`, `reader take ROOM` and `reader faults`
    fn reader(&mut self, alloc: Global, names: &Names, row: &str) -> Result<String, NoAnswer> {
        let (call, rest) = first(row);
        match call {
            "new" => {
                let (turns, rest) = first(rest);
                let mut outside = nothing(alloc);
                outside.turns.push_str(turns)?;
                outside.bytes = bytes(alloc, names, rest)?;
                self.reader = sent(StdSource::new(alloc, outside)?);
                said(alloc, "new")
            }
            "take" => take_from(alloc, &mut self.reader, number(rest)),
            "faults" => said_number(alloc, "", self.reader.read_faults()),
            _ => said(alloc, "no such call"),
        }
    }

    /// `writer turns TURNS sound`, `writer turns TURNS broken` where each flush is to fail, `writer give BYTES..` to one sink,
    /// and `writer written`
    fn writer(&mut self, alloc: Global, names: &Names, row: &str) -> Result<String, NoAnswer> {
        let (call, rest) = first(row);
        match call {
            "turns" => {
                let (turns, flush) = first(rest);
                self.writer.turns = String::from_str(alloc, turns)?;
                self.writer.calls = 0;
                self.writer.breaks_flushes = flush == "broken";
                said(alloc, if flush == "broken" { "broken" } else { "sound" })
            }
            "give" => give_each(alloc, names, sent(StdSink::new(&mut self.writer)), rest),
            "written" => {
                let front = format!(in alloc; "flushes {}, ", self.writer.flushes)?;
                said_bytes(alloc, front.as_str(), self.writer.bytes.as_slice())
            }
            _ => said(alloc, "no such call"),
        }
    }

    /// What a call on a stream gave, or on a clock.
    pub fn answer(&mut self, alloc: Global, names: &Names, row: &str) -> Result<String, NoAnswer> {
        let (stream, rest) = first(row);
        match stream {
            "source" => self.source(alloc, names, rest),
            "sink" => self.sink(alloc, names, rest),
            "reader" => self.reader(alloc, names, rest),
            "writer" => self.writer(alloc, names, rest),
            _ => clocks(alloc, self.rt, row),
        }
    }
}

/// `memory NOW`: what a clock that stands tells after a rest.
fn memory_now(alloc: Global, now: u64) -> Result<String, NoAnswer> {
    if now >= MOMENT_LIMIT {
        return said(alloc, "no such moment");
    }
    let clock = MemClock::new(now);
    clock.rest(u64::MAX);
    said_number(alloc, "", clock.now())
}

/// `fixed SECONDS` and `fixed none`: the moment of a system whose clock reads so, or can't be read.
fn fixed_now(alloc: Global, word: &str) -> Result<String, NoAnswer> {
    let read = if word == "none" {
        None
    } else {
        Some(number(word))
    };
    said_number(alloc, "", SystemClock::new(FixedTime(read)).now())
}

/// `rest SECONDS`: how many seconds passed over a rest of the system, at most so many.
fn rested(alloc: Global, rt: HostRuntime, seconds: u64) -> Result<String, NoAnswer> {
    let clock = SystemClock::new(rt);
    let Ok(before) = rt::Clock::monotonic(&rt) else {
        return said(alloc, "no clock");
    };
    clock.rest(seconds);
    let after = rt::Clock::monotonic(&rt).unwrap_or(before);
    said_number(
        alloc,
        "",
        after.saturating_sub(before).as_secs().min(seconds),
    )
}

/// `standard`: the faults of streams that are new over the standard ones, which may go to another thread.
fn standard(alloc: Global, rt: HostRuntime) -> Result<String, NoAnswer> {
    let source: StdSource<Stdin> = StdSource::new(alloc, rt.stdin())?;
    let reads = sent(source).read_faults();
    let writes = sent(StdSink::new(rt.stdout())).write_faults();
    Ok(format!(in alloc; "faults {reads} and {writes}")?)
}

/// What a call on a clock gave, or on the standard streams.
fn clocks(alloc: Global, rt: HostRuntime, row: &str) -> Result<String, NoAnswer> {
    let (clock, rest) = first(row);
    match clock {
        "memory" => memory_now(alloc, number(rest)),
        "fixed" => fixed_now(alloc, rest),
        "later" => {
            let later = SystemClock::new(rt).now() > number(rest);
            said(alloc, if later { "yes" } else { "no" })
        }
        "rest" => rested(alloc, rt, number(rest)),
        "standard" => standard(alloc, rt),
        _ => said(alloc, "no such clock"),
    }
}
