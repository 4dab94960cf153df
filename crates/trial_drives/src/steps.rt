//! Steps of a drive: a row is one call of it, or the three of a write, whatever drive it is.

use drive_base::{Drive, DriveFault, LONGEST_NAME};
use std::alloc::Global;
use std::str;
use trial_base::{Names, NoAnswer, bytes, first, number, said, said_bytes, said_number, word};

/// The name that a word spells: one that a `let` gave, the empty one as `''`, or the word itself.
pub fn spelled<'a>(names: &'a Names, word: &'a str) -> &'a str {
    if let Some(named) = names.get(word) {
        return str::from_utf8(named.as_slice()).unwrap_or("");
    }
    word.trim_matches('\'')
}

/// A number of at most 32 bits.
pub fn short_number(word: &str) -> u32 {
    number(word).min(0xffff_ffff) as u32
}

/// Why a call was refused.
fn fault(fault: DriveFault) -> &'static str {
    match fault {
        DriveFault::Absent => "absent",
        DriveFault::Failed => "failed",
        DriveFault::NoMemory => "no memory",
    }
}

/// What came of a call that gives nothing.
fn done(answer: Result<(), DriveFault>) -> &'static str {
    match answer {
        Ok(()) => "done",
        Err(why) => fault(why),
    }
}

/// `size NAME`
fn size(alloc: Global, answer: Result<u64, DriveFault>) -> Result<String, NoAnswer> {
    match answer {
        Ok(size) => said_number(alloc, "", size),
        Err(why) => said(alloc, fault(why)),
    }
}

/// `read NAME AT`: how many bytes there were, and a buffer of four that held `-`.
fn read<D: Drive>(alloc: Global, drive: &mut D, name: &str, at: u64) -> Result<String, NoAnswer> {
    let mut into = [b'-'; 4];
    match drive.read(name, at, &mut into) {
        Ok(count) => {
            let front = format!(in alloc; "{count} in ")?;
            said_bytes(alloc, front.as_str(), into.as_slice())
        }
        Err(why) => said(alloc, fault(why)),
    }
}

/// `rename LOOSE NAME`
fn rename<D: Drive>(drive: &mut D, loose: &str, name: &str) -> &'static str {
    if name.len() > LONGEST_NAME {
        return "no such name";
    }
    done(drive.rename(loose, name))
}

/// `write LOOSE NAME BYTES`: an append, a sync and a rename, each of them tried.
fn write<D: Drive>(
    alloc: Global,
    drive: &mut D,
    loose: &str,
    name: &str,
    bytes: &[u8],
) -> Result<String, NoAnswer> {
    let appended = done(drive.append(loose, bytes));
    let synced = done(drive.sync(loose));
    let renamed = rename(drive, loose, name);
    Ok(format!(in alloc; "{appended}, {synced}, {renamed}")?)
}

/// Names, each after a space, or their number where they are to be counted alone.
pub fn listed(
    alloc: Global,
    answer: Result<Vec<String>, DriveFault>,
    counted: bool,
) -> Result<String, NoAnswer> {
    let names = match answer {
        Ok(names) => names,
        Err(why) => return said(alloc, fault(why)),
    };
    let mut line = format!(in alloc; "{} names", names.len())?;
    if counted {
        return Ok(line);
    }
    for name in names.iter() {
        line.push(' ')?;
        line.push_str(name.as_str())?;
    }
    Ok(line)
}

/// The calls that take bytes.
fn with_bytes<D: Drive>(
    alloc: Global,
    names: &Names,
    drive: &mut D,
    row: &str,
) -> Result<String, NoAnswer> {
    let (call, rest) = first(row);
    let (loose, rest) = first(rest);
    let loose = spelled(names, loose);
    if call == "append" {
        let bytes = bytes(alloc, names, rest)?;
        return said(alloc, done(drive.append(loose, bytes.as_slice())));
    }
    let (name, rest) = first(rest);
    let bytes = bytes(alloc, names, rest)?;
    write(alloc, drive, loose, spelled(names, name), bytes.as_slice())
}

/// What a step of a drive gave.
pub fn answer<D: Drive>(
    alloc: Global,
    names: &Names,
    drive: &mut D,
    row: &str,
) -> Result<String, NoAnswer> {
    let call = word(row, 0);
    let name = spelled(names, word(row, 1));
    let last = word(row, 2);
    match call {
        "size" => size(alloc, drive.size(name)),
        "read" => read(alloc, drive, name, number(last)),
        "append" | "write" => with_bytes(alloc, names, drive, row),
        "sync" => said(alloc, done(drive.sync(name))),
        "rename" => said(alloc, rename(drive, name, spelled(names, last))),
        "discard" => said(alloc, done(drive.discard(name))),
        "remove" => said(alloc, done(drive.remove(name))),
        "names" => listed(alloc, drive.names(alloc, name, short_number(last)), false),
        "count" => listed(alloc, drive.names(alloc, name, short_number(last)), true),
        "faults" => said_number(alloc, "", drive.faults()),
        _ => said(alloc, "no such call"),
    }
}
