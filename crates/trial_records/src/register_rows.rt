//! Rows over `register_file`, and over the bodies of records of `sealed_record`, of which a register's is one.

use crate::id_rows::parts;
use crate::seal_rows::fault;
use field_reader::ReadFault;
use register_file::{Adds, Base, KIND, Next, RegFile, file_laws, longest_file, read, write};
use seal_file::seal;
use sealed_record::{read_body, write_body};
use stamp_id::Ballot;
use std::alloc::Global;
use trial_base::{Names, NoAnswer, bytes, first, number, said, said_bytes, said_number};

/// A ballot, or that of a change.
fn stamp(alloc: Global, ballot: Ballot) -> Result<String, NoAnswer> {
    Ok(format!(in alloc; "{}.{}", ballot.term, ballot.seq)?)
}

/// A base in words.
fn told_base(alloc: Global, base: &Base) -> Result<String, NoAnswer> {
    let ballot = stamp(alloc, base.ballot)?;
    let change = stamp(alloc, base.change.0)?;
    let content = said_bytes(alloc, "", base.content.as_slice())?;
    Ok(format!(in alloc; "ballot {ballot}, change {change}, content {content}")?)
}

/// What a change adds, in words.
fn told_adds(alloc: Global, adds: &Option<Adds>) -> Result<String, NoAnswer> {
    let Some(adds) = adds else {
        return said(alloc, "nothing");
    };
    let id = parts(alloc, adds.id)?;
    let print = said_bytes(alloc, "", adds.print.as_slice())?;
    Ok(format!(in alloc; "{id} {print}")?)
}

/// A next in words.
fn told_next(alloc: Global, next: &Next) -> Result<String, NoAnswer> {
    let ballot = stamp(alloc, next.ballot)?;
    let change = stamp(alloc, next.change.0)?;
    let parent = stamp(alloc, next.parent.0)?;
    let adds = told_adds(alloc, &next.adds)?;
    let content = said_bytes(alloc, "", next.content.as_slice())?;
    Ok(format!(in alloc;
        "ballot {ballot}, change {change}, parent {parent}, adds {adds}, content {content}"
    )?)
}

/// A record in words.
fn told(alloc: Global, file: &RegFile) -> Result<String, NoAnswer> {
    let base = told_base(alloc, &file.base)?;
    let Some(next) = &file.next else {
        return Ok(base);
    };
    let next = told_next(alloc, next)?;
    Ok(format!(in alloc; "{base}; next {next}")?)
}

/// `read FILE`
fn read_file(alloc: Global, file: &[u8]) -> Result<String, NoAnswer> {
    match read(alloc, file) {
        Ok(there) => told(alloc, &there),
        Err(of) => fault(alloc, of),
    }
}

/// `again FILE`: the file that is written of what is read.
fn again(alloc: Global, file: &[u8]) -> Result<String, NoAnswer> {
    match read(alloc, file) {
        Ok(there) => {
            let written = write(alloc, &there)?;
            said_bytes(alloc, "", written.as_slice())
        }
        Err(of) => fault(alloc, of),
    }
}

/// `bare BODY`: what is spelled of the record that a body spells.
#[tactic(auto, using(register_file::proofs::Lawful::register_lawful))]
fn bare(alloc: Global, body: &[u8]) -> Result<String, NoAnswer> {
    let read: Result<RegFile, ReadFault> = read_body(alloc, body);
    match read {
        Ok(there) => {
            let written = write_body(alloc, &there)?;
            said_bytes(alloc, "", written.as_slice())
        }
        Err(ReadFault::At(at)) => said_number(alloc, "misspelled at ", at),
        Err(ReadFault::NoMemory) => Err(NoAnswer),
    }
}

/// The rows of a file or a body.
fn of_bytes(alloc: Global, names: &Names, call: &str, rest: &str) -> Result<String, NoAnswer> {
    let content = bytes(alloc, names, rest)?;
    match call {
        "read" => read_file(alloc, content.as_slice()),
        "again" => again(alloc, content.as_slice()),
        "body" => {
            let file = seal(alloc, KIND, content.as_slice())?;
            read_file(alloc, file.as_slice())
        }
        "bare" => bare(alloc, content.as_slice()),
        _ => said(alloc, "no such call"),
    }
}

pub fn answer(alloc: Global, names: &Names, row: &str) -> Result<String, NoAnswer> {
    let (call, rest) = first(row);
    match call {
        "longest_file" => said_number(alloc, "", longest_file(number(rest))),
        "laws" => {
            file_laws();
            said(alloc, "done")
        }
        _ => of_bytes(alloc, names, call, rest),
    }
}
