//! Rows over `bucket_book`.

use crate::call_rows::{mode, reply};
use bucket_book::{
    BucketAct, BucketRecord, BucketStep, apply, check_name, read, row_laws, step_laws, write,
};
use call_types::{ListFault, Mode};
use std::alloc::Global;
use trial_base::{Names, NoAnswer, bytes, first, number, said, said_bytes, said_number, word, yes};

/// A fault of a content in words.
pub fn list_fault(alloc: Global, fault: ListFault) -> Result<String, NoAnswer> {
    match fault {
        ListFault::NotCanonical(at) => said_number(alloc, "not canonical at ", at),
        ListFault::NoMemory => Err(NoAnswer),
    }
}

/// A row in words.
fn told(alloc: Global, row: &Option<BucketRecord>) -> Result<String, NoAnswer> {
    match row {
        None => said(alloc, "none"),
        Some(there) => { Ok(format!(in alloc; "made at {}, {}", there.created, mode(there.mode))?) }
    }
}

/// `read CONTENT`
fn read_row(alloc: Global, content: &[u8]) -> Result<String, NoAnswer> {
    match read(alloc, content) {
        Ok(row) => told(alloc, &row),
        Err(fault) => list_fault(alloc, fault),
    }
}

/// `again CONTENT`: what is written of the row that is read.
fn again(alloc: Global, content: &[u8]) -> Result<String, NoAnswer> {
    match read(alloc, content) {
        Ok(row) => {
            let written = write(alloc, &row)?;
            said_bytes(alloc, "", written.as_slice())
        }
        Err(fault) => list_fault(alloc, fault),
    }
}

/// What an act does in the second `now`.
fn step(row: &Option<BucketRecord>, act: &str, now: u64) -> BucketStep {
    match act {
        "make" => apply(row, BucketAct::Make, now),
        "enable" => apply(row, BucketAct::SetMode(Mode::Enabled), now),
        "suspend" => apply(row, BucketAct::SetMode(Mode::Suspended), now),
        "mode" => apply(row, BucketAct::GetMode, now),
        _ => apply(row, BucketAct::Head, now),
    }
}

/// The reply of a step, and what it changes.
fn told_step(alloc: Global, step: &BucketStep) -> Result<String, NoAnswer> {
    let reply = reply(alloc, &step.reply)?;
    let changed = told(alloc, &step.changed)?;
    Ok(format!(in alloc; "{reply}, changed {changed}")?)
}

/// `ACT NOW CONTENT`
fn act(alloc: Global, row: &str, content: &[u8]) -> Result<String, NoAnswer> {
    match read(alloc, content) {
        Ok(there) => told_step(alloc, &step(&there, word(row, 0), number(word(row, 1)))),
        Err(fault) => list_fault(alloc, fault),
    }
}

pub fn answer(alloc: Global, names: &Names, row: &str) -> Result<String, NoAnswer> {
    let (call, rest) = first(row);
    match call {
        "check_name" => yes(alloc, check_name(rest)),
        "read" => {
            let content = bytes(alloc, names, rest)?;
            read_row(alloc, content.as_slice())
        }
        "again" => {
            let content = bytes(alloc, names, rest)?;
            again(alloc, content.as_slice())
        }
        "laws" => {
            row_laws();
            step_laws();
            said(alloc, "done")
        }
        _ => {
            let (_, there) = first(rest);
            let content = bytes(alloc, names, there)?;
            act(alloc, row, content.as_slice())
        }
    }
}
