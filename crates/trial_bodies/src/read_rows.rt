//! Rows over `get_read`.

ghost use Rattle.std.specs.Prelude.{◌≡◌, length};

use crate::bodies::Bodies;
use crate::others::Others;
use crate::reading::Reading;
use crate::told::{body_fault, told_bytes};
use crate::watched::{Watched, called, forget};
use call_types::Span;
use get_read::{BodyFault, ReadStep};
use manifest_file::Manifest;
use std::alloc::Global;
use trial_base::{Names, NoAnswer, bytes, first, number, said, said_bytes, word};

/// `new SLOT PRINT AT LENGTH`: a reader of a span of the body with a print, of the id of term 1, this slot and sequence
/// number 7. It tells the manifest, which isn't there yet.
fn begin(bodies: &mut Bodies, alloc: Global, names: &Names, row: &str) -> Result<String, NoAnswer> {
    let print = bytes(alloc, names, word(row, 2))?;
    let Some(print) = print.as_slice().first_chunk::<32>() else {
        return said(alloc, "no print");
    };
    let span = Span {
        at: number(word(row, 3)).min(1 << 40),
        length: number(word(row, 4)).min(1 << 40),
    };
    let slot = number(word(row, 1));
    let reading = Reading::new(alloc, &bodies.set, *print, slot, span)?;
    bodies.turn_to_reader(reading);
    match &bodies.reading {
        Some(reading) => manifest(alloc, reading.manifest()),
        None => said(alloc, "no reader"),
    }
}

/// A manifest in words.
fn manifest(alloc: Global, manifest: Option<&Manifest>) -> Result<String, NoAnswer> {
    let Some(manifest) = manifest else {
        return said(alloc, "no manifest");
    };
    let (drives, parity) = (manifest.drives, manifest.parity);
    let parts = manifest.parts.len();
    let name = said_bytes(alloc, "", manifest.name.as_slice())?;
    Ok(format!(in alloc; "name {name}, {drives} drives, {parity} parity, {parts} parts")?)
}

/// `step`: the call of a step, and what it gave.
fn step(alloc: Global, reading: &mut Reading, drives: &mut [Watched]) -> Result<String, NoAnswer> {
    forget(drives);
    let answer = reading.step(alloc, drives);
    let call = called(alloc, drives)?;
    match answer {
        Ok(ReadStep::More) => Ok(format!(in alloc; "{call}: more")?),
        Ok(ReadStep::Piece) => {
            let piece = told_bytes(alloc, reading.piece())?;
            Ok(format!(in alloc; "{call}: piece {piece}")?)
        }
        Ok(ReadStep::Done) => Ok(format!(in alloc; "{call}: done")?),
        Err(fault) => {
            let fault = body_fault(alloc, &fault)?;
            Ok(format!(in alloc; "{call}: {fault}")?)
        }
    }
}

/// What the steps of a reader gave.
#[derive(Drop)]
struct Given {
    steps: u64,
    pieces: u64,
    /// The bytes of the pieces, joined.
    bytes: Vec<u8>,
    /// Whether the whole span is given.
    is_done: bool,
    /// Why the reading was refused.
    fault: Option<BodyFault>,
}

/// Takes one step. Whether more are due.
fn go_on(
    alloc: Global,
    reading: &mut Reading,
    drives: &mut [Watched],
    run: &mut Given,
) -> Result<bool, NoAnswer>
    ensures { length drives.new ≡ length drives.old }
{
    match reading.step(alloc, drives) {
        Ok(ReadStep::More) => run.steps = run.steps.saturating_add(1),
        Ok(ReadStep::Piece) => {
            run.steps = run.steps.saturating_add(1);
            run.pieces = run.pieces.saturating_add(1);
            run.bytes.extend_from_slice(reading.piece())?;
        }
        Ok(ReadStep::Done) => {
            run.is_done = true;
            return Ok(false);
        }
        Err(fault) => {
            run.fault = Some(fault);
            return Ok(false);
        }
    }
    Ok(true)
}

/// Steps up to so many pieces, or to the end, with others at work between the steps.
fn run(
    alloc: Global,
    reading: &mut Reading,
    drives: &mut [Watched],
    pieces: u64,
    others: Others,
) -> Result<Given, NoAnswer> {
    let mut run = Given {
        steps: 0,
        pieces: 0,
        bytes: Vec::new(alloc),
        is_done: false,
        fault: None,
    };
    for round in 0..1000u64 {
        others.work(round, drives);
        if !go_on(alloc, reading, drives, &mut run)? || run.pieces == pieces {
            return Ok(run);
        }
    }
    Ok(run)
}

/// The bytes that a run gave, and how it ended; its steps and pieces too where they are counted.
fn told(alloc: Global, run: &Given, counted: bool) -> Result<String, NoAnswer> {
    let end = match &run.fault {
        Some(fault) => body_fault(alloc, fault)?,
        None => said(alloc, if run.is_done { "done" } else { "more" })?,
    };
    let bytes = told_bytes(alloc, run.bytes.as_slice())?;
    if !counted {
        return Ok(format!(in alloc; "{bytes}; {end}")?);
    }
    let (steps, pieces) = (run.steps, run.pieces);
    Ok(format!(in alloc; "{steps} steps, {pieces} pieces, {bytes}; {end}")?)
}

/// `run PIECES`, `read PIECES`, and `beside STEP PIECES` with others who hurt a shard and lose a drive before that step.
fn steps(
    alloc: Global,
    reading: &mut Reading,
    drives: &mut [Watched],
    row: &str,
) -> Result<String, NoAnswer> {
    let is_beside = word(row, 0) == "beside";
    let others = Others {
        step: if is_beside {
            number(word(row, 2))
        } else {
            u64::MAX
        },
        place: 1,
        hurts: true,
    };
    let run = run(alloc, reading, drives, number(word(row, 1)), others)?;
    told(alloc, &run, word(row, 0) == "run")
}

pub fn answer(
    bodies: &mut Bodies,
    alloc: Global,
    names: &Names,
    row: &str,
) -> Result<String, NoAnswer> {
    let (call, _) = first(row);
    if call == "new" {
        return begin(bodies, alloc, names, row);
    }
    let Some(reading) = &mut bodies.reading else {
        return said(alloc, "no reader");
    };
    let drives = bodies.drives.as_mut_slice();
    match call {
        "step" => step(alloc, reading, drives),
        "run" | "read" | "beside" => steps(alloc, reading, drives, row),
        "piece" => told_bytes(alloc, reading.piece()),
        "manifest" => manifest(alloc, reading.manifest()),
        _ => said(alloc, "no such call"),
    }
}
