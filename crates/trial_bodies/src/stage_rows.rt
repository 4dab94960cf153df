//! Rows over `put_stage`.

ghost use Rattle.std.specs.Prelude.{◌≤◌};

use crate::bodies::Bodies;
use crate::others::{NOBODY, Others};
use crate::source::Source;
use crate::told::{stage_fault, staged};
use crate::watched::{called, forget};
use crate::work::{Tally, Went, Work};
use manifest_file::read;
use put_stage::{StageNext, stage_laws};
use std::alloc::Global;
use trial_base::{Names, NoAnswer, bytes, first, number, said, said_number, word};

/// The MD5 of a word, none of another word.
fn md5(alloc: Global, names: &Names, word: &str) -> Result<Option<[u8; 16]>, NoAnswer> {
    if word == "none" {
        return Ok(None);
    }
    let content = bytes(alloc, names, word)?;
    match content.as_slice().first_chunk::<16>() {
        Some(digest) => Ok(Some(*digest)),
        None => Err(NoAnswer),
    }
}

/// What comes next, in a word.
fn next(work: &Work) -> &'static str {
    match work.next() {
        StageNext::Fill => "fill",
        StageNext::Step => "step",
        StageNext::Finish => "finish",
    }
}

/// `body MD5 STATED END COME BYTES`: a stage of a body of STATED bytes, of which the first COME are these over and over;
/// behind them the feed `ends`, or it `breaks`. It tells what comes next.
fn begin(bodies: &mut Bodies, alloc: Global, names: &Names, row: &str) -> Result<String, NoAnswer> {
    let md5 = md5(alloc, names, word(row, 1))?;
    let (stated, come) = (number(word(row, 2)), number(word(row, 4)));
    let breaks = word(row, 3) == "breaks";
    if stated > 5_368_709_120 || !(breaks || word(row, 3) == "ends") {
        return said(alloc, "no such body");
    }
    let content = bytes(alloc, names, word(row, 5))?;
    let source = Source::new(content, come, stated, breaks);
    let work = Work::of_body(alloc, bodies.set, source, stated, md5)?;
    bodies.turn_to_stage(work);
    of_work(bodies.work.as_ref(), alloc, "next")
}

/// `manifest ETAG FILE`: a stage of a manifest alone. It tells what comes next.
fn begin_manifest(
    bodies: &mut Bodies,
    alloc: Global,
    names: &Names,
    row: &str,
) -> Result<String, NoAnswer> {
    let Some(etag) = md5(alloc, names, word(row, 1))? else {
        return said(alloc, "no etag");
    };
    let file = bytes(alloc, names, word(row, 2))?;
    let Ok(manifest) = read(alloc, file.as_slice()) else {
        return said(alloc, "no manifest");
    };
    if manifest.drives != bodies.set.drives || manifest.parity != bodies.set.parity {
        return said(alloc, "of another set");
    }
    let work = Work::of_manifest(alloc, bodies.set, manifest, etag)?;
    bodies.turn_to_stage(work);
    of_work(bodies.work.as_ref(), alloc, "next")
}

/// `go`: what the stage did, a fill or a call of a drive.
fn go(bodies: &mut Bodies, alloc: Global) -> Result<String, NoAnswer> {
    let Some(work) = &mut bodies.work else {
        return said(alloc, "no stage");
    };
    let drives = bodies.drives.as_mut_slice();
    forget(drives);
    match work.go_on(alloc, drives) {
        Went::Took(count) => said_number(alloc, "took ", count),
        Went::Refused(fault) => stage_fault(alloc, &fault),
        Went::Called => called(alloc, drives),
        Went::Over => said(alloc, "over"),
        Went::Stuck => said(alloc, "stuck"),
    }
}

/// The fills and the calls of a stage, and why a fill was refused.
fn told(alloc: Global, tally: &Tally) -> Result<String, NoAnswer> {
    let (fills, calls) = (tally.fills, tally.calls);
    let Some(fault) = &tally.fault else {
        return Ok(format!(in alloc; "{fills} fills, {calls} calls")?);
    };
    let fault = stage_fault(alloc, fault)?;
    Ok(format!(in alloc; "{fills} fills, {calls} calls, {fault}")?)
}

/// `run`, and `beside PLACE STEP` with others who lose a drive before that step.
fn run(bodies: &mut Bodies, alloc: Global, others: Others) -> Result<String, NoAnswer> {
    let Some(work) = &mut bodies.work else {
        return said(alloc, "no stage");
    };
    let tally = work.run(alloc, bodies.drives.as_mut_slice(), others);
    told(alloc, &tally)
}

/// `finish`: the answer of the stage, which is gone then.
fn finish(bodies: &mut Bodies, alloc: Global) -> Result<String, NoAnswer> {
    let Some(work) = bodies.work.take() else {
        return said(alloc, "no stage");
    };
    match work.finish() {
        Some(Ok(answer)) => staged(alloc, &answer),
        Some(Err(fault)) => stage_fault(alloc, &fault),
        None => said(alloc, "not over"),
    }
}

/// `next` and `left`, of the stage.
fn of_work(work: Option<&Work>, alloc: Global, call: &str) -> Result<String, NoAnswer> {
    let Some(work) = work else {
        return said(alloc, "no stage");
    };
    match call {
        "next" => said(alloc, next(work)),
        "left" => said_number(alloc, "", work.left()),
        _ => said(alloc, "no such call"),
    }
}

pub fn answer(
    bodies: &mut Bodies,
    alloc: Global,
    names: &Names,
    row: &str,
) -> Result<String, NoAnswer> {
    let (call, rest) = first(row);
    match call {
        "body" => begin(bodies, alloc, names, row),
        "manifest" => begin_manifest(bodies, alloc, names, row),
        "go" => go(bodies, alloc),
        "run" => run(bodies, alloc, NOBODY),
        "beside" => {
            let others = Others {
                step: number(word(rest, 1)),
                place: number(word(rest, 0)),
                hurts: false,
            };
            run(bodies, alloc, others)
        }
        "finish" => finish(bodies, alloc),
        "laws" => {
            stage_laws();
            said(alloc, "done")
        }
        _ => of_work(bodies.work.as_ref(), alloc, call),
    }
}
