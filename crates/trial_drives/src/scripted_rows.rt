//! Rows over the scripted drive of `drive_memory`.

use crate::{memory_rows, steps};
use drive_memory::{Calls, Script, ScriptedDrive, Voice};
use std::alloc::Global;
use trial_base::{Names, NoAnswer, first, number, said, word};

/// The front of a name that rows may give.
fn front(word: &str) -> Option<&'static str> {
    match word {
        "w" => Some("w"),
        "k/" => Some("k/"),
        "s/" => Some("s/"),
        _ => None,
    }
}

/// The script `pass`, `calls FIRST COUNT`, `names FRONT` or `writes`.
fn script(row: &str) -> Option<Script> {
    match word(row, 0) {
        "pass" => Some(Script::Pass),
        "calls" => Some(Script::Calls {
            first: number(word(row, 1)),
            count: number(word(row, 2)),
        }),
        "names" => match front(word(row, 1)) {
            Some(front) => Some(Script::Names { front }),
            None => None,
        },
        "writes" => Some(Script::Writes),
        _ => None,
    }
}

/// The voice `tells`, `silent` or `lies:FRONT`.
fn voice(word: &str) -> Option<Voice> {
    match word {
        "tells" => Some(Voice::Tells),
        "silent" => Some(Voice::Silent),
        _ => match front(word.strip_prefix("lies:")?) {
            Some(front) => Some(Voice::Lies { front }),
            None => None,
        },
    }
}

/// How often each method was called.
fn calls(alloc: Global, calls: Calls) -> Result<String, NoAnswer> {
    let Calls {
        size,
        read,
        append,
        sync,
        rename,
        discard,
        remove,
        names,
    } = calls;
    let asked = format!(in alloc; "size {size}, read {read}, names {names}")?;
    Ok(format!(in alloc;
        "{asked}, append {append}, sync {sync}, rename {rename}, discard {discard}, remove {remove}"
    )?)
}

/// `new VOICE SCRIPT`
fn new(alloc: Global, drive: &mut ScriptedDrive, row: &str) -> Result<String, NoAnswer> {
    let (voiced, rest) = first(row);
    let (Some(voice), Some(script)) = (voice(voiced), script(rest)) else {
        return said(alloc, "no such voice or script");
    };
    *drive = ScriptedDrive::new(alloc, voice, script);
    said(alloc, "new")
}

/// `follow SCRIPT`
fn follow(alloc: Global, drive: &mut ScriptedDrive, row: &str) -> Result<String, NoAnswer> {
    let Some(script) = script(row) else {
        return said(alloc, "no such script");
    };
    drive.follow(script);
    said(alloc, "follows")
}

/// What a scripted drive was told, or a step of it or of the drive behind gave.
pub fn answer(
    alloc: Global,
    names: &Names,
    drive: &mut ScriptedDrive,
    row: &str,
) -> Result<String, NoAnswer> {
    let (call, rest) = first(row);
    match call {
        "new" => new(alloc, drive, rest),
        "follow" => follow(alloc, drive, rest),
        "calls" => calls(alloc, drive.calls()),
        "behind" => memory_rows::answer(alloc, names, drive.behind(), rest),
        _ => steps::answer(alloc, names, drive, row),
    }
}
