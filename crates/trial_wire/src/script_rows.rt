//! Rows over `drill_script`: what scripts say.

use crate::texts::{said_text, text};
use call_types::{Mode, VersionName};
use drill_script::{Line, ScriptFault, ScriptReader, read_script, script_laws};
use seal_file::Text;
use std::alloc::Global;
use trial_base::{Names, NoAnswer, first, number, said, said_number};

/// A text of a line.
fn shown(alloc: Global, text: &Text) -> Result<String, NoAnswer> {
    said_text(alloc, text.as_slice())
}

/// Two texts of a line behind its kind.
fn both(alloc: Global, kind: &str, actor: &Text, key: &Text) -> Result<String, NoAnswer> {
    let (actor, key) = (shown(alloc, actor)?, shown(alloc, key)?);
    Ok(format!(in alloc; "{kind} {actor} {key}")?)
}

/// A version in words.
fn version(alloc: Global, id: &VersionName) -> Result<String, NoAnswer> {
    match id {
        VersionName::Null => said(alloc, "Null"),
        VersionName::Id(id) => {
            let text = id.text(alloc)?;
            Ok(format!(in alloc; "Id {text}")?)
        }
    }
}

/// A mode in words.
fn mode_word(mode: Mode) -> &'static str {
    match mode {
        Mode::Never => "Never",
        Mode::Enabled => "Enabled",
        Mode::Suspended => "Suspended",
    }
}

/// A line that starts an actor, in words; none of another.
fn said_start(alloc: Global, line: &Line) -> Result<Option<String>, NoAnswer> {
    let words = match line {
        Line::Put { actor, key, body } => {
            let (start, body) = (both(alloc, "Put", actor, key)?, shown(alloc, body)?);
            format!(in alloc; "{start} {body}")?
        }
        Line::Fill { actor, key, length } => {
            let start = both(alloc, "Fill", actor, key)?;
            format!(in alloc; "{start} {length}")?
        }
        Line::Get { actor, key } => both(alloc, "Get", actor, key)?,
        Line::GetVersion { actor, key, id } => {
            let (start, id) = (both(alloc, "GetVersion", actor, key)?, version(alloc, id)?);
            format!(in alloc; "{start} {id}")?
        }
        Line::Range {
            actor,
            key,
            from,
            to,
        } => {
            let start = both(alloc, "Range", actor, key)?;
            format!(in alloc; "{start} {from} {to}")?
        }
        Line::Delete { actor, key } => both(alloc, "Delete", actor, key)?,
        Line::DeleteVersion { actor, key, id } => {
            let start = both(alloc, "DeleteVersion", actor, key)?;
            let id = version(alloc, id)?;
            format!(in alloc; "{start} {id}")?
        }
        _ => return Ok(None),
    };
    Ok(Some(words))
}

/// A line that steps an actor or strikes a drive, in words.
fn said_step(alloc: Global, line: &Line) -> Result<String, NoAnswer> {
    match line {
        Line::Set {
            drives,
            parity,
            mode,
        } => {
            let mode = mode_word(*mode);
            Ok(format!(in alloc; "Set {drives} {parity} {mode}")?)
        }
        Line::Go(actor) => {
            let actor = shown(alloc, actor)?;
            Ok(format!(in alloc; "Go {actor}")?)
        }
        Line::Run(actor) => {
            let actor = shown(alloc, actor)?;
            Ok(format!(in alloc; "Run {actor}")?)
        }
        Line::UpTo(actor) => {
            let actor = shown(alloc, actor)?;
            Ok(format!(in alloc; "UpTo {actor}")?)
        }
        Line::Lose(index) => Ok(format!(in alloc; "Lose {index}")?),
        Line::Back(index) => Ok(format!(in alloc; "Back {index}")?),
        Line::Hurt { index, name, place } => {
            let name = shown(alloc, name)?;
            Ok(format!(in alloc; "Hurt {index} {name} {place}")?)
        }
        Line::Fuse { index, calls, late } => {
            let late = if *late { "late" } else { "early" };
            Ok(format!(in alloc; "Fuse {index} {calls} {late}")?)
        }
        _ => said(alloc, "Stop"),
    }
}

/// A line in words.
fn said_line(alloc: Global, line: &Line) -> Result<String, NoAnswer> {
    match said_start(alloc, line)? {
        Some(words) => Ok(words),
        None => said_step(alloc, line),
    }
}

/// The lines of a script in words, with `; ` between them, or the number of its first bad line.
fn said_script(alloc: Global, script: &Result<Vec<Line>, ScriptFault>) -> Result<String, NoAnswer> {
    match script {
        Ok(lines) => {
            let mut out = String::new(alloc);
            for (at, line) in lines.iter().enumerate() {
                if at > 0 {
                    out.push_str("; ")?;
                }
                out.push_str(said_line(alloc, line)?.as_str())?;
            }
            Ok(out)
        }
        Err(ScriptFault::BadLine(number)) => said_number(alloc, "bad line ", *number),
        Err(ScriptFault::NoMemory) => Err(NoAnswer),
    }
}

/// What is read of bytes that come one by one, as far as the reader wants them.
fn read_slowly(alloc: Global, bytes: &[u8]) -> Result<Vec<Line>, ScriptFault> {
    let mut reader = ScriptReader::new(alloc);
    for byte in bytes {
        if !reader.is_over() {
            reader.take(alloc, &[*byte])?;
        }
    }
    reader.finish()
}

/// `read TEXT`: what is read of a text at once, and what else is read byte by byte.
fn read(alloc: Global, bytes: &[u8]) -> Result<String, NoAnswer> {
    let once = said_script(alloc, &read_script(alloc, bytes))?;
    let slowly = said_script(alloc, &read_slowly(alloc, bytes))?;
    if once.as_str() == slowly.as_str() {
        return Ok(once);
    }
    Ok(format!(in alloc; "{once}, but slowly {slowly}")?)
}

/// `over TEXT`: behind how many bytes no more are wanted.
fn over(alloc: Global, bytes: &[u8]) -> Result<String, NoAnswer> {
    let mut reader = ScriptReader::new(alloc);
    for (at, byte) in bytes.iter().enumerate() {
        if reader.is_over() {
            return said_number(alloc, "", at as u64);
        }
        reader.take(alloc, &[*byte])?;
    }
    said(alloc, if reader.is_over() { "all" } else { "never" })
}

/// `many COUNT TEXT`: how many lines a text has with so many lines `stop` behind it, or its first bad line.
fn many(alloc: Global, names: &Names, words: &str) -> Result<String, NoAnswer> {
    let (count, spelled) = first(words);
    let mut bytes = text(alloc, names, spelled)?;
    for _ in 0..number(count) {
        bytes.extend_from_slice(b"stop\n")?;
    }
    match read_script(alloc, bytes.as_slice()) {
        Ok(lines) => said_number(alloc, "", lines.len() as u64),
        fault => said_script(alloc, &fault),
    }
}

/// The laws, which do nothing.
fn laws(alloc: Global) -> Result<String, NoAnswer> {
    script_laws();
    said(alloc, "hold")
}

pub fn answer(alloc: Global, names: &Names, words: &str) -> Result<String, NoAnswer> {
    let (call, rest) = first(words);
    match call {
        "read" => read(alloc, text(alloc, names, rest)?.as_slice()),
        "over" => over(alloc, text(alloc, names, rest)?.as_slice()),
        "many" => many(alloc, names, rest),
        "laws" => laws(alloc),
        _ => said(alloc, "no such call"),
    }
}
