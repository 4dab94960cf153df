//! One line of a script.

ghost use Rattle.std.specs.Prelude.{IfOk};
ghost use Rattle.drill_script.specs.Lines.{texts_of};
ghost use Rattle.drill_script.specs.Reader.{ReadsNext};
ghost use Rattle.drill_script.specs.Reads.{IsPlaced, ReadsText, ReadsWords};

use crate::kind::kind_of;
use crate::line::Line;
use crate::reading::line_of_kind;
use crate::standing::may_follow;
use crate::words::{are_words, pieces_of};
use fault_base::NoMemory;
use stamp_id::spelling_laws;
use std::alloc::Global;

/// The line that words spell, where they spell one.
fn line_of_words(alloc: Global, words: &[&str]) -> Result<Option<Line>, NoMemory>
    ensures { IfOk result (ReadsWords (texts_of words.now)) }
{
    let Some((first, fields)) = words.split_first() else {
        return Ok(None);
    };
    let Some(kind) = kind_of(first) else {
        return Ok(None);
    };
    line_of_kind(alloc, kind, fields)
}

/// The line that a text spells, where it spells one.
fn line_of(alloc: Global, text: &str) -> Result<Option<Line>, NoMemory>
    ensures { IfOk result (ReadsText text.now) }
{
    let words = pieces_of(alloc, text)?;
    if !are_words(words.as_slice()) {
        return Ok(None);
    }
    line_of_words(alloc, words.as_slice())
}

/// A line, where it may stand behind these.
fn placed(before: &[Line], line: Line) -> Option<Line>
    ensures { IsPlaced before.now line result }
{
    if may_follow(before, &line) {
        Some(line)
    } else {
        None
    }
}

/// The line that these bytes spell, where they spell one that may stand behind these lines.
pub fn next_line(alloc: Global, before: &[Line], bytes: &[u8]) -> Result<Option<Line>, NoMemory>
    ensures { IfOk result (ReadsNext before.now bytes.now) }
{
    let Ok(text) = str::from_utf8(bytes) else {
        return Ok(None);
    };
    spelling_laws();
    match line_of(alloc, text)? {
        Some(line) => Ok(placed(before, line)),
        None => Ok(None),
    }
}
