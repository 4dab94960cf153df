//! Rows over `audit_trail`: entries that audits keep, write down as lines, or let go.

ghost use Rattle.std.specs.Prelude.{◌<◌};

use crate::entries::{count_of, entry_of};
use audit_trail::{Audit, Entry, LineAudit, MemAudit, NullAudit};
use io_base::MemSink;
use std::alloc::{AllocError, Global};
use trial_base::{Names, NoAnswer, first, said, word};
use trial_rig::{Line, say_audit_fault, say_entry};

/// Makes room for each entry of a row and adds it, as sections do, and says how each went and how many calls failed by then.
/// The entries begin at this word, and each has three.
fn write_down<A: Audit>(
    alloc: Global,
    names: &Names,
    line: &mut Line,
    audit: &mut A,
    words: &str,
    from: usize,
) -> Result<(), NoAnswer>
    requires { from < 10 }
{
    for place in 0..9usize {
        let at = from + 3 * place;
        if word(words, at).is_empty() {
            return Ok(());
        }
        let entry = entry_of(alloc, names, words, at)?;
        match audit.reserve() {
            Ok(()) => {
                audit.add(entry);
                line.say("added");
            }
            Err(fault) => {
                drop(entry);
                say_audit_fault(line, fault);
            }
        }
        line.say(" ");
        line.say_number(audit.faults());
        line.say(", ");
    }
    Ok(())
}

/// Text, of which each LF is said as `\n`.
fn say_lines(line: &mut Line, text: &[u8]) {
    for byte in text {
        if *byte == b'\n' {
            line.say("\\n");
        } else {
            line.say_text(&[*byte]);
        }
    }
}

/// `lines CALL ENTRIES`: an audit over a sink whose call of this number fails, and what the sink got.
fn lines(alloc: Global, names: &Names, words: &str) -> Result<String, NoAnswer> {
    let mut fails = Vec::new(alloc);
    if word(words, 1) != "none" {
        fails.push(count_of(word(words, 1))?)?;
    }
    let mut line = Line::new(alloc);
    let mut sink = MemSink::new(fails);
    let mut audit = LineAudit::new(&mut sink);
    write_down(alloc, names, &mut line, &mut audit, words, 2)?;
    drop(audit);
    say_lines(&mut line, sink.given());
    line.into_answer()
}

/// `kept ENTRIES`: an audit in memory, and what it has then.
fn kept(alloc: Global, names: &Names, words: &str) -> Result<String, NoAnswer> {
    let mut line = Line::new(alloc);
    let mut audit = MemAudit::new(alloc);
    write_down(alloc, names, &mut line, &mut audit, words, 1)?;
    for entry in audit.entries().iter() {
        say_entry(&mut line, entry);
        line.say(", ");
    }
    let entries = audit.into_entries();
    line.say_number(entries.len() as u64);
    drop(entries);
    line.into_answer()
}

/// `nothing ENTRIES`: an audit that keeps nothing.
fn nothing(alloc: Global, names: &Names, words: &str) -> Result<String, NoAnswer> {
    let mut line = Line::new(alloc);
    let mut audit = NullAudit::new();
    write_down(alloc, names, &mut line, &mut audit, words, 1)?;
    line.say("nothing");
    line.into_answer()
}

/// `clone ENTRY`: a clone, whose original is gone.
fn cloned(alloc: Global, names: &Names, words: &str) -> Result<String, NoAnswer> {
    let entry = entry_of(alloc, names, words, 1)?;
    let copy: Result<Entry, AllocError> = entry.clone();
    drop(entry);
    let Ok(copy) = copy else {
        return Err(NoAnswer);
    };
    let mut line = Line::new(alloc);
    say_entry(&mut line, &copy);
    drop(copy);
    line.into_answer()
}

/// What a row over `audit_trail` is answered.
pub fn answer(alloc: Global, names: &Names, words: &str) -> Result<String, NoAnswer> {
    let (call, _) = first(words);
    match call {
        "lines" => lines(alloc, names, words),
        "kept" => kept(alloc, names, words),
        "nothing" => nothing(alloc, names, words),
        "clone" => cloned(alloc, names, words),
        _ => said(alloc, "no such call"),
    }
}
