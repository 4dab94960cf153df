//! A script that comes piece by piece.

ghost use Rattle.std.specs.Prelude.{◌≡◌, ◌<◌, ◌≤◌, ◌+◌, ◌++◌, ◌∷◌, ◌≢◌, [], ℕ, IfErr, List, OnOk, true, false, length, None, Some};
ghost use Rattle.drill_script.specs.Limits.{most_bytes, most_lines};
ghost use Rattle.drill_script.specs.Reader.{HasRead, Judged, Progress, first_bad};
ghost use Rattle.drill_script.specs.Scripts.{NoneIsBad, OneIsFirst, Reads, SpellOne};
ghost use Rattle.drill_script.specs.declared.fault.ScriptFault.TheVariants as fault;

use crate::fault::ScriptFault;
use crate::line::Line;
use crate::next::next_line;
use fault_base::NoMemory;
use stamp_id::spelling_laws;
use std::alloc::Global;
use std::marker::Model;

/// The most lines of a script, by "Drill scripts" of `docs/FORMATS.md`.
const MOST_LINES: u64 = 100_000;

/// The most bytes of a line, without its LF, by the same section.
const MOST_BYTES: usize = 4_096;

/// Reads a script that comes piece by piece.
#[derive(Drop)]
pub struct ScriptReader {
    /// The good lines so far.
    lines: Vec<Line>,
    /// The bytes of the line that hasn't ended.
    line: Vec<u8>,
    /// How many lines have ended.
    ended: u64,
    /// The number of the first bad line.
    bad: Option<u64>,
    /// Whether nothing more is read.
    over: bool,
}

impl Model for ScriptReader {
    ghost use Rattle.std.specs.Prelude.{◌≤◌, length};
    ghost use Rattle.drill_script.specs.Limits.{most_bytes, most_lines};
    ghost use Rattle.drill_script.specs.Reader.{Progress};

    ghost Value = { Progress };

    ghost view = { λ r. record { lines = r.lines.items; line = r.line.items; ended = r.ended; bad = r.bad; over = r.over } };

    ghost invariant = { λ r. (r.ended ≤ most_lines) × (length r.line.items ≤ most_bytes) };
}

impl ScriptReader {
    /// A reader that was given nothing. It takes no memory.
    pub fn new(alloc: Global) -> ScriptReader
        ensures { HasRead [] result }
    {
        ScriptReader {
            lines: Vec::new(alloc),
            line: Vec::new(alloc),
            ended: 0,
            bad: None,
            over: false,
        }
    }

    /// Takes the next bytes. The only error is want of memory, and the reader is of no use then.
    pub fn take(&mut self, alloc: Global, piece: &[u8]) -> Result<(), NoMemory>
        ensures { OnOk result ((bytes : List ℕ) → HasRead bytes self.old → HasRead (bytes ++ piece.now) self.new) }
    {
        for byte in piece {
            self.take_byte(alloc, *byte)?;
        }
        Ok(())
    }

    /// Whether no more bytes need to come. They needn't exactly where a line is too long, or there is one more than a script
    /// may have (`IsOver`, by `over` of `HasRead`): no script begins so, and the first bad line is known (`known`).
    pub fn is_over(&self) -> bool
        ensures { result ≡ self.now.over }
    {
        self.over
    }

    /// The lines, where the bytes that were taken spell a script; else the number of the first line that is none.
    pub fn finish(self) -> Result<Vec<Line>, ScriptFault>
        ensures reads { (bytes : List ℕ) → HasRead bytes self → Reads (λ lines. lines.items) bytes result }
        ensures takes_no_memory { IfErr result (λ error. error ≢ fault.NoMemory) }
    {
        if let Some(number) = self.bad {
            return Err(ScriptFault::BadLine(number));
        }
        if self.lines.is_empty() || !self.line.is_empty() {
            return Err(ScriptFault::BadLine(self.ended + 1));
        }
        Ok(self.lines)
    }

    /// Takes one byte.
    fn take_byte(&mut self, alloc: Global, byte: u8) -> Result<(), NoMemory>
        ensures { OnOk result ((bytes : List ℕ) → HasRead bytes self.old → HasRead (bytes ++ byte ∷ []) self.new) }
    {
        if self.over {
            return Ok(());
        }
        if self.ended == MOST_LINES {
            self.stop();
            return Ok(());
        }
        if byte == b'\n' {
            return self.end_line(alloc);
        }
        if self.line.len() == MOST_BYTES {
            self.stop();
            return Ok(());
        }
        Ok(self.line.push(byte)?)
    }

    /// Reads no further: the line that comes is bad.
    fn stop(&mut self)
        ensures { self.new ≡ record self.old { bad = first_bad self.old.bad (self.old.ended + 1); over = true } }
    {
        if self.bad.is_none() {
            self.bad = Some(self.ended + 1);
        }
        self.over = true;
    }

    /// Ends a line.
    fn end_line(&mut self, alloc: Global) -> Result<(), NoMemory>
        requires few { self.old.ended < most_lines }
        requires reads { self.old.over ≡ false }
        ensures { OnOk result ((bytes : List ℕ) → HasRead bytes self.old → HasRead (bytes ++ 10 ∷ []) self.new) }
    {
        self.judge(alloc)?;
        self.line.clear();
        self.ended += 1;
        Ok(())
    }

    /// Reads the line that ended, unless there is a bad one already.
    fn judge(&mut self, alloc: Global) -> Result<(), NoMemory>
        ensures { OnOk result (Judged self.old self.new) }
    {
        if self.bad.is_some() {
            return Ok(());
        }
        match next_line(alloc, self.lines.as_slice(), self.line.as_slice())? {
            Some(line) => self.lines.push(line)?,
            None => self.bad = Some(self.ended + 1),
        }
        Ok(())
    }
}

/// Reads the bytes of a script: its lines, or the number of the first line that is none. The grammar is that of "Drill
/// scripts" in `docs/FORMATS.md`.
pub fn read_script(alloc: Global, bytes: &[u8]) -> Result<Vec<Line>, ScriptFault>
    ensures { Reads (λ lines. lines.items) bytes.now result }
{
    let mut reader = ScriptReader::new(alloc);
    reader.take(alloc, bytes)?;
    reader.finish()
}

/// The laws of scripts, for a caller's proof: bytes spell one script at most, they have one first bad line at most, and never both. It does nothing.
pub fn script_laws()
    ensures one { SpellOne }
    ensures never_both { NoneIsBad }
    ensures first { OneIsFirst }
{
    spelling_laws();
}
