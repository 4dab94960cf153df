//! An audit that writes lines.

ghost use Rattle.std.specs.Prelude.{◌≡◌, ◌+◌, ◌≤◌, None, Err, IsOk, IsTrue, OnOk, decimal};
ghost use Rattle.io_base.specs.Count.{CountsFault};
ghost use Rattle.io_base.specs.Sink.{Gave};
ghost use Rattle.percent_encoding.specs.Percent.{percent_encode};
ghost use Rattle.audit_trail.specs.declared.audit.AuditFault.TheVariants.{Failed};
ghost use Rattle.audit_trail.specs.Entries.{CountsReserve};
ghost use Rattle.audit_trail.specs.Lines.{deed_text, line_of, CutsLine};

use crate::{Audit, AuditFault, Deed, Entry};
use fault_base::count_after;
use io_base::{IoFault, Sink};
use itoa::Buffer;
use percent_encoding::{AsciiSet, CONTROLS, ascii_set, percent_encode};

/// What is escaped in a name, beside what is outside ASCII: control characters, the space and the percent sign.
pub const ESCAPED: AsciiSet = ascii_set!(CONTROLS.add(b' ').add(b'%'));

/// An audit that writes a line for each entry to a sink. It tells nothing, and takes no memory.
///
/// The line is the ticket in decimal digits, a space, the deed (`done`, `refused`, `kept` or `opened`), a space, the
/// name, and LF. Of the name each byte outside ASCII, each control character, each space and each `%` is written as
/// `%XX`, with two upper-case hex digits, so the line has no other LF.
///
/// Where a line wasn't written, a front of it may have been: from then on each `reserve` fails, counted.
#[derive(Drop)]
pub struct LineAudit<K> {
    sink: K,
    is_cut: bool,
    faults: u64,
}

impl<K: Sink> LineAudit<K> {
    ghost use Rattle.audit_trail.specs.LineAudit.{sink_of, is_cut};
    ghost use Rattle.std.specs.Prelude.{false};

    /// Writes nothing yet.
    pub fn new(sink: K) -> LineAudit<K>
        ensures sink { sink_of result ≡ sink }
        ensures whole { is_cut result ≡ false }
        ensures count { ⟦<LineAudit<K> as Audit>⟧.count result ≡ 0 }
    {
        LineAudit {
            sink,
            is_cut: false,
            faults: 0,
        }
    }

    /// Writes the line of an entry, and keeps in mind whether it was written.
    fn write_down(&mut self, entry: &Entry)
        ensures line { CutsLine (line_of entry.now) (is_cut self.new) (K.given (sink_of self.old)) (K.given (sink_of self.new))
            (K.faults (sink_of self.old)) (K.faults (sink_of self.new)) }
        ensures count { self.new.faults ≡ self.old.faults }
    {
        match write_line(&mut self.sink, entry) {
            Ok(()) => self.is_cut = false,
            Err(_) => self.is_cut = true,
        }
    }
}

impl<K: Sink> Audit for LineAudit<K> {
    ghost use Rattle.audit_trail.specs.LineAudit.{sink_of, is_cut, line_room};
    ghost use Rattle.std.specs.Prelude.{false};

    ghost entries = { λ _. None };

    ghost room = { line_room };

    ghost count = { λ a. a.faults };

    /// It fails exactly where a line before wasn't written.
    fn reserve(&mut self) -> Result<(), AuditFault>
        ensures cut { IsTrue (is_cut self.old) → result ≡ Err Failed }
        ensures whole { is_cut self.old ≡ false → IsOk result }
        ensures room { OnOk result (1 ≤ line_room self.new) }
        ensures places { line_room self.old ≤ line_room self.new }
        ensures count { CountsReserve result self.old.faults self.new.faults }
        ensures same { is_cut self.new ≡ is_cut self.old }
        ensures sink { sink_of self.new ≡ sink_of self.old }
    {
        if self.is_cut {
            self.faults = count_after(self.faults);
            return Err(AuditFault::Failed);
        }
        Ok(())
    }

    /// Where the sink tells what it got, it got the line, or a front of it where it failed.
    #[tactic(auto, using(crate::proofs::LineLemmas::room_least))]
    fn add(&mut self, entry: Entry)
        ensures line { CutsLine (line_of entry) (is_cut self.new) (K.given (sink_of self.old)) (K.given (sink_of self.new))
            (K.faults (sink_of self.old)) (K.faults (sink_of self.new)) }
        ensures places { line_room self.old ≤ line_room self.new + 1 }
        ensures count { self.new.faults ≡ self.old.faults }
    {
        self.write_down(&entry);
        drop(entry);
    }

    fn faults(&self) -> u64 {
        self.faults
    }
}

/// Writes the line of an entry.
fn write_line<K: Sink>(sink: &mut K, entry: &Entry) -> Result<(), IoFault>
    ensures given { Gave result (line_of entry.now) (K.given sink.old) (K.given sink.new) }
    ensures counted { CountsFault result (K.faults sink.old) (K.faults sink.new) }
{
    write_ticket(sink, entry.ticket)?;
    sink.give(deed_word(&entry.deed))?;
    write_name(sink, entry.name.as_slice())?;
    sink.give(b"\n")
}

/// Writes a ticket, in decimal digits.
fn write_ticket<K: Sink>(sink: &mut K, ticket: u64) -> Result<(), IoFault>
    ensures given { Gave result (decimal ticket) (K.given sink.old) (K.given sink.new) }
    ensures counted { CountsFault result (K.faults sink.old) (K.faults sink.new) }
{
    let mut digits = Buffer::new();
    sink.give(digits.format(ticket).as_bytes())
}

/// The word of a deed, between two spaces.
fn deed_word(deed: &Deed) -> &'static [u8]
    ensures { result.now ≡ deed_text deed.now }
{
    match deed {
        Deed::Done { .. } => b" done ",
        Deed::Refused { .. } => b" refused ",
        Deed::Kept => b" kept ",
        Deed::Opened { .. } => b" opened ",
    }
}

/// Writes a name, escaped.
fn write_name<K: Sink>(sink: &mut K, name: &[u8]) -> Result<(), IoFault>
    ensures given { Gave result (percent_encode ESCAPED name.now) (K.given sink.old) (K.given sink.new) }
    ensures counted { CountsFault result (K.faults sink.old) (K.faults sink.new) }
{
    for piece in percent_encode(name, ESCAPED) {
        sink.give(piece.as_bytes())?;
    }
    Ok(())
}
