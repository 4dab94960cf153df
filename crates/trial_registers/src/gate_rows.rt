//! Rows over `term_gate`: format files, openings and surveys of the data drives of a set.

ghost use Rattle.std.specs.Prelude.{◌<◌, ◌^◌};
ghost use Rattle.term_gate.specs.Table.{IsCanonical};

use crate::words::{letters, small};
use crate::world::World;
use drive_base::SetPlan;
use drive_memory::{Script, ScriptedDrive, Voice};
use seal_file::RecordFault;
use std::alloc::Global;
use term_gate::{Format, OpenRefusal, Opened, Seen, open_set, opening_laws, read, survey, write};
use trial_base::{Names, NoAnswer, bytes, first, said, said_bytes, said_number, word};

/// A format: the set's id, drives, parity, index and term.
fn told_format(alloc: Global, format: &Format) -> Result<String, NoAnswer> {
    let id = said_bytes(alloc, "", format.id.as_slice())?;
    let Format {
        drives,
        parity,
        index,
        term,
        ..
    } = *format;
    Ok(format!(in alloc; "{id} {drives} {parity} {index} {term}")?)
}

/// Why a set was not opened.
fn refusal(alloc: Global, why: OpenRefusal) -> Result<String, NoAnswer> {
    match why {
        OpenRefusal::WrongSet { found, wanted } => {
            let found = told_format(alloc, &found)?;
            let wanted = told_format(alloc, &wanted)?;
            Ok(format!(in alloc; "wrong set, found {found}, wanted {wanted}")?)
        }
        OpenRefusal::OpenQuorum(whys) => letters(alloc, "open quorum ", &whys),
        OpenRefusal::TermSpent => said(alloc, "the last term is spent"),
        OpenRefusal::NoMemory | OpenRefusal::AuditFailed { .. } => Err(NoAnswer),
    }
}

/// What an opening answered: its term, and the mask of the drives that are out.
fn told_opening(alloc: Global, opened: Result<Opened, OpenRefusal>) -> Result<String, NoAnswer> {
    match opened {
        Ok(opened) => {
            let (term, out) = (opened.term, opened.out.mask());
            Ok(format!(in alloc; "term {term}, out {out}")?)
        }
        Err(why) => refusal(alloc, why),
    }
}

/// What a survey found on a drive.
fn told_seen(seen: &Seen) -> &'static str {
    match seen {
        Seen::Good => "good",
        Seen::Absent => "absent",
        Seen::Damaged => "damaged",
        Seen::Failed => "failed",
        Seen::Other => "other",
    }
}

/// The format of a drive of a set.
fn format_of(set: SetPlan, index: u8, term: u64) -> Format
    requires { term < 2 ^ 48 }
    ensures { IsCanonical result }
{
    let id = set.id;
    Format {
        id,
        drives: set.drives,
        parity: set.parity,
        index,
        term,
    }
}

/// `write INDEX TERM`: the format file of a drive of the set.
fn written(alloc: Global, set: SetPlan, words: &str) -> Result<String, NoAnswer> {
    let index = small(word(words, 0))?;
    let Ok(term) = word(words, 1).parse::<u64>() else {
        return Err(NoAnswer);
    };
    if term > 0xFFFF_FFFF_FFFF {
        return Err(NoAnswer);
    }
    let file = write(alloc, &format_of(set, index, term))?;
    said_bytes(alloc, "", file.as_slice())
}

/// `read BYTES`: the format of a file.
fn read_file(alloc: Global, file: &[u8]) -> Result<String, NoAnswer> {
    match read(alloc, file) {
        Ok(format) => told_format(alloc, &format),
        Err(RecordFault::Unsealed(_)) => said(alloc, "unsealed"),
        Err(RecordFault::NotCanonical(at)) => said_number(alloc, "misspelled at ", at),
        Err(RecordFault::NoMemory) => Err(NoAnswer),
    }
}

/// A drive that counts its calls.
fn counting(alloc: Global) -> ScriptedDrive {
    ScriptedDrive::new(alloc, Voice::Silent, Script::Pass)
}

/// `calls`: opens a set of four drives, loses the files of the last one, opens it again, and counts the calls of that drive.
fn calls(alloc: Global, set: SetPlan) -> Result<String, NoAnswer> {
    let mut disks = [
        counting(alloc),
        counting(alloc),
        counting(alloc),
        counting(alloc),
    ];
    if set.drives != 4 {
        return Err(NoAnswer);
    }
    let once = told_opening(alloc, open_set(alloc, &mut disks, set))?;
    disks[3] = counting(alloc);
    let again = told_opening(alloc, open_set(alloc, &mut disks, set))?;
    let calls = disks[3].calls();
    let reads = format!(in alloc; "size {}, read {}", calls.size, calls.read)?;
    let writes = format!(in alloc;
        "append {}, sync {}, rename {}, discard {}",
        calls.append, calls.sync, calls.rename, calls.discard
    )?;
    Ok(format!(in alloc; "{once}; {again}; {reads}, {writes}")?)
}

impl World {
    /// `open`
    fn opened(&mut self, alloc: Global) -> Result<String, NoAnswer> {
        if self.disks.len() != self.set.drives as usize {
            return Err(NoAnswer);
        }
        told_opening(alloc, open_set(alloc, self.disks.as_mut_slice(), self.set))
    }

    /// `survey`: what was found on each drive, and the greatest term.
    fn surveyed(&mut self, alloc: Global) -> Result<String, NoAnswer> {
        if self.disks.len() != self.set.drives as usize {
            return Err(NoAnswer);
        }
        let found = survey(alloc, self.disks.as_mut_slice(), self.set)?;
        let mut told = String::new(alloc);
        for seen in found.formats.as_slice() {
            told.push_str(told_seen(seen))?;
            told.push_str(" ")?;
        }
        Ok(format!(in alloc; "{told}term {}", found.term)?)
    }

    /// The rows of `term_gate`.
    pub fn gate(&mut self, alloc: Global, names: &Names, asked: &str) -> Result<String, NoAnswer> {
        let (call, words) = first(asked);
        match call {
            "open" => self.opened(alloc),
            "survey" => self.surveyed(alloc),
            "write" => written(alloc, self.set, words),
            "read" => {
                let file = bytes(alloc, names, words)?;
                read_file(alloc, file.as_slice())
            }
            "calls" => calls(alloc, self.set),
            "laws" => {
                opening_laws();
                said(alloc, "done")
            }
            _ => said(alloc, "no such call"),
        }
    }
}
