//! Outcomes of sections in words: ids, refusals, entries and stubs.

use crate::Line;
use crate::replies::{say_brief, say_refusal, say_whys};
use audit_trail::{AuditFault, Deed, Entry};
use call_types::{Mode, Pick, Refusal, VersionName};
use register_core::QuorumFault;
use slot_core::{SlotFault, Stub};
use stamp_id::{ChangeId, VersionId};

/// A change as `TERM-SEQ`.
pub fn say_change(line: &mut Line, change: ChangeId) {
    line.say_number(change.0.term);
    line.say("-");
    line.say_number(change.0.seq);
}

/// An id as `TERM-SEQ-SLOT`.
pub fn say_id(line: &mut Line, id: VersionId) {
    say_change(line, id.change);
    line.say("-");
    line.say_number(u64::from(id.slot));
}

/// The name of a version: `null`, or its id.
pub fn say_version_name(line: &mut Line, name: &VersionName) {
    match name {
        VersionName::Null => line.say("null"),
        VersionName::Id(id) => say_id(line, *id),
    }
}

/// Which version is asked for.
pub fn say_pick(line: &mut Line, pick: &Pick) {
    match pick {
        Pick::Current => line.say("current"),
        Pick::Null => line.say("null"),
        Pick::Id(id) => say_id(line, *id),
    }
}

/// The word of a mode.
pub fn mode_word(mode: Mode) -> &'static str {
    match mode {
        Mode::Never => "never",
        Mode::Enabled => "enabled",
        Mode::Suspended => "suspended",
    }
}

/// Why an audit has no place.
pub fn say_audit_fault(line: &mut Line, fault: AuditFault) {
    match fault {
        AuditFault::Failed => line.say("audit failed"),
        AuditFault::NoMemory => line.say("audit: no memory"),
    }
}

/// Why a register refused.
fn say_quorum(line: &mut Line, fault: &QuorumFault) {
    match fault {
        QuorumFault::ReadQuorum(whys) => {
            line.say("ReadQuorum ");
            say_whys(line, whys);
        }
        QuorumFault::WriteQuorum(whys) => {
            line.say("WriteQuorum ");
            say_whys(line, whys);
        }
        QuorumFault::Undecided { k, u, whys } => {
            line.say("Undecided ");
            line.say_number(u64::from(*k));
            line.say(" ");
            line.say_number(u64::from(*u));
            line.say(" ");
            say_whys(line, whys);
        }
        QuorumFault::NoMemory => line.say("register: NoMemory"),
    }
}

/// Why a section was refused.
pub fn say_fault(line: &mut Line, fault: &SlotFault) {
    match fault {
        SlotFault::Quorum(fault) => say_quorum(line, fault),
        SlotFault::Key(why) => {
            let why = Refusal::from(*why);
            say_refusal(line, &why);
            drop(why);
        }
        SlotFault::SeqSpent => line.say("SeqSpent"),
        SlotFault::AuditFailed { before, after } => {
            line.say("AuditFailed ");
            line.say_number(*before);
            line.say(" ");
            line.say_number(*after);
        }
        SlotFault::NoMemory => line.say("NoMemory"),
        SlotFault::NotInFlight(id) => {
            line.say("NotInFlight ");
            say_id(line, *id);
        }
    }
}

/// What a section did.
fn say_deed(line: &mut Line, deed: &Deed) {
    match deed {
        Deed::Done { call, reply } => {
            line.say(" done: ");
            say_brief(line, call);
            line.say(" -> ");
            say_brief(line, reply);
        }
        Deed::Refused { change, call } => {
            line.say(" refused ");
            say_change(line, *change);
            line.say(": ");
            say_brief(line, call);
        }
        Deed::Kept => line.say(" kept"),
        Deed::Opened { term } => {
            line.say(" opened ");
            line.say_number(*term);
        }
    }
}

/// An entry: its ticket, the name of its register, the change that it completed, and its deed.
pub fn say_entry(line: &mut Line, entry: &Entry) {
    line.say_number(entry.ticket);
    line.say(" ");
    if entry.name.as_slice().is_empty() {
        line.say("nowhere");
    } else {
        line.say_text(entry.name.as_slice());
    }
    if let Some(late) = entry.late {
        line.say(" late ");
        say_change(line, late);
    }
    say_deed(line, &entry.deed);
}

/// A stub behind the answer of its section: the slot, the ticket, and its entry or its refusal without one.
pub fn say_stub(line: &mut Line, stub: &Option<Stub>) {
    let Some(stub) = stub else {
        line.say("; no stub");
        return;
    };
    line.say("; slot ");
    line.say_number(u64::from(stub.slot()));
    line.say(" turn ");
    line.say_number(stub.ticket());
    match stub.entry() {
        None => line.say(", no entry"),
        Some(entry) => {
            line.say(", entry ");
            say_entry(line, entry);
        }
    }
    if let Some(fault) = stub.fault() {
        line.say(", for ");
        say_fault(line, &fault);
    }
}
