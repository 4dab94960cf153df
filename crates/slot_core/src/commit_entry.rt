//! The entry of a commit: what it opens with, and what it writes down and answers.

ghost use Rattle.std.specs.Prelude.{◌≡◌, ◌<◌, ◌≤◌, Err, IfOk, None, OnOk, Some, string_bytes};
ghost use Rattle.slot_rules.specs.Deeds.{IsNamedDeed, name_of};
ghost use Rattle.slot_core.specs.CommitOutcome.{answer_of, answer_told};
ghost use Rattle.slot_core.specs.PutEnds.{IsTwice, entry_from, entry_with, fault_of};
ghost use Rattle.slot_core.specs.CommitOpening.{IsOpening, IsUnreserved};
ghost use Rattle.slot_core.specs.AuditEntry.{Reserves, WritesDown};
ghost use Rattle.slot_core.specs.Settlement.{numbers_at};
ghost use Rattle.slot_core.specs.Stubs.{entry_of, AuditHas, StubOfEntry};
ghost use Rattle.slot_core.specs.declared.slot.SlotFault.TheVariants.{Quorum};
ghost use Rattle.audit_trail.specs.Entries.{with_entry};
ghost use Rattle.audit_trail.specs.declared.entry.Deed.TheVariants.{Done as DoneDeed, Refused as RefusedDeed};
ghost use Rattle.slot_rules.specs.declared.site.Drawn.{Drawn};
ghost use Rattle.slot_core.specs.declared.stub.Stub.{Stub};

use crate::audit_entry::{
    Entries, ReserveFault, audit_failed, kept_entries, no_memory, refuse, reserve, write_down,
};
use crate::commit_write::Outcome;
use crate::slot::SlotFault;
use crate::stub::Turn;
use audit_trail::{Audit, Deed, Entry};
use call_types::Brief;
use fault_base::NoMemory;
use register_core::QuorumFault;
use slot_history::{bucket_name, key_name, part_name};
use slot_rules::{Commit, Committed, Drawn, Site, Tale, Told};
use stamp_id::ChangeId;
use std::alloc::Global;

/// The name of a deed's register, and the entries of its section, for which its audit has room.
#[derive(Drop)]
pub(crate) struct Opening {
    /// The name.
    pub(crate) name: String,
    /// The entries, which say that nothing was done.
    pub(crate) entries: Entries,
}

/// Makes the entries of a section, and room for one in its audit.
pub(crate) fn open_entry<A: Audit>(
    alloc: Global,
    audit: &mut A,
    site: &Site,
    deed: &Commit,
) -> Result<Opening, ReserveFault>
    requires { IsNamedDeed deed.now }
    ensures opening { IfOk result (λ opening. IsOpening site.now.turns (name_of deed.now) opening) }
    ensures room { OnOk result (1 ≤ A.room audit.new) }
    ensures entries { A.entries audit.new ≡ A.entries audit.old }
    ensures reserves { Reserves (A.count audit.old) (A.count audit.new) result }
{
    let name = match deed_name(alloc, deed) {
        Ok(name) => name,
        Err(_) => return Err(ReserveFault::NoMemory),
    };
    reserve(audit)?;
    match kept_entries(alloc, site, name.as_str()) {
        Ok(entries) => Ok(Opening { name, entries }),
        Err(_) => Err(ReserveFault::NoMemory),
    }
}

/// The turn of a section whose audit has no room.
pub(crate) fn unreserved<T>(site: &Site, why: ReserveFault) -> Turn<T>
    ensures { IsUnreserved site.now why result }
{
    match why {
        ReserveFault::Failed { before, after } => audit_failed(site, before, after),
        ReserveFault::NoMemory => no_memory(),
    }
}

/// The name of a deed's register.
fn deed_name(alloc: Global, deed: &Commit) -> Result<String, NoMemory>
    requires { IsNamedDeed deed.now }
    ensures { IfOk result (λ name. string_bytes name ≡ name_of deed.now) }
{
    match deed {
        Commit::Key { at, .. } => key_name(alloc, at),
        Commit::Part {
            at,
            upload,
            number,
            ..
        } => part_name(alloc, at, *upload, *number),
        Commit::MakeBucket(bucket) => bucket_name(alloc, bucket),
        Commit::SetMode(bucket, _) => bucket_name(alloc, bucket),
    }
}

/// Writes down what came of a deed, and answers it.
pub(crate) fn conclude<A: Audit>(
    audit: &mut A,
    site: &Site,
    entries: Entries,
    outcome: Outcome,
) -> Turn<Committed>
    requires room { 1 ≤ A.room audit.old }
    requires same { entries.stub ≡ entries.audit }
    requires ticket { entries.audit.ticket ≡ site.now.turns }
    requires twice { IsTwice outcome }
    ensures answer { result.answer ≡ answer_told outcome }
    ensures entry { entry_of result.stub ≡ entry_from entries.audit outcome }
    ensures stub { (drawn : Drawn) → StubOfEntry (numbers_at site.now drawn) result.answer result.stub }
    ensures entries { AuditHas result.stub (A.entries audit.old) (A.entries audit.new) }
    ensures count { A.count audit.new ≡ A.count audit.old }
{
    match outcome {
        Outcome::Done(tale, late) => done_turn(audit, site, entries, tale, late),
        Outcome::Begun(tale, change, late, fault) => {
            begun_turn(audit, site, entries, tale, change, late, fault)
        }
        Outcome::Kept(fault) => refuse(audit, site, entries, None, SlotFault::Quorum(fault)),
        Outcome::LacksMemory => {
            drop(entries);
            no_memory()
        }
    }
}

/// The turn of a deed that was done, or that the state of its key refuses.
fn done_turn<A: Audit>(
    audit: &mut A,
    site: &Site,
    entries: Entries,
    tale: Tale,
    late: Option<ChangeId>,
) -> Turn<Committed>
    requires room { 1 ≤ A.room audit.old }
    requires same { entries.stub ≡ entries.audit }
    requires twice { tale.stub ≡ tale.audit }
    ensures answer { result.answer ≡ answer_of tale tale.refused }
    ensures stub { (stub : Stub) × (result.stub ≡ Some stub)
        × WritesDown site.now (entry_with entries.audit (DoneDeed tale.audit.call tale.audit.reply) late) (fault_of tale.refused) stub }
    ensures entries { A.entries audit.new ≡ with_entry (A.entries audit.old) (entry_with entries.audit (DoneDeed tale.audit.call tale.audit.reply) late) }
    ensures count { A.count audit.new ≡ A.count audit.old }
{
    let Tale {
        audit: first,
        stub: second,
        reply,
        refused,
    } = tale;
    let entries = with_deeds(
        entries,
        Deed::Done {
            call: first.call,
            reply: first.reply,
        },
        Deed::Done {
            call: second.call,
            reply: second.reply,
        },
    );
    match refused {
        None => Turn {
            answer: Ok(Committed { done: reply }),
            stub: Some(write_down(audit, site, entries, late)),
        },
        Some(why) => {
            drop(reply);
            refuse(audit, site, entries, late, SlotFault::Key(why))
        }
    }
}

/// The turn of a deed whose own writes were refused.
fn begun_turn<A: Audit>(
    audit: &mut A,
    site: &Site,
    entries: Entries,
    tale: Tale,
    change: ChangeId,
    late: Option<ChangeId>,
    fault: QuorumFault,
) -> Turn<Committed>
    requires room { 1 ≤ A.room audit.old }
    requires same { entries.stub ≡ entries.audit }
    requires twice { tale.stub ≡ tale.audit }
    ensures answer { result.answer ≡ Err (Quorum fault) }
    ensures stub { (stub : Stub) × (result.stub ≡ Some stub)
        × WritesDown site.now (entry_with entries.audit (RefusedDeed change tale.audit.call) late) (Some (Quorum fault)) stub }
    ensures entries { A.entries audit.new ≡ with_entry (A.entries audit.old) (entry_with entries.audit (RefusedDeed change tale.audit.call) late) }
    ensures count { A.count audit.new ≡ A.count audit.old }
{
    let Tale {
        audit: first,
        stub: second,
        reply,
        refused: _,
    } = tale;
    drop(reply);
    let entries = with_deeds(
        entries,
        Deed::Refused {
            change,
            call: call_told(first),
        },
        Deed::Refused {
            change,
            call: call_told(second),
        },
    );
    refuse(audit, site, entries, late, SlotFault::Quorum(fault))
}

/// The call of what is told.
fn call_told(told: Told) -> Brief
    ensures { result ≡ told.call }
{
    let Told { call, reply } = told;
    drop(reply);
    call
}

/// Entries with other deeds.
fn with_deeds(entries: Entries, audit: Deed, stub: Deed) -> Entries
    ensures audit { result.audit ≡ entry_with entries.audit audit entries.audit.late }
    ensures stub { result.stub ≡ entry_with entries.stub stub entries.stub.late }
{
    Entries {
        audit: with_deed(entries.audit, audit),
        stub: with_deed(entries.stub, stub),
    }
}

/// An entry with another deed.
fn with_deed(entry: Entry, deed: Deed) -> Entry
    ensures { result ≡ entry_with entry deed entry.late }
{
    let Entry {
        ticket,
        late,
        name,
        deed: before,
    } = entry;
    drop(before);
    Entry {
        ticket,
        late,
        name,
        deed,
    }
}
