//! Entries of sections, and how they are written down.

ghost use Rattle.std.specs.Prelude.{◌≡◌, ◌≤◌, None, OnOk, IfOk, Some};
ghost use Rattle.audit_trail.specs.Entries.{with_entry};
ghost use Rattle.slot_core.specs.declared.stub.Stub.{Stub};
ghost use Rattle.slot_core.specs.AuditEntry.{IsKeptOf, IsRefusedTurn, Reserves, WritesDown, has_late};
ghost use Rattle.slot_core.specs.EmptyEntry.{nothing_at};
ghost use Rattle.slot_core.specs.Views.{audit_of, holding_of, lanes_of, numbers_of};

use crate::slot::{Slot, SlotFault};
use crate::stub::{Stub, Turn};
use audit_trail::{Audit, AuditFault, Deed, Entry};
use drive_base::Drive;
use fault_base::NoMemory;
use seal_file::Text;
use slot_rules::Site;
use stamp_id::ChangeId;
use std::alloc::Global;

/// An entry in the two copies that a section needs: one for the audit, and one for its stub.
#[derive(Drop)]
pub(crate) struct Entries {
    /// The audit's.
    pub(crate) audit: Entry,
    /// The stub's.
    pub(crate) stub: Entry,
}

/// The entries of a section that does nothing of its own.
pub(crate) fn kept_entries(alloc: Global, site: &Site, name: &str) -> Result<Entries, NoMemory>
    ensures { IfOk result (λ entries. IsKeptOf site.now.turns name.now entries) }
{
    let first = Text::from_slice(alloc, name.as_bytes())?;
    let second = Text::from_slice(alloc, name.as_bytes())?;
    Ok(Entries {
        audit: kept_entry(site.turns, first),
        stub: kept_entry(site.turns, second),
    })
}

fn kept_entry(ticket: u64, name: Text) -> Entry
    ensures { result ≡ record { ticket = ticket; late = None; name = name; deed = Deed.Kept } }
{
    Entry {
        ticket,
        late: None,
        name,
        deed: Deed::Kept,
    }
}

/// Why an audit has no place for an entry.
#[derive(Clone, Copy)]
pub(crate) enum ReserveFault {
    /// It failed: its count of faults before and after.
    Failed {
        /// The count before.
        before: u64,
        /// The count after.
        after: u64,
    },
    /// There was not enough memory.
    NoMemory,
}

/// Makes room for an entry in an audit.
pub(crate) fn reserve<A: Audit>(audit: &mut A) -> Result<(), ReserveFault>
    ensures reserves { Reserves (A.count audit.old) (A.count audit.new) result }
    ensures room { OnOk result (1 ≤ A.room audit.new) }
    ensures entries { A.entries audit.new ≡ A.entries audit.old }
{
    let before = audit.faults();
    match audit.reserve() {
        Ok(()) => Ok(()),
        Err(AuditFault::Failed) => Err(ReserveFault::Failed {
            before,
            after: audit.faults(),
        }),
        Err(AuditFault::NoMemory) => Err(ReserveFault::NoMemory),
    }
}

/// Writes an entry down, with the change that was completed for an earlier section, and makes the stub of the section.
pub(crate) fn write_down<A: Audit>(
    audit: &mut A,
    site: &Site,
    entries: Entries,
    late: Option<ChangeId>,
) -> Stub
    requires room { 1 ≤ A.room audit.old }
    requires same { entries.stub ≡ entries.audit }
    ensures stub { WritesDown site.now (has_late entries.audit late) None result }
    ensures entries { A.entries audit.new ≡ with_entry (A.entries audit.old) (has_late entries.audit late) }
    ensures count { A.count audit.new ≡ A.count audit.old }
{
    let mut entry = entries.audit;
    entry.late = late;
    audit.add(entry);
    let mut entry = entries.stub;
    entry.late = late;
    Stub {
        slot: site.index,
        ticket: site.turns,
        entry: Some(entry),
        fault: None,
    }
}

/// Writes an entry down for a section that is refused, and answers the refusal.
pub(crate) fn refuse<A: Audit, T>(
    audit: &mut A,
    site: &Site,
    entries: Entries,
    late: Option<ChangeId>,
    fault: SlotFault,
) -> Turn<T>
    requires room { 1 ≤ A.room audit.old }
    requires same { entries.stub ≡ entries.audit }
    ensures answer { result.answer ≡ Err fault }
    ensures stub { (stub : Stub) × (result.stub ≡ Some stub) × WritesDown site.now (has_late entries.audit late) (Some fault) stub }
    ensures entries { A.entries audit.new ≡ with_entry (A.entries audit.old) (has_late entries.audit late) }
    ensures count { A.count audit.new ≡ A.count audit.old }
{
    let mut stub = write_down(audit, site, entries, late);
    stub.fault = Some(same(&fault));
    Turn {
        answer: Err(fault),
        stub: Some(stub),
    }
}

/// The same refusal.
fn same(fault: &SlotFault) -> SlotFault
    ensures { result ≡ fault.now }
{
    *fault
}

/// The turn of a section whose audit failed.
pub(crate) fn audit_failed<T>(site: &Site, before: u64, after: u64) -> Turn<T>
    ensures { IsRefusedTurn site.now (SlotFault.AuditFailed before after) result }
{
    Turn {
        answer: Err(SlotFault::AuditFailed { before, after }),
        stub: Some(Stub::refused(
            site.index,
            site.turns,
            SlotFault::AuditFailed { before, after },
        )),
    }
}

/// The turn of a section that found its slot's numbers spent.
pub(crate) fn spent_turn<T>(site: &Site) -> Turn<T>
    ensures { IsRefusedTurn site.now SlotFault.SeqSpent result }
{
    Turn {
        answer: Err(SlotFault::SeqSpent),
        stub: Some(Stub::refused(site.index, site.turns, SlotFault::SeqSpent)),
    }
}

/// The turn of a section that found no memory.
pub(crate) fn no_memory<T>() -> Turn<T>
    ensures answer { result.answer ≡ Err SlotFault.NoMemory }
    ensures stub { result.stub ≡ None }
{
    Turn {
        answer: Err(SlotFault::NoMemory),
        stub: None,
    }
}

/// The entry of a section that was about no register, and did nothing of its own. It takes no memory.
fn nothing_at(alloc: Global, ticket: u64) -> Entry
    ensures { result ≡ nothing_at ticket }
{
    Entry {
        ticket,
        late: None,
        name: Text::empty(alloc),
        deed: Deed::Kept,
    }
}

impl<D: Drive, A: Audit> Slot<D, A> {
    /// Writes into the audit that the section of this ticket was about no register and did nothing of its own, and makes its stub. It takes no memory.
    pub(crate) fn enter_nothing(
        &mut self,
        alloc: Global,
        ticket: u64,
        fault: Option<SlotFault>,
    ) -> Stub
        requires { 1 ≤ A.room (audit_of self.old) }
        ensures slot { result.slot ≡ (numbers_of self.old).index }
        ensures ticket { result.ticket ≡ ticket }
        ensures entry { result.entry ≡ Some (nothing_at ticket) }
        ensures fault { result.fault ≡ fault }
        ensures audit { A.entries (audit_of self.new) ≡ with_entry (A.entries (audit_of self.old)) (nothing_at ticket) }
        ensures count { A.count (audit_of self.new) ≡ A.count (audit_of self.old) }
        ensures numbers { numbers_of self.new ≡ numbers_of self.old }
        ensures holding { holding_of self.new ≡ holding_of self.old }
        ensures lanes { lanes_of self.new ≡ lanes_of self.old }
    {
        self.audit.add(nothing_at(alloc, ticket));
        let entry = nothing_at(alloc, ticket);
        Stub {
            slot: self.site.index,
            ticket,
            entry: Some(entry),
            fault,
        }
    }
}
