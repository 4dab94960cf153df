//! What a section tells beside its answer.

ghost use Rattle.std.specs.Prelude.{◌≡◌, Option, MatchOption, None, Some};
ghost use Rattle.audit_trail.specs.declared.entry.Entry.{Entry};
ghost use Rattle.slot_core.specs.declared.slot.SlotFault.{SlotFault};

use crate::slot::SlotFault;
use audit_trail::Entry;

/// What a section leaves of itself: its slot, its ticket, its entry where it wrote one, and its refusal where it was refused. Sections alone make one.
#[derive(Drop)]
pub struct Stub {
    /// The slot.
    pub(crate) slot: u8,
    /// How many sections the slot had before, and so the number of the turn.
    pub(crate) ticket: u64,
    /// What was written into the audit.
    pub(crate) entry: Option<Entry>,
    /// Why the section was refused.
    pub(crate) fault: Option<SlotFault>,
}

impl Stub {
    /// The index of the slot.
    pub fn slot(&self) -> u8
        ensures { result ≡ self.now.slot }
    {
        self.slot
    }

    /// The number of the section in the slot's life, from 0.
    pub fn ticket(&self) -> u64
        ensures { result ≡ self.now.ticket }
    {
        self.ticket
    }

    /// What the section wrote into the slot's audit.
    pub fn entry(&self) -> Option<&Entry>
        ensures { MatchOption result (self.now.entry ≡ None) (λ entry. self.now.entry ≡ Some entry.now) }
    {
        self.entry.as_ref()
    }

    /// Why it was refused.
    pub fn fault(&self) -> Option<SlotFault>
        ensures { result ≡ self.now.fault }
    {
        self.fault
    }

    /// The stub of a section that was refused before it could write an entry.
    pub(crate) fn refused(slot: u8, ticket: u64, fault: SlotFault) -> Stub
        ensures slot { result.slot ≡ slot }
        ensures ticket { result.ticket ≡ ticket }
        ensures entry { result.entry ≡ None }
        ensures fault { result.fault ≡ Some fault }
    {
        Stub {
            slot,
            ticket,
            entry: None,
            fault: Some(fault),
        }
    }
}

/// What a section answers, and its stub, if it has one.
#[derive(Drop)]
pub struct Turn<T> {
    /// The answer.
    pub answer: Result<T, SlotFault>,
    /// The stub.
    pub stub: Option<Stub>,
}
