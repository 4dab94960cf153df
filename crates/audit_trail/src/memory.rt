//! An audit in memory.

ghost use Rattle.std.specs.Prelude.{◌≡◌, [], Some};

use crate::{Audit, AuditFault, Entry};
use std::alloc::Global;
use std::marker::Model;

/// An audit that keeps its entries in memory, and tells them. It fails for want of memory alone, and counts no fault.
#[derive(Drop)]
pub struct MemAudit {
    entries: Vec<Entry>,
}

impl Model for MemAudit {
    ghost use Rattle.audit_trail.specs.MemAudit.{MemoryAudit, spare};

    ghost Value = { MemoryAudit };

    ghost view = { λ a. record { entries = a.entries.items; room = spare a.entries } };
}

impl MemAudit {
    /// An audit without entries. It takes no memory.
    pub fn new(alloc: Global) -> MemAudit
        ensures { result.entries ≡ [] }
    {
        MemAudit {
            entries: Vec::new(alloc),
        }
    }

    /// The entries, in the order in which they were added.
    pub fn entries(&self) -> &[Entry]
        ensures { result.now ≡ self.now.entries }
    {
        &self.entries
    }

    /// The entries, with their memory.
    pub fn into_entries(self) -> Vec<Entry>
        ensures { result.items ≡ self.entries }
    {
        self.entries
    }
}

impl Audit for MemAudit {
    ghost entries = { λ a. Some a.entries };

    ghost room = { λ a. a.room };

    ghost count = { λ _. 0 };

    fn reserve(&mut self) -> Result<(), AuditFault> {
        match self.entries.reserve(1) {
            Ok(()) => Ok(()),
            Err(_) => Err(AuditFault::NoMemory),
        }
    }

    fn add(&mut self, entry: Entry) {
        self.entries.push_reserved(entry);
    }

    fn faults(&self) -> u64 {
        0
    }
}
