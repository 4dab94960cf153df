//! The trait of all audits.

ghost use Rattle.std.specs.Prelude.{◌≡◌, ◌+◌, ◌≤◌, ℕ, List, Option, OnOk};
ghost use Rattle.audit_trail.specs.declared.entry.Entry.{Entry};
ghost use Rattle.audit_trail.specs.Entries.{CountsReserve, with_entry};

use crate::Entry;
use thiserror::Error;

/// Why there is no place for an entry.
#[derive(Clone, Copy, Debug, PartialEq, Eq, Error)]
pub enum AuditFault {
    /// The audit failed, and counted a fault.
    #[error("the audit failed")]
    Failed,
    /// There was not enough memory.
    #[error("out of memory")]
    NoMemory,
}

/// Takes entries, and keeps their order.
pub trait Audit {
    /// The entries that it has, or None for an audit that does not tell them.
    ghost entries: { Self → Option (List Entry) };

    /// How many places are reserved: so many entries can be added.
    ghost room: { Self → ℕ };

    /// How many calls failed. It never falls, and stands still at the last value of a `u64`.
    ghost count: { Self → ℕ };

    /// Makes room for one entry, where there is none yet. No place that is reserved gets lost.
    fn reserve(&mut self) -> Result<(), AuditFault>
        ensures room { OnOk result (1 ≤ room self.new) }
        ensures places { room self.old ≤ room self.new }
        ensures entries { entries self.new ≡ entries self.old }
        ensures count { CountsReserve result (count self.old) (count self.new) };

    /// Adds an entry, in a place that is reserved. It takes no memory, and can't fail.
    fn add(&mut self, entry: Entry)
        requires { 1 ≤ room self.old }
        ensures places { room self.old ≤ room self.new + 1 }
        ensures entries { entries self.new ≡ with_entry (entries self.old) entry }
        ensures count { count self.new ≡ count self.old };

    /// How many calls failed.
    fn faults(&self) -> u64
        ensures { result ≡ count self.now };
}
