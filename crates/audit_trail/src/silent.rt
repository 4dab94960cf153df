//! An audit that keeps nothing.

ghost use Rattle.std.specs.Prelude.{◌≡◌, None, IsOk};
ghost use Rattle.audit_trail.specs.Entries.{CountsReserve};

use crate::{Audit, AuditFault, Entry};

/// An audit that keeps nothing and tells nothing. It takes no memory, and never fails.
#[derive(Clone, Copy, Default, PartialEq, Eq)]
pub struct NullAudit;

impl NullAudit {
    /// The audit.
    pub fn new() -> NullAudit {
        NullAudit
    }
}

impl Audit for NullAudit {
    ghost entries = { λ _. None };

    ghost room = { λ _. 1 };

    ghost count = { λ _. 0 };

    fn reserve(&mut self) -> Result<(), AuditFault>
        ensures always { IsOk result }
        ensures count { CountsReserve result 0 0 }
    {
        Ok(())
    }

    fn add(&mut self, entry: Entry) {
        drop(entry);
    }

    fn faults(&self) -> u64 {
        0
    }
}
