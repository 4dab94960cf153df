//! An audit that fails once.

ghost use Rattle.std.specs.Prelude.{None};

use audit_trail::{Audit, AuditFault, Entry};
use fault_base::count_after;

/// An audit that keeps nothing, and fails once where it is to: when it is asked for a place after so many times.
#[derive(Drop)]
pub struct FrailAudit {
    /// How often it is asked before it fails, none where it never does.
    left: Option<u64>,
    faults: u64,
}

impl FrailAudit {
    /// An audit that fails after so many times, or never.
    pub fn new(left: Option<u64>) -> FrailAudit {
        FrailAudit { left, faults: 0 }
    }
}

impl Audit for FrailAudit {
    ghost entries = { λ _. None };

    ghost room = { λ _. 1 };

    ghost count = { λ audit. audit.faults };

    fn reserve(&mut self) -> Result<(), AuditFault> {
        match self.left {
            None => Ok(()),
            Some(0) => {
                self.left = None;
                self.faults = count_after(self.faults);
                Err(AuditFault::Failed)
            }
            Some(left) => {
                self.left = Some(left.saturating_sub(1));
                Ok(())
            }
        }
    }

    fn add(&mut self, entry: Entry) {
        drop(entry);
    }

    fn faults(&self) -> u64 {
        self.faults
    }
}
