//! The names of versions and uploads that were read so far.

ghost use Rattle.std.specs.Prelude.{◌≡◌, List, ℕ, false, not, OnOk, IfOk};

use std::alloc::{AllocError, Global};
use std::collections::BTreeSet;

/// A set of names, each as its 16 bytes.
#[derive(Drop)]
pub struct Names {
    known: BTreeSet<[u8; 16]>,
}

impl Names {
    ghost use Rattle.version_list.specs.Known.{is_known, AddsName};

    /// No name.
    #[tactic(auto, unfolding(crate::specs::Known::is_known))]
    pub fn new(alloc: Global) -> Names
        ensures { (bytes : List ℕ) → is_known result bytes ≡ false }
    {
        Names {
            known: BTreeSet::new(alloc),
        }
    }

    /// Adds a name, and answers whether it was not known.
    #[tactic(auto, unfolding(crate::specs::Known::is_known))]
    pub fn add(&mut self, name: [u8; 16]) -> Result<bool, AllocError>
        ensures new { IfOk result (λ new. new ≡ not (is_known self.old name)) }
        ensures known { OnOk result (AddsName self.old self.new name) }
    {
        Ok(self.known.insert(name)?)
    }
}
