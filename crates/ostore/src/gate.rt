//! The gate of the program's desk.

use desk_base::Gate;

/// A gate that does nothing between the steps of calls.
#[derive(Drop)]
pub struct NoGate;

impl Gate for NoGate {
    fn between(&self, _slot: u8) {}
}
