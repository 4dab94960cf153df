//! What a look at a register found.

use register_core::{Draft, Looked};

/// What a look found, and the draft of what is pending.
#[derive(Drop)]
pub struct Ready {
    /// What it found.
    pub looked: Looked,
    /// The draft of the pending change under the slot's next number, where one is pending.
    pub first: Option<Draft>,
}
