//! A gate that keeps the slot that it was told last.

use desk_base::Gate;
use std::sync::Arc;
use std::sync::atomic::{AtomicU64, Ordering};

/// A gate that keeps the slot that it was told last, in a place that others read.
#[derive(Drop)]
pub struct LastSlot {
    pub slot: Arc<AtomicU64>,
}

impl Gate for LastSlot {
    fn between(&self, slot: u8) {
        self.slot.store(u64::from(slot), Ordering::SeqCst);
    }
}
