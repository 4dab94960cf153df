//! An entry: what one section did.

use call_types::Brief;
use seal_file::Text;
use stamp_id::ChangeId;

/// What one section of a slot did.
#[derive(Drop)]
pub struct Entry {
    /// The section's number in the slot's life, from 0.
    pub ticket: u64,
    /// The change that the section completed for an earlier one, none where it completed none.
    pub late: Option<ChangeId>,
    /// The name of the register that it was about, empty where it was about none.
    pub name: Text,
    /// What it did.
    pub deed: Deed,
}

/// What a section did to its register.
#[derive(Drop)]
pub enum Deed {
    /// It did the call, or the state of the key or bucket refused it.
    Done {
        /// The call.
        call: Brief,
        /// What it was answered.
        reply: Brief,
    },
    /// It began this change and was refused, so that the change may have taken effect or take it later.
    Refused {
        /// The change.
        change: ChangeId,
        /// The call.
        call: Brief,
    },
    /// It changed nothing of its own.
    Kept,
    /// The slot was opened.
    Opened {
        /// The term of the slot's life.
        term: u64,
    },
}
