//! The op of a ListBuckets.

use crate::list_state::ListState;
use drive_base::SetPlan;

/// ListBuckets, step by step: page by page the names of each slot's registers, a look at the register of each bucket among them, and the reply.
#[derive(Drop)]
pub struct ListOp {
    /// The set of the store.
    pub(crate) set: SetPlan,
    /// The Unix second of the call.
    pub(crate) now: u64,
    /// How far it is.
    pub(crate) state: ListState,
}
