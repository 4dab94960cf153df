//! The desk of a store: what serves calls over its slots and data drives.
//!
//! A [`PlainPass`] has the 64 slots and the data drives of a store for itself, so its calls are served one after another. [`PlainDesk`] is its desk: each call
//! is served by the one loop of `op_steps` over the call's op, and gives a [`Receipt`] with the stubs of its sections. A call that is not served yet is told
//! so. What the desk answers is said in `specs/Answers.antt`: a log of the call's steps leads from the pass before to the pass after, and this log pays what
//! the call owes. That the desk tells what a desk must, and that a call which is cut has its cause, follows from the log. By its laws the log is that of one
//! call on the store of the pass, so that the laws of calls of `op_steps` hold of it.
//!
//! A [`SharedDesk`] serves several callers at once, each in a thread of its own with a [`SharedPass`]. Each slot stands behind a turn lock of `turn_lock`, and a
//! section is done in a turn of its slot; between two steps a call holds nothing, and a gate is told. What it answers is said in `specs/SharedAnswers.antt`: a
//! log of the call's steps among those of others, in which the turns of each slot are told with their tickets. Once all passes are joined again the desk is
//! closed, and the turns of all callers are the history of each slot. Both desks pick and serve ops by one function (`calls.rt`).
//!
//! The crate stands on `op_steps` for the loop, on `receipts` for what is owed, on `object_ops` and `bucket_ops` for the ops, on `slot_core` for slots and
//! their stubs, on `turn_lock` for turns, and on `desk_base` for what a desk is.
#![tactic(auto)]

mod calls;
mod closing;
mod finishing;
mod laws;
mod making;
mod op_desk;
mod opening;
mod pass;
mod plain_desk;
mod plain_pass;
mod shared;
mod shared_desk;
mod shared_pass;

pub use laws::{
    answers_law, fits_law, opened_law, pass_law, sections_law, shared_answers_law, struck_law,
    trails_law, trouble_law,
};
pub use op_desk::Receipt;
pub use opening::open_all;
pub use pass::{NotOpened, PassParts, PlainPass, StoreParts};
pub use plain_desk::PlainDesk;
pub use shared::{SharedDesk, SharedPass, TurnedSlot};
