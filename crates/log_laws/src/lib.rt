//! The laws of logs: what any log of steps leaves of the slots, of their data and of the data drives, whatever ops were done.
//!
//! They say that the histories of the slots run by a log's entries, that each step and each call keeps the data of every slot, that no step takes live data away,
//! that each refusal has its cause, and that where enough lanes and data drives serve no section and no read is refused for want of them. Each is the contract of a
//! function that does nothing, over the steps of `op_steps` (`Ran`), and the crate has no other code. It stands on `op_steps` for steps, on `receipts` for what is
//! owed, on `slot_core`, `slot_history` and `slot_data` for slots and their data, and on `manifest_file` and `body_print` for the files of a body.
#![tactic(auto)]

mod laws;

pub use laws::{
    call_law, calls_law, calm_law, cause_law, claim_laws, data_law, get_law, history_law,
    lanes_law, live_law, request_law, requests_law, showing_laws, trouble_law,
};
