//! What is asked of the store, and what answers it: calls as plain data, and the traits of those that tell a reply, that wait between two steps,
//! and that serve calls.
//!
//! A [`Call`] is a request of the S3 API once its head is read. A [`Desk`] answers calls: it takes a body from a [`Feed`](call_types::Feed), tells
//! the reply to a [`Teller`], and gives a receipt of what was done for it. A [`Gate`] is told between two steps of a call, where others may work.
//!
//! The crate stands on `call_types` for keys, replies and feeds, on `stamp_id` for ids, on `seal_file` for texts and on `fault_base` for counts.
//! Its definitions are the promise: what a teller was told (`specs/Telling.antt`), which calls are lawful and how long a body they state
//! (`specs/Calls.antt`), and what a desk answers, as a relation that each desk defines.
#![tactic(auto)]

mod asks;
mod call;
mod desk;
mod teller;

pub use asks::{ListAsk, VersionsAsk};
pub use call::Call;
pub use desk::{Desk, Gate};
pub use teller::Teller;
