//! The pages of listings: which rows the keys of a bucket make, where a page is cut, and from which key on it looks for keys.
//!
//! The rules of a page are definitions of `receipts` (`specs/Pages.antt`), and each function here computes one of them: which keys are wanted ([`wants`]),
//! which are passed over for being in a group that is a row already ([`is_in_last`]), which rows a key adds ([`add_candidate`]), and the page of all rows
//! ([`page_of`]). [`first_key`] is a key before which no wanted one stands. What these definitions mean for whoever goes over the keys in their order is
//! said by the laws of [`page_laws`] (`specs/Laws.antt`).
//!
//! The crate stands on `receipts` for the rules, on `desk_base` for what listings ask, on `version_list` for the states of keys, on `call_types` for rows and
//! replies, on `drive_base` for the order of names, and on `seal_file` for texts. It knows no drive, no slot and no call.
#![tactic(auto)]

mod cutting;
mod grouping;
mod laws;
mod page_ask;
mod rowing;
mod starting;
mod wanting;

pub use cutting::page_of;
pub use laws::page_laws;
pub use page_ask::PageAsk;
pub use rowing::add_candidate;
pub use starting::first_key;
pub use wanting::{is_in_last, wants};
