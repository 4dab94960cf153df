//! Listings of a bucket, step by step.
//!
//! A [`PageOp`] (ListObjectsV2, ListObjectVersions) looks at the bucket first. Then it goes on in rounds: a round asks each of the 64 slots for names of
//! registers, from one name on, and keeps those of keys that may have rows; then it looks at these keys in the order of their names, up to where the names of
//! all slots are known, and adds the rows of each. Keys of a group that is the last row are passed over by their names. Once there is a row more than the page
//! gives, or no name is left, it tells the page. It is an [`Op`](op_steps::Op): each of its logs pays what its call owes. The crate stands on `op_steps` for
//! steps and what they owe, on `list_page` for the rows and the cut of a page, on `slot_core` for listings and looks, on `version_list` for the states of keys,
//! and on `slot_history` for the names of registers.
#![tactic(auto)]

mod after;
mod asked;
mod gathering;
mod op;
mod page_making;
mod page_op;
mod page_state;
mod seeking;
mod target;
mod telling;

pub use asked::Asked;
pub use page_op::PageOp;
