//! The calls on buckets, step by step.
//!
//! A [`LookOp`] (HeadBucket, GetBucketVersioning) looks at the bucket's register once and tells what it found. A [`ChangeOp`] (CreateBucket,
//! PutBucketVersioning) takes the document, where the call has one, commits its change at the bucket's register and tells the reply. A [`ListOp`] (ListBuckets)
//! goes over the names of all slots' registers page by page, looks at the register of each bucket that it is shown, and tells the buckets that it found, by
//! name. Each is an [`Op`](op_steps::Op): each of its logs pays what its call owes. The crate stands on `op_steps` for steps and what they owe, on `slot_core`
//! for listings, looks and commits, on `s3_docs` for documents, on `bucket_book` for the records of buckets, and on `slot_history` for the names of registers.
#![tactic(auto)]

mod answering;
mod change;
mod change_making;
mod change_op;
mod change_state;
mod deciding;
mod document;
mod list;
mod list_making;
mod list_op;
mod list_state;
mod listing;
mod look;
mod look_op;
mod making;
mod rowing;
mod seeking;
mod state;
mod taking;
mod telling;

pub use change_op::ChangeOp;
pub use list_op::ListOp;
pub use look_op::LookOp;
