//! The calls on objects, step by step.
//!
//! Each op begins with the look at its bucket (`look_at_bucket` of `op_steps`). A [`ReadOp`] then begins a read of the key, tells what that found, and ends the
//! read. For a GetObject it calls data drives between, piece by piece, and tells its head once the first piece is at hand. A [`PutOp`] begins a put of the
//! key, stages its body drive call by drive call, and commits or drops the put. A [`DeedOp`] commits an act that needs no body. A put and a deed tell their
//! reply then, take trash of the slot and remove its files (`clearing`). Each is an [`Op`](op_steps::Op): each of its logs pays what its call owes.
//!
//! An op's type and its states stand in `*_op` and `put_state`, its steps in `read`, `put` and `deed`, and what it does after each step in `*_outcome`. A read
//! calls data drives in `read_pieces` over `reading`. A put has its sections in `put_sections`, the calls of its stage in `put_stage_calls`, and what its body
//! is of in `put_target`. What is asked of a deed is in `key_act`.
//!
//! The crate stands on `op_steps` for steps and what they owe, on `header_values` for the entity tags that a condition names, on `slot_core` for sections of
//! slots, on `put_stage` for the data of a put, on `get_read` for that of a read, on `bucket_book` for the records of buckets, on `slot_history` for the names
//! of registers, on `slot_data` for the data of slots, and on `body_print` for the names of its files.
#![tactic(auto)]

mod clearing;
mod data_files;
mod deed;
mod deed_op;
mod key_act;
mod put;
mod put_op;
mod put_outcome;
mod put_sections;
mod put_stage_calls;
mod put_state;
mod put_target;
mod read;
mod read_op;
mod read_outcome;
mod read_pieces;
mod reading;
mod telling;

pub use deed_op::DeedOp;
pub use put_op::PutOp;
pub use read_op::ReadOp;
