//! The history of a slot: which states it can have, what each entry of its audit does to them, and when the lanes of its registers stand for one.
//!
//! A slot keeps registers under names: of buckets, of keys and of the parts of uploads. Its state has what stands under each name, the changes that
//! were refused and may still be applied, and those that were applied (`specs/State.antt`). A call does to a register what S3 says of it
//! (`specs/Doing.antt`); an entry moves the state by its deed, and a list of entries runs from one state to another, with late steps of refused
//! changes at any place (`specs/Moving.antt`). Lanes stand for a state (`specs/Standing.antt`) where each register that is held is the value of its
//! lanes, and whatever may still become a value is a change that waits. A section moves the state for which they stand (`specs/Sections.antt`).
//!
//! The crate is definitions and their laws, over lists of records, and makes the names of registers: no drive is called here. Each law is the
//! contract of a function that does nothing. It promises that a run leads from lawful states to lawful ones, in which each change was applied once,
//! and that lanes go on to stand for the state through each write of a change to one register, whether it succeeds, fails or waits: a change of one's
//! own, which no record carries before, one that is on its way, or that of the value itself. It stands on `vote_core` for lanes, on `version_list`,
//! `bucket_book` and `upload_book` for contents and the steps on them, and on `audit_trail` for entries.
#![tactic(auto)]

mod laws;
mod names;

pub use laws::{fresh_law, name_laws, own_laws, pending_law, resting_laws, run_laws, value_law};
pub use names::{SLOTS, bucket_name, bucket_slot, key_name, key_slot, part_name};
