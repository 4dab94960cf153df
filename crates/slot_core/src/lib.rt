//! The slots of a store: each keeps registers over its lanes, and changes them section by section.
//!
//! A [`Slot`] keeps the registers of its buckets, keys and parts, and has one lane on each drive. In memory it keeps the puts that are under way, the pins of
//! reads, heals and Completes, and the ids of data that is trash. A section is one call on a slot. It looks at a register, completes what an earlier section
//! left pending, does its own work, and writes what it did into the slot's audit. It takes all memory before its first write.
//!
//! The contract of a section has two parts. The first holds whatever the drives tell (`Turns` in `specs/Turns.antt`): the stub fits the answer, and the audit
//! got the entry that the stub has. The second holds where the lanes stand for a state (`Leaves`): they stand afterwards for a state to which the entry moved,
//! and the data of the slot still stands. Layers above speak neither of ballots nor of lanes.
//!
//! `slot` has the type, and `life` its beginning and end. `commit_section`, `read_section`, `peek_section` and `name_list` have the sections that call lanes,
//! `flights` and `holding` those that don't. A commit goes from `commit_section` through `commit_plan` and `commit_write` to `commit_entry`, and every look
//! at a register through `register_look`.
//!
//! The crate stands on `register_core` and `register_caller` for registers, on `slot_rules` for what a deed does, on `slot_history` and `slot_data` for what a
//! slot's lanes and data stand for, and on `audit_trail` for entries.
#![tactic(auto)]

mod audit_entry;
mod commit_entry;
mod commit_plan;
mod commit_section;
mod commit_write;
mod flights;
mod holding;
mod life;
mod name_list;
mod peek_section;
mod read_plan;
mod read_section;
mod register_look;
mod slot;
mod stub;

pub use holding::{Flight, Ids, Pin};
pub use life::{life_law, open_law};
pub use name_list::Names;
pub use read_plan::ReadStart;
pub use slot::{LAST_COUNT, LAST_SEQ, Slot, SlotFault, SlotParts, Unopened};
pub use slot_rules::{Commit, Committed};
pub use stub::{Stub, Turn};
