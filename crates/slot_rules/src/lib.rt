//! The rules of a slot, over plain data: what a deed does to the content of its register, and what a section plans before it writes anything.
//!
//! A [`Commit`] is a deed. [`plan_key`], [`plan_bucket`] and [`plan_part`] plan what it does to a content: its reply, the content that it leaves, and
//! the data that no version has any more. [`plan_of`] makes of it the plan of a section: what it tells, and its own change, with the files of its draft.
//! The rules of contents ([`KeyRule`], [`BucketRule`], [`PartRule`], [`LookRule`]) say which contents a look accepts. [`take_flight`], [`take_pin`],
//! [`first_free`], [`leave_out`] and [`add_gone`] are all that is done to a slot's rows and trash.
//!
//! No drive is called here, no number of a slot is kept and no entry is written: `slot_core`, which stands on this crate, does these. The crate stands on
//! `version_list`, `bucket_book` and `upload_book` for what a call does to a content, on `register_core` for drafts, and on `slot_history` and
//! `slot_data` for the words of its clauses.
#![tactic(auto)]

mod commit;
mod deed_rule;
mod flights;
mod numbers;
mod owning;
mod pins;
mod planning;
mod plans;
mod ready;
mod rules;
mod site;
mod telling;
mod trash;

pub use commit::{Commit, Committed};
pub use deed_rule::{DeedRule, plan_deed, rule_of_deed};
pub use flights::take_flight;
pub use numbers::next_ballot;
pub use owning::{Own, OwnIds, id_over, last_over, own_ids};
pub use pins::take_pin;
pub use planning::Planned;
pub use plans::{Plan, plan_of};
pub use ready::Ready;
pub use rules::{BUCKET_BYTES, BucketRule, KEY_BYTES, KeyRule, LookRule, PART_BYTES, PartRule};
pub use site::{Ask, Drawn, Site};
pub use telling::{Tale, Told};
pub use trash::{add_gone, first_free, leave_out};
