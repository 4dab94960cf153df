//! What may be concluded from the lanes of a register: the verdict, and the laws of the commit protocol.
//!
//! A register stands on N lanes, and each lane keeps one record of it: a base, and perhaps a next that is on its way. [`judge`] concludes from the
//! records that could be read whether the register is settled, on which base, or which change is pending; [`decide`] says whether a pending change
//! is completed. Neither takes memory, and neither touches a drive.
//!
//! Why that is right is the theory of lanes, in the definitions: when lanes are sound, which value they hold, what each loop of writes leaves of
//! them, when nothing is on its way, and which changes are dead. Its laws are the contracts of functions that do nothing (`verdict_laws`,
//! `prepare_laws`, `mark_laws` and so on), over all lists of lanes, every choice of good, damaged and lost ones, and every pattern of failing writes.
//!
//! The crate stands on `stamp_id` for ballots and change ids and on `drive_base` for the plan of a set.
#![tactic(auto)]

mod laws;
mod row;
mod verdict;

pub use laws::{
    calm_laws, fresh_laws, history_laws, live_laws, mark_laws, mend_law, number_laws, place_laws,
    prepare_laws, value_laws, verdict_laws,
};
pub use row::{NextRow, Row};
pub use verdict::{Onward, Verdict, decide, judge};
