//! The words of a command line: options, each at most once, and then one command.
//!
//! [`plan_of`] reads words as a [`Plan`] exactly where they say one (`specs/Words.antt`).
//!
//! It stands on `drive_base` for the plan of a set, and on `uuid` for its id.
#![tactic(auto)]

mod line;
mod numbers;
mod options;
mod plan;
mod words;

pub use numbers::{number_between, number_of};
pub use plan::{Command, Plan, Usage};
pub use words::plan_of;
