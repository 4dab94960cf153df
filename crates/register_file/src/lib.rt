//! The file of a register on one lane: its base, and the change that may follow it.
//!
//! The crate is a table of `sealed_record`: `specs/Layout` has the fields and their rules, and the crates `stamp_id`,
//! `field_reader` and `seal_file` have ids, fields and sealed files. Each canonical record has one file: [`write`] gives
//! it, and [`read`] answers the record whose file it is given, or says what is wrong: the damage of bytes that are no
//! sealed register file, or the place in its body of the first fault. So a file that is read back is the record that was
//! written. [`longest_file`] tells how long a file can be.
#![tactic(auto)]

mod file;
mod reading;
mod record;
mod writing;

pub use file::{file_laws, longest_file, read, write};
pub use record::{Adds, Base, KIND, Next, RegFile};
