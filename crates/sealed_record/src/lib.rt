//! One codec for all kinds of sealed records: files that are a kind, the spelling of one record, and a digest.
//!
//! A type of records is a [`Record`]: it has a table (`specs/Table`), which gives the row of each record, the format of
//! rows, their spelling and which records are written, and it takes, puts and measures a record. [`read`] and [`write`]
//! are then its files, and [`read_body`] and [`write_body`] its spellings, for records that stand inside others. What
//! they promise is in `specs/Answers`: exactly the file of a written record is read, as that record; a damage is named;
//! a body that spells no record is refused at the place of its first fault. A table for which this holds is lawful
//! (`specs/Laws`): each written record is found in its spelling, whatever is found is one's spelling, and one row is
//! one record's. From that follow, in `proofs/LawProofs`, the laws that a format states of its own records.
//!
//! So a format is its records, its rows and their layout and spelling in `specs`, a function for each part that takes it
//! and one that puts it in `src`, and the chain of its fields in `proofs`, built of `proofs/Chains`, `FieldProofs` and
//! `Rows`. The crate has the fields that several kinds share, and stands on `field_reader` for fields, on `seal_file` for
//! sealed files, and on `fault_base`.
#![tactic(auto)]

mod body;
mod fields;
mod file;
mod record;

pub use body::{read_body, write_body};
pub use fields::{take_flag, take_format};
pub use file::{read, write};
pub use record::Record;
