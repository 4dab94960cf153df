//! Manifests: what a data drive says of a body, and the print that names the body.
//!
//! A manifest names the register that the body is for, the set's drives and parity, and the parts of the body, each with
//! its length and the root of its shard on each drive. The crate is a table of `sealed_record`: `specs/Layout` has the
//! fields and their rules, `stamp_id`, `field_reader` and `seal_file` have ids, fields and sealed files, and `sha2` has
//! digests. Each canonical manifest has one file, of at most [`LONGEST_FILE`] bytes: [`write`] gives it, and [`read`]
//! answers the manifest whose file it is given, or says what is wrong with it. [`print_of`] is a function of the drives,
//! the parity, the lengths and the roots alone.
#![tactic(auto)]

mod file;
mod lists;
mod manifest;
mod print;
mod reading;
mod writing;

pub use file::{manifest_laws, read, write};
pub use lists::{Parts, Roots};
pub use manifest::{KIND, LONGEST_FILE, MOST_PART_BYTES, MOST_PARTS, Manifest, ManifestPart};
pub use print::{print_laws, print_of};
