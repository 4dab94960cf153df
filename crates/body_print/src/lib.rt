//! The shards and the print of a body, as definitions, and their laws.
//!
//! A body of bytes has one list of shards over the drives of a set: each stripe's data blocks and the parity blocks
//! that make every column a codeword. Cut into parts in one way, it has one text under its print, and so one print.
//! The files of a body's data have their names here, `HoldsManifest` and `HoldsPart` say what a drive's kept files have of it,
//! and `Clash` says that two byte strings with one SHA-256 were met.
//!
//! The crate stands on `shard_file` for stripes, blocks and roots, on `manifest_file` for the text under a print, and on
//! `poly_code` for codewords. It has definitions, and [`body_laws`] carries their laws; the calls that run are those that make
//! the names ([`name_of_manifest`], [`name_of_shard`] and the loose ones), and [`data_plan`].
#![tactic(auto)]

mod laws;
mod names;
mod plans;

pub use laws::body_laws;
pub use names::{loose_name_of_manifest, loose_name_of_shard, name_of_manifest, name_of_shard};
pub use plans::data_plan;
