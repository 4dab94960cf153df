//! Staging: the files of a body are put on the drives of a set, before a version names them.
//!
//! A body becomes one shard file and one manifest on each drive. On each drive they are appended and synced under loose
//! names, then the manifest is put in place, then the shard file, so that a shard file in place has its manifest. The
//! drives that are left go on where one fails; the stage succeeds where as many drives as a write needs did all. A body
//! that was put up in parts becomes one manifest alone, since its parts are staged already.
//!
//! The crate stands on `shard_file`, `poly_code` and `manifest_file` for the files, on `body_print` for what a body's
//! shards are, and on `drive_base` for drives. A [`Stage`] does this step by step, a window of whole stripes of the body or
//! one drive call at a time, so that calls of others can come between two steps. What it leaves is said of its own four
//! names on each drive: a step keeps what is said of them, and at the end each drive that took all holds the manifest and
//! the shard file of exactly this body, where others left these names alone. A drive that failed has neither, the manifest
//! alone or both, and nothing is in place where the body has another MD5 than stated. Its order is fixed: window by window
//! the blocks on each drive, then drive by drive the digest table, the manifest, and both renames.
#![tactic(auto)]

mod answers;
mod dues;
mod fills;
mod loads;
mod manifests;
mod stage;
mod steps;
mod windows;

pub use answers::{StageFault, Staged};
pub use stage::{Stage, StageNext};
pub use steps::stage_laws;
