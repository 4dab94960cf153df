//! The calls, replies and states of the store as plain data: what a call names, what it does to the state of a key,
//! what it is answered, and why it is refused, with the shapes and the words of the S3 API.
//!
//! The crate stands on `stamp_id` for ids and ballots, on `seal_file` for texts and damages and on `drive_base` for the
//! most drives of a set. All fields are public but those of `Listing` and `Whys`.
//! It promises that a `Listing` is the list of its items, made of a `Vec` and given back without memory, that each clone
//! is equal to its original, that the refusal of a key is told as that of the call, and that `Whys` keeps one `Why` for
//! each of 1 to 16 drives in place and tells how many drives served, and which, and each drive's letter.
#![tactic(auto)]

mod act;
mod clones;
mod feed;
mod list;
mod names;
mod refusal;
mod reply;
mod version;
mod why;

pub use act::{Act, Brief};
pub use feed::{Cut, Feed};
pub use list::Listing;
pub use names::{Etag, Key, Mode, Pick, RangeAsk, Span, VersionName};
pub use refusal::{KeyRefusal, ListFault, Refusal};
pub use reply::{
    BucketRow, BucketRows, PageCut, PageRow, PageRows, Reply, VersionRow, VersionRows,
};
pub use version::{PartRecord, PartRef, PartRefs, Upload, Uploads, Version, Versions, What};
pub use why::{FileKind, Why, Whys};
