//! The parts of multipart uploads: the records that their registers hold, and the steps on them.
//!
//! Each row, a part's record or none where there is no part, has one content: [`write`] gives it, and [`read`] accepts
//! contents alone and answers the row, or the place of the first fault. [`store_part`] stores a part of an open upload.
//! [`gather`] answers the parts that a CompleteMultipartUpload lists, or the first of its refusals in S3's order, and
//! [`join`] what they make together: the length and the entity tag. They are exactly `Stores`, `Gathers` and `Joins` of the
//! specs. The record is a table of `sealed_record`; uploads are those of `version_list`, and the crate stands on
//! `fault_base`, `field_reader`, `stamp_id`, `call_types` and `md5` too.
#![tactic(auto)]

mod content;
mod gathering;
mod joining;
mod record;
mod storing;

pub use content::{read, row_laws, write};
pub use gathering::{
    GatherFault, ListedPart, PART_LEAST, PartRecords, check_listed, gather, gather_laws,
};
pub use joining::{Joined, join};
pub use storing::{StoredPart, store_part};
