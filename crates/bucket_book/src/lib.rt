//! The buckets: their names, the records that their registers hold, and the steps on them.
//!
//! [`check_name`] says whether a text is the name of a bucket. Each row, a bucket's record or none where there is no
//! bucket, has one content: [`write`] gives it, and [`read`] accepts contents alone and answers the row, or the place of
//! the first fault. [`apply`] makes, changes and reads a bucket: it answers exactly `Step` of the specs, which follows the
//! S3 API. The record is a table of `sealed_record`; the crate stands on `fault_base`, `field_reader` and `call_types` too.
#![tactic(auto)]

mod content;
mod name;
mod record;
mod step;

pub use content::{read, row_laws, write};
pub use name::check_name;
pub use record::{BucketRecord, MOMENT_LIMIT};
pub use step::{BucketAct, BucketStep, apply, step_laws};
