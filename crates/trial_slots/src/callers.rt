//! The call under way.

use bucket_ops::{ChangeOp, ListOp, LookOp};
use trial_rig::Caller;

/// A call on a bucket that is served step by step, or none.
#[derive(Drop)]
pub enum AnyCaller {
    /// No call was begun.
    Nothing,
    /// A call that looks at a bucket.
    Look(Caller<LookOp>),
    /// A call that changes a bucket.
    Change(Caller<ChangeOp>),
    /// A list of the buckets.
    List(Caller<ListOp>),
}
