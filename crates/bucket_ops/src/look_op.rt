//! The op of a call that only looks at a bucket.

ghost use Rattle.std.specs.Prelude.{◌≡◌, ◌≤◌, length, string_bytes};
ghost use Rattle.slot_history.specs.Names.{bucket_name};
ghost use Rattle.drive_base.specs.declared.drive.TheConstants.{LONGEST_NAME};

use crate::state::State;
use drive_base::SetPlan;
use seal_file::Text;

/// HeadBucket or GetBucketVersioning, step by step: a look at the bucket's register, and the reply.
#[derive(Drop)]
pub struct LookOp {
    /// The set of the store.
    pub(crate) set: SetPlan,
    /// The bucket.
    pub(crate) bucket: Text,
    /// The name of its register.
    pub(crate) name: String,
    /// Whether the bucket's mode is asked for.
    pub(crate) asks_mode: bool,
    /// The Unix second of the call.
    pub(crate) now: u64,
    /// How far it is.
    pub(crate) state: State,
    pub ghost named: { string_bytes name ≡ bucket_name bucket },
    pub ghost short: { length (string_bytes name) ≤ LONGEST_NAME },
}
