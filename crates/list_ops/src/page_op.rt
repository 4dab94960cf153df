//! The op of a listing of a bucket.

ghost use Rattle.std.specs.Prelude.{◌≡◌, ◌≤◌, length, string_bytes};
ghost use Rattle.slot_history.specs.Names.{bucket_name};
ghost use Rattle.drive_base.specs.declared.drive.TheConstants.{LONGEST_NAME};

use crate::asked::Asked;
use crate::page_state::PageState;
use crate::target::Target;
use drive_base::SetPlan;

/// ListObjectsV2 or ListObjectVersions, step by step: the look at the bucket, in rounds the names of each slot's registers and a look at the register of each
/// key among them that the page needs, and the reply.
#[derive(Drop)]
pub struct PageOp {
    /// The set of the store.
    pub(crate) set: SetPlan,
    /// What it is asked.
    pub(crate) asked: Asked,
    /// The Unix second of the call.
    pub(crate) now: u64,
    /// The name of the bucket's register.
    pub(crate) name: String,
    /// What it looks for.
    pub(crate) target: Target,
    /// How far it is.
    pub(crate) state: PageState,
    pub ghost named: { string_bytes name ≡ bucket_name target.bucket },
    pub ghost short: { length (string_bytes name) ≤ LONGEST_NAME },
}
