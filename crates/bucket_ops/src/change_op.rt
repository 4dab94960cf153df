//! The op of a call that changes a bucket.

ghost use Rattle.std.specs.Prelude.{◌≡◌, ◌<◌, ◌≤◌, true, length, vec_len};
ghost use Rattle.bucket_ops.specs.Deeds.{AreLow};
ghost use Rattle.bucket_ops.specs.declared.change_state.ChangeState.TheVariants.{Reading};
ghost use Rattle.version_list.specs.State.{IsMoment};

use crate::change_state::ChangeState;
use crate::document::Document;
use drive_base::SetPlan;
use seal_file::Text;

/// CreateBucket or PutBucketVersioning, step by step: the document is taken, where the call has one; its change is committed at the bucket's register; and
/// the reply is told.
#[derive(Drop)]
pub struct ChangeOp {
    /// The set of the store.
    pub(crate) set: SetPlan,
    /// The bucket.
    pub(crate) bucket: Text,
    /// Whether the bucket's mode is set, as the document says.
    pub(crate) sets_mode: bool,
    /// The document. That of a CreateBucket has no byte.
    pub(crate) document: Document,
    /// The Unix second of the call.
    pub(crate) now: u64,
    /// How far it is.
    pub(crate) state: ChangeState,
    pub ghost low: { AreLow bucket },
    pub ghost short: { length bucket ≤ 63 },
    pub ghost moment: { IsMoment now },
    pub ghost reads: { state ≡ Reading → (sets_mode ≡ true) × (document.taken < vec_len document.bytes) },
}
