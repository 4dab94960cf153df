//! How the op of a change begins.

ghost use Rattle.std.specs.Prelude.{◌≡◌, ◌<◌, ◌≤◌, ℕ, [], IfOk, length};
ghost use Rattle.version_list.specs.State.{IsMoment};
ghost use Rattle.op_steps.specs.Claims.{no_claim};
ghost use Rattle.bucket_ops.specs.Begins.{IsNewMake, IsNewSet};
ghost use Rattle.bucket_ops.specs.Changes.{IsChange};
ghost use Rattle.bucket_ops.specs.Deeds.{AreLow};

use crate::change_op::ChangeOp;
use crate::change_state::ChangeState;
use crate::deciding::{after_document, make_deed};
use crate::document::Document;
use desk_base::Call;
use drive_base::SetPlan;
use fault_base::NoMemory;
use op_steps::Op;
use seal_file::Text;
use std::alloc::Global;

impl ChangeOp {
    /// The op of a CreateBucket or a PutBucketVersioning, made in this Unix second, on a store over this set. It has done nothing yet. All the memory that
    /// the document takes is taken here.
    pub fn new(alloc: Global, set: SetPlan, call: &Call, now: u64) -> Result<ChangeOp, NoMemory>
        requires call { IsChange call.now }
        requires moment { IsMoment now }
        ensures set { IfOk result (λ op. ⟦<ChangeOp as Op>⟧.set op ≡ set) }
        ensures task { IfOk result (λ op. ⟦<ChangeOp as Op>⟧.asked op ≡ record { call = call.now; now = now }) }
        ensures taken { IfOk result (λ op. ⟦<ChangeOp as Op>⟧.taken op ≡ 0) }
        ensures begins { IfOk result (λ op. (slot : ℕ) × (slot < 64) × ⟦<ChangeOp as Op>⟧.stands op (no_claim slot) []) }
    {
        match call {
            Call::CreateBucket { bucket } => ChangeOp::make(alloc, set, bucket, now),
            Call::PutVersioning { bucket, length } => {
                ChangeOp::set_mode(alloc, set, bucket, *length as usize, now)
            }
            _ => Err(NoMemory),
        }
    }

    /// The op that makes this bucket.
    fn make(alloc: Global, set: SetPlan, bucket: &Text, now: u64) -> Result<ChangeOp, NoMemory>
        requires low { AreLow bucket.now }
        requires short { length bucket.now ≤ 63 }
        requires moment { IsMoment now }
        ensures { IfOk result (IsNewMake set bucket.now now) }
    {
        let deed = make_deed(alloc, bucket)?;
        Ok(ChangeOp {
            set,
            bucket: Text::from_slice(alloc, bucket.as_slice())?,
            sets_mode: false,
            document: Document::new(alloc, 0)?,
            now,
            state: ChangeState::Committing(deed),
        })
    }

    /// The op that sets the mode of this bucket, by a document of so many bytes.
    fn set_mode(
        alloc: Global,
        set: SetPlan,
        bucket: &Text,
        size: usize,
        now: u64,
    ) -> Result<ChangeOp, NoMemory>
        requires low { AreLow bucket.now }
        requires short { length bucket.now ≤ 63 }
        requires moment { IsMoment now }
        ensures { IfOk result (IsNewSet set bucket.now size now) }
    {
        let document = Document::new(alloc, size)?;
        let state = if document.is_whole() {
            after_document(alloc, bucket, document.as_slice())
        } else {
            ChangeState::Reading
        };
        Ok(ChangeOp {
            set,
            bucket: Text::from_slice(alloc, bucket.as_slice())?,
            sets_mode: true,
            document,
            now,
            state,
        })
    }
}
