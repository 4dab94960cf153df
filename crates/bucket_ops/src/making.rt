//! How the op of a look begins.

ghost use Rattle.std.specs.Prelude.{◌≡◌, ◌<◌, ℕ, [], IfOk};
ghost use Rattle.bucket_book.specs.Name.{IsBucketName};
ghost use Rattle.op_steps.specs.Claims.{no_claim};
ghost use Rattle.bucket_ops.specs.Begins.{IsNew};
ghost use Rattle.bucket_ops.specs.Looks.{IsLook};

use crate::look_op::LookOp;
use crate::state::State;
use desk_base::Call;
use drive_base::SetPlan;
use fault_base::NoMemory;
use op_steps::Op;
use seal_file::Text;
use slot_history::bucket_name;
use std::alloc::Global;

impl LookOp {
    /// The op of a call that only looks at a bucket, made in this Unix second, on a store over this set. It has done nothing yet.
    pub fn new(alloc: Global, set: SetPlan, call: &Call, now: u64) -> Result<LookOp, NoMemory>
        requires { IsLook call.now }
        ensures set { IfOk result (λ op. ⟦<LookOp as Op>⟧.set op ≡ set) }
        ensures task { IfOk result (λ op. ⟦<LookOp as Op>⟧.asked op ≡ record { call = call.now; now = now }) }
        ensures taken { IfOk result (λ op. ⟦<LookOp as Op>⟧.taken op ≡ 0) }
        ensures begins { IfOk result (λ op. (slot : ℕ) × (slot < 64) × ⟦<LookOp as Op>⟧.stands op (no_claim slot) []) }
    {
        match call {
            Call::HeadBucket { bucket } => LookOp::of(alloc, set, bucket, false, now),
            Call::GetVersioning { bucket } => LookOp::of(alloc, set, bucket, true, now),
            _ => Err(NoMemory),
        }
    }

    /// The op of a look at this bucket.
    fn of(
        alloc: Global,
        set: SetPlan,
        bucket: &Text,
        asks_mode: bool,
        now: u64,
    ) -> Result<LookOp, NoMemory>
        requires { IsBucketName bucket.now }
        ensures { IfOk result (IsNew set bucket.now asks_mode now) }
    {
        let name = bucket_name(alloc, bucket)?;
        let bucket = Text::from_slice(alloc, bucket.as_slice())?;
        Ok(LookOp {
            set,
            bucket,
            name,
            asks_mode,
            now,
            state: State::Looking,
        })
    }
}
