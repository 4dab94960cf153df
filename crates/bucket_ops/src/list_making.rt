//! How the op of a list of buckets begins.

ghost use Rattle.std.specs.Prelude.{◌≡◌, ◌<◌, ℕ, [], IfOk};
ghost use Rattle.desk_base.specs.declared.call.Call.TheVariants.{ListBuckets};
ghost use Rattle.op_steps.specs.Claims.{no_claim};
ghost use Rattle.bucket_ops.specs.Seeking.{IsFirstPage, sheet_of};

use crate::list_op::ListOp;
use crate::list_state::{ListState, Work};
use drive_base::SetPlan;
use fault_base::NoMemory;
use op_steps::Op;
use std::alloc::Global;

/// The work of a list that has done nothing yet.
fn new_work(alloc: Global) -> Result<Work, NoMemory>
    ensures { IfOk result (λ work. IsFirstPage 0 [] (sheet_of work)) }
{
    Ok(Work {
        slot: 0,
        from: String::from_str(alloc, "b/")?,
        names: Vec::new(alloc),
        at: 0,
        rows: Vec::new(alloc),
        sections_left: u64::MAX,
    })
}

impl ListOp {
    /// The op of a ListBuckets, made in this Unix second, on a store over this set. It has done nothing yet.
    pub fn new(alloc: Global, set: SetPlan, now: u64) -> Result<ListOp, NoMemory>
        ensures set { IfOk result (λ op. ⟦<ListOp as Op>⟧.set op ≡ set) }
        ensures task { IfOk result (λ op. ⟦<ListOp as Op>⟧.asked op ≡ record { call = ListBuckets; now = now }) }
        ensures taken { IfOk result (λ op. ⟦<ListOp as Op>⟧.taken op ≡ 0) }
        ensures begins { IfOk result (λ op. (slot : ℕ) × (slot < 64) × ⟦<ListOp as Op>⟧.stands op (no_claim slot) []) }
    {
        let work = new_work(alloc)?;
        let state = ListState::Paging(work);
        Ok(ListOp { set, now, state })
    }
}
