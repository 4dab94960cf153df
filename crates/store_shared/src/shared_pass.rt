//! The passes of a shared desk: made, cut in two and joined.

ghost use Rattle.std.specs.Prelude.{◌<◌, ◌≡◌, IfErr, IfOk, Some, length, option_map, slice_index_or};
ghost use Rattle.store_shared.specs.Parting.{AreJoined, IsCutAt, IsJoinedAt, IsSplit, MayBeSplit, parts_in};
ghost use Rattle.store_shared.specs.SharedPasses.{FitsDesk, IsOfLock, drives_of, locks_of, pass_holds, passes_in, set_held, shared_holds};
ghost use Rattle.store_shared.specs.declared.shared.TurnedSlot.{TurnedSlot};
ghost use Rattle.turn_lock.specs.declared.lock.TurnLock.{TurnLock};

use crate::shared::{SharedDesk, SharedPass, TurnedSlot};
use audit_trail::Audit;
use drive_base::{Drive, SetPlan};
use std::alloc::Global;
use turn_lock::Pass;

/// The pass of a set over these passes and ways to data drives.
pub(crate) fn pass_over<D, A>(
    set: &SetPlan,
    passes: Vec<Option<Pass<TurnedSlot<D, A>>>>,
    disks: Vec<D>,
) -> SharedPass<D, A>
    requires count { length passes.items ≡ 64 }
    requires drives { length disks.items ≡ set.now.drives }
    ensures set { set_held (shared_holds result) ≡ set.now }
    ensures passes { passes_in result ≡ passes.items }
    ensures drives { drives_of result ≡ disks.items }
{
    SharedPass {
        set: *set,
        passes,
        disks,
    }
}

/// How many locks a desk has.
const LOCKS: usize = 64;

impl<R, D: Drive, A: Audit, G> SharedDesk<R, D, A, G> {
    /// Cuts one part off the pass of the lock of this index.
    fn cut_one(
        &self,
        place: &mut Option<Pass<TurnedSlot<D, A>>>,
        k: usize,
    ) -> Pass<TurnedSlot<D, A>>
        requires within { k < 64 }
        requires lock { (lock : TurnLock (TurnedSlot D A)) → IsOfLock (slice_index_or (locks_of self.now) k lock) (option_map pass_holds place.old) }
        requires parts { 1 < parts_in (option_map pass_holds place.old) }
        ensures cut { IsCutAt place.old place.new (Some result) }
        ensures lock { (lock : TurnLock (TurnedSlot D A)) → IsOfLock (slice_index_or (locks_of self.now) k lock) (option_map pass_holds place.new) }
        ensures lock_too { (lock : TurnLock (TurnedSlot D A)) → IsOfLock (slice_index_or (locks_of self.now) k lock) (Some (pass_holds result)) }
    {
        let Some(pass) = place.take() else {
            unreachable!()
        };
        let (one, other) = self.locks[k].split(pass, 1);
        *place = Some(one);
        other
    }

    /// Joins two passes of the lock of this index, of which the second one is gone then.
    fn join_one(
        &self,
        place: &mut Option<Pass<TurnedSlot<D, A>>>,
        gone: &mut Option<Pass<TurnedSlot<D, A>>>,
        k: usize,
    )
        requires within { k < 64 }
        requires lock { (lock : TurnLock (TurnedSlot D A)) → IsOfLock (slice_index_or (locks_of self.now) k lock) (option_map pass_holds place.old) }
        requires lock_too { (lock : TurnLock (TurnedSlot D A)) → IsOfLock (slice_index_or (locks_of self.now) k lock) (option_map pass_holds gone.old) }
        ensures joined { IsJoinedAt place.old gone.old place.new }
        ensures lock { (lock : TurnLock (TurnedSlot D A)) → IsOfLock (slice_index_or (locks_of self.now) k lock) (option_map pass_holds place.new) }
    {
        let Some(one) = place.take() else {
            unreachable!()
        };
        let Some(other) = gone.take() else {
            unreachable!()
        };
        *place = Some(self.locks[k].join(one, other));
    }

    /// Cuts a pass in two: one with the rest of its parts and its ways to the data drives, and one with one part of each lock, which has these ways. For want
    /// of memory, its only refusal, both are handed back.
    pub fn split(
        &self,
        alloc: Global,
        pass: SharedPass<D, A>,
        disks: Vec<D>,
    ) -> Result<(SharedPass<D, A>, SharedPass<D, A>), (SharedPass<D, A>, Vec<D>)>
        requires fits { FitsDesk self.now (shared_holds pass) }
        requires parts { MayBeSplit (shared_holds pass) }
        requires drives { length disks.items ≡ (set_held (shared_holds pass)).drives }
        ensures split { IfOk result (λ r. IsSplit pass r.0 r.1 disks.items) }
        ensures fits { IfOk result (λ r. FitsDesk self.now (shared_holds r.0) × FitsDesk self.now (shared_holds r.1)) }
        ensures err { IfErr result (λ back. (back.0 ≡ pass) × (back.1 ≡ disks)) }
    {
        let Ok(mut others) = Vec::with_capacity(alloc, LOCKS) else {
            return Err((pass, disks));
        };
        let SharedPass {
            set,
            mut passes,
            disks: own,
        } = pass;
        for k in 0..LOCKS {
            let other = self.cut_one(&mut passes[k], k);
            others.push_reserved(Some(other));
        }
        let first = pass_over(&set, passes, own);
        let second = pass_over(&set, others, disks);
        Ok((first, second))
    }

    /// Makes two passes one, which has the parts and the turns of both, has seen the later of what both have seen, and keeps the ways of the first one to the
    /// data drives. Those of the second one are given back. It takes no memory.
    pub fn join(&self, one: SharedPass<D, A>, other: SharedPass<D, A>) -> (SharedPass<D, A>, Vec<D>)
        requires fits { FitsDesk self.now (shared_holds one) }
        requires fits_too { FitsDesk self.now (shared_holds other) }
        ensures joined { AreJoined one other result.0 result.1.items }
        ensures fits { FitsDesk self.now (shared_holds result.0) }
    {
        let SharedPass {
            set,
            mut passes,
            disks,
        } = one;
        let SharedPass {
            set: _,
            passes: mut gone,
            disks: back,
        } = other;
        for k in 0..LOCKS {
            self.join_one(&mut passes[k], &mut gone[k], k);
        }
        (pass_over(&set, passes, disks), back)
    }
}
