//! What is done step by step.

ghost use Rattle.std.specs.Prelude.{◌≡◌, ◌+◌, ◌<◌, ◌^◌, ℕ, Option, length};
ghost use Rattle.call_types.specs.declared.feed.Cut.{Cut};
ghost use Rattle.drive_base.specs.View.{views};
ghost use Rattle.drive_base.specs.declared.plan.SetPlan.{SetPlan};
ghost use Rattle.receipts.specs.Events.{Log};
ghost use Rattle.slot_core.specs.Numbers.{NumbersMove};
ghost use Rattle.slot_core.specs.Views.{numbers_of};
ghost use Rattle.op_steps.specs.Claims.{Claim};
ghost use Rattle.op_steps.specs.Store.{slot_seen, teller_of};
ghost use Rattle.op_steps.specs.Words.{BarredSo, CallsSo, FeedsSo, IsInStore, IsSection, LetsGo, TellsSo, TurnsSo};
ghost use Rattle.op_steps.specs.declared.next.OpNext.{OpNext};

use crate::next::OpNext;
use audit_trail::Audit;
use call_types::{Cut, Feed};
use desk_base::Teller;
use drive_base::Drive;
use receipts::Barred;
use slot_core::{Slot, Stub};
use std::alloc::Global;

/// What is done step by step for a caller or by the store itself: each step is one section of a slot, one call of a data drive, some bytes of the body or one
/// telling. Other ops may work between two steps. An op holds no slot, no drive and no connection; what it does to them stands in the log of its steps, and what
/// it relies on between two steps is its claim. An op that never makes such a step has a `data` or a `feed` that does nothing.
pub trait Op {
    /// The set of the store.
    ghost set: { Self → SetPlan };

    /// What it is to do: what a caller asks, or work of the store's own.
    ghost Asked: { Type 0 };

    /// That of an op.
    ghost asked: { Self → Asked };

    /// What its log must be once nothing is left to do, where it was cut for this.
    ghost owed: { SetPlan → Asked → Option Cut → Log → Type 0 };

    /// The stated length of its body; 0 where it has none.
    ghost stated: { Asked → ℕ };

    /// What comes next.
    ghost step: { Self → OpNext };

    /// What is left to do. It falls with each step.
    ghost left: { Self → ℕ };

    /// How many bytes of the body were taken.
    ghost taken: { Self → ℕ };

    /// Which claim it may have, and which log of its steps so far.
    ghost stands: { Self → Claim → Log → Type 0 };

    /// Why it was cut, if it was.
    ghost cut_at: { Self → Option Cut };

    /// What comes next. Where nothing does, each log that it may have is owed, and it holds nothing any more but where a section could not be
    /// done.
    fn next(&self) -> OpNext
        ensures step { result ≡ step self.now }
        ensures slot { IsInStore result }
        ensures done { (claim : Claim) (log : Log) → result ≡ OpNext.Done → stands self.now claim log → owed (set self.now) (asked self.now) (cut_at self.now) log }
        ensures ends { (claim : Claim) (log : Log) → result ≡ OpNext.Done → stands self.now claim log → LetsGo claim log };

    /// Does a section of the slot that `next` named. It gives the section's stub, if that has one.
    fn section<D: Drive, A: Audit>(
        &mut self,
        alloc: Global,
        slot: &mut Slot<D, A>,
        disks: &mut [D],
    ) -> Option<Stub>
        requires next { step self.old ≡ OpNext.Section (numbers_of slot.old).index }
        requires turns { (numbers_of slot.old).turns + 1 < 2 ^ 64 }
        requires slot_set { (numbers_of slot.old).set ≡ set self.old }
        requires disks { length disks.old ≡ (set self.old).drives }
        ensures set { set self.new ≡ set self.old }
        ensures asked { asked self.new ≡ asked self.old }
        ensures left { left self.new < left self.old }
        ensures taken { taken self.new ≡ taken self.old }
        ensures disks { length disks.new ≡ length disks.old }
        ensures numbers { NumbersMove (numbers_of slot.old) (numbers_of slot.new) }
        ensures turns { TurnsSo D.Drive (stands self.old) (stands self.new) result
            (slot_seen A.entries A.count slot.old) (slot_seen A.entries A.count slot.new) (views D.Drive disks.old) (views D.Drive disks.new) };

    /// Is told that the section that `next` named can't be done, and why.
    fn barred(&mut self, why: Barred)
        requires next { IsSection (step self.old) }
        ensures set { set self.new ≡ set self.old }
        ensures asked { asked self.new ≡ asked self.old }
        ensures left { left self.new < left self.old }
        ensures taken { taken self.new ≡ taken self.old }
        ensures barred { BarredSo (stands self.old) (stands self.new) (step self.old) why };

    /// Makes the one call of a data drive that is due, or for want of memory none.
    fn data<D: Drive>(&mut self, alloc: Global, disks: &mut [D])
        requires disks { length disks.old ≡ (set self.old).drives }
        ensures set { set self.new ≡ set self.old }
        ensures asked { asked self.new ≡ asked self.old }
        ensures left { step self.old ≡ OpNext.Data → left self.new < left self.old }
        ensures taken { taken self.new ≡ taken self.old }
        ensures disks { length disks.new ≡ length disks.old }
        ensures calls { step self.old ≡ OpNext.Data → CallsSo (stands self.old) (stands self.new) (set self.old) (views D.Drive disks.old) (views D.Drive disks.new) };

    /// Takes the next bytes of the body from its feed, which is the same one at each step, where some are due.
    fn feed<F: Feed>(&mut self, alloc: Global, feed: &mut F)
        requires stated { (F.seen feed.old).stated ≡ stated (asked self.old) }
        requires given { (F.seen feed.old).given ≡ taken self.old }
        ensures set { set self.new ≡ set self.old }
        ensures asked { asked self.new ≡ asked self.old }
        ensures left { step self.old ≡ OpNext.Feed → left self.new < left self.old }
        ensures taken { taken self.new ≡ (F.seen feed.new).given }
        ensures stated { (F.seen feed.new).stated ≡ (F.seen feed.old).stated }
        ensures feeds { step self.old ≡ OpNext.Feed → FeedsSo (stands self.old) (stands self.new) (record { view = F.seen feed.old; faults = F.faults feed.old })
            (record { view = F.seen feed.new; faults = F.faults feed.new }) };

    /// Tells the next thing of the reply.
    fn tell<T: Teller>(&mut self, alloc: Global, teller: &mut T)
        requires next { step self.old ≡ OpNext.Tell }
        ensures set { set self.new ≡ set self.old }
        ensures asked { asked self.new ≡ asked self.old }
        ensures left { left self.new < left self.old }
        ensures taken { taken self.new ≡ taken self.old }
        ensures tells { TellsSo T.takes T.breaks (stands self.old) (stands self.new) (teller_of teller.old (T.faults teller.old))
            (teller_of teller.new (T.faults teller.new)) };

    /// Why it was cut: by its feed or its teller, for a body of which too few drives had a shard, or for want of memory. An op that was cut goes on to its end,
    /// so that its put or its pin is given back.
    fn cut(&self) -> Option<Cut>
        ensures { result ≡ cut_at self.now };
}
