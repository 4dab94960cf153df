//! The end of a shared desk and of a store, which gives back what it was opened over.

ghost use Rattle.std.specs.Prelude.{◌++◌, reverse, ◌+◌, ◌-◌, ◌<◌, ◌≡◌, ◌≤◌, IfErr, IfOk, IsTrue, None, [], length, option_map, slice_index_or, vec_capacity, vec_len, ℕ};
ghost use Rattle.slot_core.specs.declared.slot.Slot.{Slot};
ghost use Rattle.store_shared.specs.Closing.{IsPassApart, ShutBehind, StoreIsShut};
ghost use Rattle.store_shared.specs.Parting.{AreClosed, IsApart, LacksParts, LacksSome, parts_in};
ghost use Rattle.store_shared.specs.SharedPasses.{AreOfLocks, FitsDesk, pass_holds, passes_hold, shared_holds};
ghost use Rattle.store_shared.specs.declared.shared.TurnedSlot.{TurnedSlot};
ghost use Rattle.turn_lock.specs.declared.lock.TurnLock.{TurnLock};

use crate::pass::{NotOpened, PassParts, PlainPass, StoreParts};
use crate::shared::{Room, SharedDesk, SharedPass, TurnedSlot};
use audit_trail::Audit;
use drive_base::Drive;
use slot_core::{Slot, SlotParts};
use term_gate::OpenRefusal;
use turn_lock::{ALL_PARTS, Pass, TurnLock};

/// Whether a pass isn't there, or some part of its right to close its lock is missing.
fn lacks_some<D: Drive + Drop, A: Audit + Drop>(pass: &Option<Pass<TurnedSlot<D, A>>>) -> bool
    ensures lacks { IsTrue result → parts_in (option_map pass_holds pass.now) < ALL_PARTS }
    ensures has { (IsTrue result → ⊥) → ALL_PARTS ≤ parts_in (option_map pass_holds pass.now) }
{
    match pass {
        None => true,
        Some(pass) => pass.parts() < ALL_PARTS,
    }
}

/// Whether some part of the right to close some lock is missing.
fn lacks_any<D: Drive + Drop, A: Audit + Drop>(passes: &[Option<Pass<TurnedSlot<D, A>>>]) -> bool
    ensures lacks { IsTrue result → LacksSome (passes_hold passes.now) }
    ensures has { (IsTrue result → ⊥) → (k : ℕ) → k < length passes.now → ALL_PARTS ≤ parts_in (slice_index_or (passes_hold passes.now) k None) }
{
    for pass in passes {
        if lacks_some(pass) {
            return true;
        }
    }
    false
}

/// Closes all locks, of which these passes have all parts, and puts their slots in order into the room that is there.
fn close_all<D: Drive + Drop, A: Audit + Drop>(
    mut locks: Vec<TurnLock<TurnedSlot<D, A>>>,
    mut passes: Vec<Option<Pass<TurnedSlot<D, A>>>>,
    slots: &mut Vec<Slot<D, A>>,
)
    requires count { length locks.items ≡ 64 }
    requires count_too { length passes.items ≡ 64 }
    requires lock { AreOfLocks locks.items (passes_hold passes.items) }
    requires parts { (k : ℕ) → k < 64 → ALL_PARTS ≤ parts_in (slice_index_or (passes_hold passes.items) k None) }
    requires none { slots.old.items ≡ [] }
    requires room { 64 ≤ vec_capacity slots.old }
    ensures closed { AreClosed locks.items passes.items slots.new.items }
{
    while let Some(lock) = locks.pop() {
        let Some(place) = passes.pop() else {
            unreachable!()
        };
        let Some(pass) = place else { unreachable!() };
        let Ok(turned) = lock.close(pass) else {
            unreachable!()
        };
        slots.push_reserved(turned.slot);
    }
    slots.as_mut_slice().reverse();
}

impl<R: Drop, D: Drive + Drop, A: Audit + Drop, G: Drop> SharedDesk<R, D, A, G> {
    /// Ends the desk, and gives its slots and the ways of the pass to the data drives. `Err` exactly where the pass has fewer than all 65,536 parts of some
    /// lock, since another pass isn't joined. It takes no memory.
    pub fn close(
        self,
        pass: SharedPass<D, A>,
    ) -> Result<PassParts<D, A>, (SharedDesk<R, D, A, G>, SharedPass<D, A>)>
        requires fits { FitsDesk self (shared_holds pass) }
        ensures ok { IfOk result (λ parts. IsApart self pass parts) }
        ensures err { IfErr result (λ back. LacksParts (shared_holds pass) × (back.0 ≡ self) × (back.1 ≡ pass)) }
    {
        if lacks_any(pass.passes.as_slice()) {
            return Err((self, pass));
        }
        let SharedDesk {
            rt: _,
            set,
            locks,
            gate: _,
            room,
        } = self;
        let SharedPass {
            set: _,
            passes,
            disks,
        } = pass;
        let Room { items: mut slots } = room.into_inner();
        close_all(locks, passes, &mut slots);
        Ok(PassParts { set, slots, disks })
    }
}

/// Puts what stands in one order in the other one.
pub(crate) fn turn_round<T>(items: &mut Vec<T>)
    ensures items { items.new.items ≡ reverse items.old.items }
    ensures len { vec_len items.new ≡ vec_len items.old }
{
    items.as_mut_slice().reverse();
}

/// Closes slots, the last one first, and puts what they give back behind what is there.
fn close_each<D: Drive, A: Audit>(mut slots: Vec<Slot<D, A>>, home: &mut Vec<SlotParts<D, A>>)
    requires room { vec_len home.old + vec_len slots ≤ vec_capacity home.old }
    ensures { ShutBehind (reverse slots.items) home.old.items home.new.items }
{
    while let Some(slot) = slots.pop() {
        home.push_reserved(slot.close());
    }
    slots.destroy_empty();
}

/// Takes the parts of slots, the last one first, and puts them behind what is there.
fn move_each<D: Drive, A: Audit>(mut left: Vec<SlotParts<D, A>>, home: &mut Vec<SlotParts<D, A>>)
    requires room { vec_len home.old + vec_len left ≤ vec_capacity home.old }
    ensures items { home.new.items ≡ home.old.items ++ reverse left.items }
    ensures len { vec_len home.new ≡ vec_len home.old + vec_len left }
    ensures capacity { vec_capacity home.new ≡ vec_capacity home.old }
{
    while let Some(parts) = left.pop() {
        home.push_reserved(parts);
    }
    left.destroy_empty();
}

impl<D: Drive, A: Audit> PlainPass<D, A> {
    /// Closes the store, whatever is in hand. It gives back the data drives and, in the room that is given, the lanes and audits of the slots. It takes no memory.
    pub fn shut(self, mut home: Vec<SlotParts<D, A>>) -> StoreParts<D, A>
        requires none { home.items ≡ [] }
        requires room { 64 ≤ vec_capacity home }
        ensures shut { StoreIsShut self result }
        ensures apart { IsPassApart D.Drive A.entries A.count self result }
    {
        let PassParts {
            set: _,
            mut slots,
            disks,
        } = self.into_parts();
        turn_round(&mut slots);
        close_each(slots, &mut home);
        StoreParts { disks, slots: home }
    }
}

impl<D: Drive, A: Audit> NotOpened<D, A> {
    /// Gives back what the store was to be opened over, and why it was not: the slots that were opened are closed, and all stands in order in the room that is
    /// given. It takes no memory.
    pub fn into_parts(self, mut home: Vec<SlotParts<D, A>>) -> (StoreParts<D, A>, OpenRefusal)
        requires none { home.items ≡ [] }
        requires room { 64 ≤ vec_capacity home }
        requires few { vec_len self.parts.slots + vec_len self.slots ≤ 64 }
        ensures slots { ShutBehind (reverse self.slots.items) self.parts.slots.items result.0.slots.items }
        ensures disks { result.0.disks ≡ self.parts.disks }
        ensures why { result.1 ≡ self.why }
    {
        let NotOpened { parts, slots, why } = self;
        let StoreParts {
            disks,
            slots: mut left,
        } = parts;
        turn_round(&mut left);
        move_each(left, &mut home);
        close_each(slots, &mut home);
        (StoreParts { disks, slots: home }, why)
    }
}
