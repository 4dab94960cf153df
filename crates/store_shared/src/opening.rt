//! The opening of a store.

ghost use Rattle.std.specs.Prelude.{◌+◌, ◌<◌, ◌^◌, ◌≡◌, ◌≤◌, IfOk, OnOk, length, reverse, slice_index_or, vec_capacity, vec_len, ℕ};
ghost use Rattle.drive_base.specs.View.{views};
ghost use Rattle.slot_core.specs.declared.slot.SlotParts.{SlotParts};
ghost use Rattle.store_shared.specs.Opening.{OpensLast, OpensOn, OpensRest, refusal_by, with_out};
ghost use Rattle.store_shared.specs.OpeningAll.{OpensStore};
ghost use Rattle.term_gate.specs.Opening.{Opens};
ghost use Rattle.term_gate.specs.Terms.{IsFresh};

use crate::closing::turn_round;
use crate::pass::{NotOpened, PassParts, PlainPass, StoreParts};
use audit_trail::{Audit, AuditFault};
use drive_base::{Drive, DriveSet, SetPlan};
use slot_core::{Slot, SlotParts};
use std::alloc::Global;
use term_gate::{OpenRefusal, Opened, open_set};

/// How many slots a store has.
const SLOTS: usize = 64;

/// Why an opening was refused by the audit of a slot.
fn refusal_of(fault: AuditFault, before: u64, after: u64) -> OpenRefusal
    ensures { result ≡ refusal_by fault before after }
{
    match fault {
        AuditFault::Failed => OpenRefusal::AuditFailed { before, after },
        AuditFault::NoMemory => OpenRefusal::NoMemory,
    }
}

/// Opens the last slot of those that are left, and puts it behind the ones that were opened.
fn open_last<D: Drive, A: Audit>(
    alloc: Global,
    set: &SetPlan,
    term: u64,
    left: &mut Vec<SlotParts<D, A>>,
    slots: &mut Vec<Slot<D, A>>,
) -> Result<(), OpenRefusal>
    requires some { 1 ≤ vec_len left.old }
    requires few { vec_len left.old ≤ 64 }
    requires lanes { (k : ℕ) (d : SlotParts D A) → k < length left.old.items → length (slice_index_or left.old.items k d).lanes.items ≡ set.now.drives }
    requires term { 1 ≤ term }
    requires term_fits { term < 2 ^ 48 }
    requires room { vec_len slots.old + 1 ≤ vec_capacity slots.old }
    ensures opens { OpensLast A.entries A.count set.now term result left.old.items left.new.items slots.old.items slots.new.items }
    ensures len { OnOk result (vec_len left.new + 1 ≡ vec_len left.old) }
    ensures slots_len { OnOk result (vec_len slots.new ≡ vec_len slots.old + 1) }
    ensures capacity { vec_capacity slots.new ≡ vec_capacity slots.old }
{
    let Some(parts) = left.pop() else {
        unreachable!()
    };
    let before = parts.audit.faults();
    match Slot::open(alloc, parts, *set, left.len() as u8, term) {
        Ok(slot) => {
            slots.push_reserved(slot);
            Ok(())
        }
        Err(back) => {
            let why = refusal_of(back.fault, before, back.parts.audit.faults());
            left.push_reserved(back.parts);
            Err(why)
        }
    }
}

/// Opens the slots over these lanes and audits, under a term that no earlier life used, from the last one to the first. Where one is refused those that are
/// not opened are left.
fn open_rest<D: Drive, A: Audit>(
    alloc: Global,
    set: &SetPlan,
    term: u64,
    left: &mut Vec<SlotParts<D, A>>,
    slots: &mut Vec<Slot<D, A>>,
) -> Result<(), OpenRefusal>
    requires few { vec_len left.old ≤ 64 }
    requires lanes { (k : ℕ) (d : SlotParts D A) → k < length left.old.items → length (slice_index_or left.old.items k d).lanes.items ≡ set.now.drives }
    requires term { 1 ≤ term }
    requires term_fits { term < 2 ^ 48 }
    requires room { vec_len slots.old + vec_len left.old ≤ vec_capacity slots.old }
    requires none { vec_len slots.old ≡ 0 }
    ensures { OpensRest A.entries A.count set.now term result left.old.items left.new.items slots.new.items }
{
    while !left.is_empty() {
        open_last(alloc, set, term, left, slots)?;
    }
    Ok(())
}

/// The set with these drives out.
fn with_out(set: &SetPlan, out: DriveSet) -> SetPlan
    ensures { result ≡ with_out set.now out }
{
    SetPlan {
        id: set.id,
        drives: set.drives,
        parity: set.parity,
        out,
    }
}

/// Opens a set under a new term.
fn open_term<D: Drive>(
    alloc: Global,
    set: &SetPlan,
    disks: &mut Vec<D>,
) -> Result<Opened, OpenRefusal>
    requires { length disks.old.items ≡ set.now.drives }
    ensures outcome { Opens set.now result (views D.Drive disks.old.items) (views D.Drive disks.new.items) }
    ensures fresh { IfOk result (λ opened. IsFresh set.now opened (views D.Drive disks.old.items) (views D.Drive disks.new.items)) }
    ensures long { length disks.new.items ≡ length disks.old.items }
{
    open_set(alloc, disks.as_mut_slice(), *set)
}

/// Opens a set under a new term, and then its slots.
fn open_on<D: Drive, A: Audit>(
    alloc: Global,
    set: &SetPlan,
    disks: &mut Vec<D>,
    left: &mut Vec<SlotParts<D, A>>,
    slots: &mut Vec<Slot<D, A>>,
) -> Result<SetPlan, OpenRefusal>
    requires drives { length disks.old.items ≡ set.now.drives }
    requires count { vec_len left.old ≡ 64 }
    requires lanes { (k : ℕ) (d : SlotParts D A) → k < length left.old.items → length (slice_index_or left.old.items k d).lanes.items ≡ set.now.drives }
    requires none { vec_len slots.old ≡ 0 }
    ensures opens { OpensOn A.entries A.count set.now result (views D.Drive disks.old.items) (views D.Drive disks.new.items) left.old.items left.new.items
        slots.old.items slots.new.items }
    ensures long { length disks.new.items ≡ length disks.old.items }
{
    if slots.reserve(SLOTS).is_err() {
        return Err(OpenRefusal::NoMemory);
    }
    match open_term(alloc, set, disks) {
        Ok(opened) => {
            let set = with_out(set, opened.out);
            match open_rest(alloc, &set, opened.term, left, slots) {
                Ok(()) => Ok(set),
                Err(why) => Err(why),
            }
        }
        Err(why) => Err(why),
    }
}

/// Opens a store over its data drives and the lanes and audits of its 64 slots: the set under a new term, and then each slot under it, with the drives out
/// that have no format. Where it is refused all is handed back.
pub fn open_all<D: Drive, A: Audit>(
    alloc: Global,
    set: SetPlan,
    parts: StoreParts<D, A>,
) -> Result<PlainPass<D, A>, NotOpened<D, A>>
    requires drives { length parts.disks.items ≡ set.drives }
    requires count { length parts.slots.items ≡ 64 }
    requires lanes { (k : ℕ) (d : SlotParts D A) → k < length parts.slots.items → length (slice_index_or parts.slots.items k d).lanes.items ≡ set.drives }
    ensures { OpensStore D.Drive A.entries A.count set parts result }
{
    let StoreParts {
        mut disks,
        slots: mut left,
    } = parts;
    let mut slots = Vec::new(alloc);
    match open_on(alloc, &set, &mut disks, &mut left, &mut slots) {
        Ok(set) => {
            left.destroy_empty();
            turn_round(&mut slots);
            Ok(PlainPass::new(PassParts { set, slots, disks }))
        }
        Err(why) => Err(NotOpened {
            parts: StoreParts { disks, slots: left },
            slots,
            why,
        }),
    }
}
