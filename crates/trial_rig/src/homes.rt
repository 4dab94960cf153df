//! Lives of slots: how they are opened and closed.

ghost use Rattle.std.specs.Prelude.{◌≡◌, ◌+◌, ◌<◌, ◌≤◌, ◌^◌, IfOk, IsTrue, length};
ghost use Rattle.slot_core.specs.Views.{numbers_of};

use crate::home::Home;
use crate::{FrailAudit, Line, say_audit_fault};
use drive_base::SetPlan;
use drive_memory::MemDrive;
use slot_core::{Slot, SlotParts, Unopened};
use std::alloc::{AllocError, Global};
use trial_base::NoAnswer;

/// The lanes and the audit of a slot that is closed.
pub(crate) type Parts = SlotParts<MemDrive, FrailAudit>;

/// A slot over memory drives.
pub(crate) type RigSlot = Slot<MemDrive, FrailAudit>;

/// So many fresh drives.
pub(crate) fn fresh_drives(alloc: Global, count: u8) -> Result<Vec<MemDrive>, AllocError> {
    let mut drives = Vec::new(alloc);
    for _ in 0..count {
        drives.push(MemDrive::new(alloc))?;
    }
    Ok(drives)
}

/// Whether a section can be done on a slot over these data drives.
pub fn is_ready(home: &Home, disks: &[MemDrive]) -> bool
    ensures turns { IsTrue result → (numbers_of home.now.slot).turns + 1 < 2 ^ 64 }
    ensures disks { IsTrue result → length disks.now ≡ (numbers_of home.now.slot).set.drives }
{
    home.slot.turns() < 1_000_000 && disks.len() == usize::from(home.set.drives)
}

/// A slot with its index and its set.
fn home_of(set: SetPlan, index: u8, slot: RigSlot) -> Home
    requires set { (numbers_of slot).set ≡ set }
    requires index { (numbers_of slot).index ≡ index }
{
    Home { set, index, slot }
}

/// Opens a slot over these lanes.
fn open_parts(
    alloc: Global,
    set: SetPlan,
    index: u8,
    term: u64,
    parts: Parts,
) -> Result<RigSlot, Unopened<MemDrive, FrailAudit>>
    requires lanes { length parts.lanes.items ≡ set.drives }
    requires index { index < 64 }
    requires term { 1 ≤ term }
    requires term_fits { term < 2 ^ 48 }
    ensures { IfOk result (λ slot. ((numbers_of slot).set ≡ set) × ((numbers_of slot).index ≡ index)) }
{
    Slot::open(alloc, parts, set, index, term)
}

/// Whether a slot can be opened over these parts in this term.
fn can_open(set: &SetPlan, index: u8, term: u64, parts: &Parts) -> bool
    ensures lanes { IsTrue result → length parts.now.lanes.items ≡ set.now.drives }
    ensures index { IsTrue result → index < 64 }
    ensures term { IsTrue result → 1 ≤ term }
    ensures term_fits { IsTrue result → term < 2 ^ 48 }
{
    index < 64
        && term >= 1
        && term < 281_474_976_710_656
        && parts.lanes.len() == usize::from(set.drives)
}

/// Opens a slot over these lanes in this term.
pub fn open_home(
    alloc: Global,
    set: SetPlan,
    index: u8,
    term: u64,
    parts: Parts,
) -> Result<Home, NoAnswer> {
    if !can_open(&set, index, term, &parts) {
        return Err(NoAnswer);
    }
    let Ok(slot) = open_parts(alloc, set, index, term, parts) else {
        return Err(NoAnswer);
    };
    Ok(home_of(set, index, slot))
}

/// Fails to open a slot, says why, and gives back what was handed in.
pub(crate) fn fail_to_open(
    alloc: Global,
    line: &mut Line,
    set: SetPlan,
    index: u8,
    term: u64,
    parts: Parts,
) -> Result<Parts, NoAnswer> {
    if !can_open(&set, index, term, &parts) {
        return Err(NoAnswer);
    }
    let Err(unopened) = open_parts(alloc, set, index, term, parts) else {
        return Err(NoAnswer);
    };
    let Unopened { parts, fault } = unopened;
    say_audit_fault(line, fault);
    line.say(", then ");
    Ok(parts)
}
