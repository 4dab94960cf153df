//! The look at its bucket, with which a call on an object begins.

ghost use Rattle.std.specs.Prelude.{◌≡◌, ◌+◌, ◌<◌, ◌≤◌, ◌^◌, ℕ, List, Ok, Err, length};
ghost use Rattle.drive_base.specs.View.{views};
ghost use Rattle.slot_history.specs.Names.{bucket_name};
ghost use Rattle.slot_core.specs.Numbers.{NumbersMove};
ghost use Rattle.slot_core.specs.Views.{numbers_of};
ghost use Rattle.op_steps.specs.Store.{slot_seen};
ghost use Rattle.op_steps.specs.BucketLooks.{LooksSo, ShowsLook};
ghost use Rattle.drive_base.specs.declared.drive.TheConstants.{LONGEST_NAME};

use crate::refusing::section_refusal;
use audit_trail::Audit;
use bucket_book::read;
use call_types::{Mode, Refusal};
use drive_base::Drive;
use seal_file::Bytes;
use slot_core::{Slot, SlotFault, Stub};
use std::alloc::Global;

/// What the look at a call's bucket shows.
#[derive(Drop)]
pub enum Looked {
    /// A bucket of this mode.
    There(Mode),
    /// No bucket, or why the look was refused.
    Refused(Refusal),
    /// There was not enough memory.
    LacksMemory,
}

/// A look that was made, and its stub.
#[derive(Drop)]
pub struct Look {
    /// What it showed.
    pub looked: Looked,
    /// Its stub.
    pub stub: Option<Stub>,
}

/// Looks at the register of this name, which is a bucket's.
pub fn look_at_bucket<D: Drive, A: Audit>(
    alloc: Global,
    slot: &mut Slot<D, A>,
    disks: &mut [D],
    name: &str,
) -> Look
    requires turns { (numbers_of slot.old).turns + 1 < 2 ^ 64 }
    requires disks { length disks.old ≡ (numbers_of slot.old).set.drives }
    requires named { (bucket : List ℕ) × (name.now ≡ bucket_name bucket) }
    requires short { length name.now ≤ LONGEST_NAME }
    ensures disks { length disks.new ≡ length disks.old }
    ensures numbers { NumbersMove (numbers_of slot.old) (numbers_of slot.new) }
    ensures looks { LooksSo D.Drive name.now (slot_seen A.entries A.count slot.old) (slot_seen A.entries A.count slot.new) result
        (views D.Drive disks.old) (views D.Drive disks.new) }
{
    let turn = slot.peek(alloc, disks, name);
    let looked = looked_of(alloc, &turn.answer);
    Look {
        looked,
        stub: turn.stub,
    }
}

/// What a look shows, by its answer.
fn looked_of(alloc: Global, answer: &Result<Bytes, SlotFault>) -> Looked
    ensures { ShowsLook answer.now result }
{
    match answer {
        Ok(content) => content_looked(alloc, content),
        Err(fault) => fault_looked(fault),
    }
}

/// What a content shows: a bucket, or that there is none.
fn content_looked(alloc: Global, content: &Bytes) -> Looked
    ensures { ShowsLook (Ok content.now) result }
{
    match read(alloc, content.as_slice()) {
        Ok(None) => Looked::Refused(Refusal::NoSuchBucket),
        Ok(Some(there)) => Looked::There(there.mode),
        Err(_) => Looked::LacksMemory,
    }
}

/// What a refusal shows.
fn fault_looked(fault: &SlotFault) -> Looked
    ensures { ShowsLook (Err fault.now) result }
{
    match section_refusal(fault) {
        Some(why) => Looked::Refused(why),
        None => Looked::LacksMemory,
    }
}
