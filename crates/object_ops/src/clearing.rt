//! What follows a commit: trash of the slot is taken, and its files are removed, one call of a drive a step.

ghost use Rattle.std.specs.Prelude.{◌≡◌, ◌+◌, ◌*◌, ◌<◌, ◌≤◌, ◌^◌, All, false, true, length, ◌≢◌, ◌++◌, ℕ, IfOk, OnOk};
ghost use Rattle.drive_base.specs.View.{views, view, view_at};
ghost use Rattle.slot_core.specs.Numbers.{NumbersMove};
ghost use Rattle.slot_core.specs.Views.{numbers_of};
ghost use Rattle.op_steps.specs.Store.{slot_seen};
ghost use Rattle.object_ops.specs.Clearing.{HasNone, IsPlannedOf, RemovesOne, TakesTrash, files_left, next_of, AreDue, files_of, RemoveCall, drives_below, of_drives, removal_order, removals_of};
ghost use Rattle.drive_base.specs.Calls.{MadeCall};

use crate::data_files::{DataFile, Removal, name_of};
use audit_trail::Audit;
use drive_base::{Drive, SetPlan};
use fault_base::NoMemory;
use op_steps::OpNext;
use slot_core::{Ids, Slot, SlotFault, Turn};
use stamp_id::VersionId;
use std::alloc::Global;
use std::collections::VecDeque;

/// How many ids are taken from the trash at most.
const MOST_TAKEN: u32 = 16;

/// What is left to do after a commit.
#[derive(Drop)]
pub(crate) struct Clearing {
    /// Whether trash is taken next.
    pub(crate) takes: bool,
    /// The removals that are left.
    pub(crate) queue: VecDeque<Removal>,
}

impl Clearing {
    /// Nothing is left to do.
    pub(crate) fn none(alloc: Global) -> Clearing
        ensures { HasNone result }
    {
        Clearing {
            takes: false,
            queue: VecDeque::new(alloc),
        }
    }

    /// Has trash taken next.
    pub(crate) fn begin(&mut self)
        ensures takes { self.new.takes ≡ true }
        ensures queue { self.new.queue.items ≡ self.old.queue.items }
    {
        self.takes = true;
    }

    /// Takes no trash.
    pub(crate) fn pass_over(&mut self)
        ensures takes { self.new.takes ≡ false }
        ensures queue { self.new.queue.items ≡ self.old.queue.items }
    {
        self.takes = false;
    }

    /// What comes next, where the trash is that of this slot.
    pub(crate) fn next(&self, slot: u8) -> OpNext
        ensures { result ≡ next_of slot self.now }
    {
        if self.takes {
            OpNext::Section(slot)
        } else if self.queue.is_empty() {
            OpNext::Done
        } else {
            OpNext::Data
        }
    }

    /// Takes trash of the slot, which has this index, and plans the removals of its files.
    pub(crate) fn take<D: Drive, A: Audit>(
        &mut self,
        alloc: Global,
        set: &SetPlan,
        index: u8,
        slot: &mut Slot<D, A>,
    )
        requires turns { (numbers_of slot.old).turns + 1 < 2 ^ 64 }
        requires index { (numbers_of slot.old).index ≡ index }
        ensures takes { self.new.takes ≡ false }
        ensures due { AreDue set.now index (files_left self.new) }
        ensures few { length (files_left self.new) ≤ 32 * set.now.drives }
        ensures numbers { NumbersMove (numbers_of slot.old) (numbers_of slot.new) }
        ensures trash { TakesTrash D.Drive (slot_seen A.entries A.count slot.old) (slot_seen A.entries A.count slot.new) (files_left self.new) }
    {
        let answer = answer_of(slot.take_trash(alloc, MOST_TAKEN));
        self.takes = false;
        self.queue = planned(alloc, set, index, &answer);
    }

    /// Does the next removal, if one is left.
    pub(crate) fn remove<D: Drive>(&mut self, disks: &mut [D])
        requires some { 0 < length (files_left self.old) }
        requires within { All (λ file. file.drive < length disks.old) (files_left self.old) }
        ensures takes { self.new.takes ≡ self.old.takes }
        ensures disks { length disks.new ≡ length disks.old }
        ensures removes { RemovesOne (files_left self.old) (files_left self.new) (views D.Drive disks.old) (views D.Drive disks.new) }
    {
        let Some(removal) = self.queue.pop_front() else {
            return;
        };
        remove_at(disks, removal.drive, removal.name.as_str());
    }
}

/// The answer of a section, without its stub.
fn answer_of(turn: Turn<Ids>) -> Result<Ids, SlotFault>
    ensures { result ≡ turn.answer }
{
    let Turn { answer, stub } = turn;
    drop(stub);
    answer
}

/// The removals of what was taken. Where there is no memory for them there are none, and the files that are left are a scanner's to find.
fn planned(
    alloc: Global,
    set: &SetPlan,
    slot: u8,
    answer: &Result<Ids, SlotFault>,
) -> VecDeque<Removal>
    ensures { IsPlannedOf set.now slot answer.now (files_of result.items) }
{
    match answer {
        Ok(ids) => match plan_removals(alloc, set, slot, ids.as_slice()) {
            Ok(removals) => removals,
            Err(_) => VecDeque::new(alloc),
        },
        Err(_) => VecDeque::new(alloc),
    }
}

/// The removals of the files of these ids from the drives in use, in their order. Ids of another slot are passed over.
pub(crate) fn plan_removals(
    alloc: Global,
    set: &SetPlan,
    slot: u8,
    ids: &[VersionId],
) -> Result<VecDeque<Removal>, NoMemory>
    ensures { IfOk result (λ removals. files_of removals.items ≡ removal_order set.now slot ids.now) }
{
    let mut removals = VecDeque::new(alloc);
    for id in ids {
        if id.slot == slot {
            push_id(alloc, set, *id, &mut removals)?;
        }
    }
    Ok(removals)
}

/// Adds the removals of an id: its shards, and then its manifests.
fn push_id(
    alloc: Global,
    set: &SetPlan,
    id: VersionId,
    removals: &mut VecDeque<Removal>,
) -> Result<(), NoMemory>
    ensures { OnOk result (files_of removals.new.items ≡ files_of removals.old.items ++ removals_of set.now id) }
{
    push_files(alloc, set, id, DataFile::Shard, removals)?;
    push_files(alloc, set, id, DataFile::Manifest, removals)
}

/// Adds the removals of one kind of file of an id, from each drive in use.
fn push_files(
    alloc: Global,
    set: &SetPlan,
    id: VersionId,
    kind: DataFile,
    removals: &mut VecDeque<Removal>,
) -> Result<(), NoMemory>
    ensures { OnOk result (files_of removals.new.items ≡ files_of removals.old.items ++ of_drives id kind (drives_below set.now set.now.drives)) }
{
    for drive in 0..set.drives {
        if !set.is_out(drive) {
            let name = name_of(alloc, id, kind)?;
            removals.push_back(Removal {
                id,
                kind,
                drive,
                name,
            })?;
        }
    }
    Ok(())
}

/// Removes the file of a name from a drive, whatever the call answers.
fn remove_file<D: Drive>(drive: &mut D, name: &str)
    ensures { (made : MadeCall) × RemoveCall name.now made (view D.Drive drive.old) (view D.Drive drive.new) }
{
    let _ = drive.remove(name);
}

/// Removes the file of a name from the drive of this index, whatever the call answers.
pub(crate) fn remove_at<D: Drive>(disks: &mut [D], index: u8, name: &str)
    requires { index < length disks.old }
    ensures disks { length disks.new ≡ length disks.old }
    ensures call { (made : MadeCall) × RemoveCall name.now made (view_at (views D.Drive disks.old) index) (view_at (views D.Drive disks.new) index) }
    ensures others { (other : ℕ) → other ≢ index → view_at (views D.Drive disks.new) other ≡ view_at (views D.Drive disks.old) other }
{
    remove_file(&mut disks[index as usize], name);
}
