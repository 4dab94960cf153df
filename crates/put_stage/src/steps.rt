//! What comes next for a stage, one drive call of it, and the laws of a stage at work.

ghost use Rattle.std.specs.Prelude.{◌≡◌, ◌<◌, ℕ, false, [], IsTrue, length, slice_index_or, Option};
ghost use Rattle.drive_base.specs.View.{AllGoOn, GoesOn, view, views};
ghost use Rattle.put_stage.specs.Calls.{CallsDue};
ghost use Rattle.put_stage.specs.Cells.{Spares, data_of};
ghost use Rattle.put_stage.specs.StripeBlocks.{all_bytes};
ghost use Rattle.put_stage.specs.Dues.{is_block, is_nothing};
ghost use Rattle.put_stage.specs.Left.{calls_left};
ghost use Rattle.put_stage.specs.Steps.{CallWorks, FindsBlock, FindsDue, FindsLater, IsDue, IsNext, LetterOf, StepWorks, StepsOnce};
ghost use Rattle.put_stage.specs.Work.{Disagrees};
ghost use Rattle.put_stage.specs.CallsSoFar.{StepCallsElsewhere, StepCallsSo};
ghost use Rattle.put_stage.specs.Laws.{OpenStagesPlaceNothing, SuccessIsAnswered, WholeBodiesHaveManifests, WorkOutlivesOthers, AllCallsAreStaging};

use crate::answers::compare;
use crate::dues::Due;
use crate::stage::{Load, Stage, StageNext};
use call_types::{FileKind, Why};
use drive_base::Drive;
use file_access::{append_on, place, sync_on};

impl Stage {
    /// What comes next: `fill`, `step` or `finish`. It takes no memory.
    pub fn next(&self) -> StageNext
        ensures { IsNext self.now result }
    {
        if self.due_drive().is_some() {
            return StageNext::Step;
        }
        if self.load.left > 0 {
            return StageNext::Fill;
        }
        StageNext::Finish
    }

    /// Does one call of one drive that is not out, the next one in order, and takes no memory. Where none is due it does
    /// nothing. A drive on which a call fails gets its letter from that call alone, and no more calls. The number of fills
    /// and steps that are left at most falls at each call.
    pub fn step<D: Drive>(&mut self, drives: &mut [D])
        requires { length drives.old ≡ self.old.load.set.drives }
        ensures once { StepsOnce D.Drive self.old self.new drives.old drives.new }
        ensures works { StepWorks D.Drive self.old self.new drives.old drives.new }
        ensures load { self.new.load ≡ self.old.load }
        ensures drives { AllGoOn (views D.Drive drives.old) (views D.Drive drives.new) }
        ensures fewer { (k : ℕ) → IsDue self.old k → calls_left self.new < calls_left self.old }
    {
        let Some(index) = self.due_drive() else {
            return;
        };
        let due = self.dues[index as usize];
        let drive = &mut drives[index as usize];
        match call_on(&self.load, index, due, drive) {
            Ok(()) => {
                let dues = &mut self.dues;
                dues[index as usize] = due.after(self.load.alone);
            }
            Err(why) => self.whys.set(index as usize, why),
        }
    }

    /// The drive on which the next call is due.
    fn due_drive(&self) -> Option<u8>
        ensures { FindsDue self.now result }
    {
        if self.disagrees() {
            return None;
        }
        if let Some(index) = self.due_block() {
            return Some(index);
        }
        if self.load.left > 0 {
            return None;
        }
        self.due_later()
    }

    /// Whether the body is whole, and its MD5 another than stated.
    pub(crate) fn disagrees(&self) -> bool
        ensures yes { IsTrue result → Disagrees self.now.load }
        ensures no { result ≡ false → Disagrees self.now.load → ⊥ }
    {
        if self.load.left > 0 {
            return false;
        }
        compare(self.load.stated, self.load.made.etag).is_err()
    }

    /// The first drive that serves and waits for its block.
    fn due_block(&self) -> Option<u8>
        ensures { FindsBlock self.now result }
    {
        for index in 0..self.load.set.drives {
            if self.whys.get(index as usize).is_good() && self.dues[index as usize].is_block() {
                return Some(index);
            }
        }
        None
    }

    /// The first drive that serves and has a call left.
    fn due_later(&self) -> Option<u8>
        ensures { FindsLater self.now result }
    {
        for index in 0..self.load.set.drives {
            if self.whys.get(index as usize).is_good() && !self.dues[index as usize].is_nothing() {
                return Some(index);
            }
        }
        None
    }
}

impl Load {
    /// The digest table of a drive's shard so far.
    fn table(&self, index: usize) -> &[u8]
        requires { index < length self.now.tables.items }
        ensures { result.now ≡ slice_index_or (all_bytes self.now.tables.items) index [] }
    {
        self.tables[index].as_slice()
    }
}

/// Does one call of a drive.
#[tactic(auto, using(crate::proofs::NameLemmas::short_names))]
fn call_on<D: Drive>(load: &Load, index: u8, due: Due, drive: &mut D) -> Result<(), Why>
    requires { index < load.now.set.drives }
    ensures works { CallWorks D.Drive load.now index due result drive.old drive.new }
    ensures spares { IsTrue (D.tells drive.old) → Spares load.now.names.id (D.files drive.old) (D.files drive.new) }
    ensures letter { LetterOf result due (D.tells drive.old) (data_of load.now.names.id (D.files drive.old)) (D.count drive.old) (D.count drive.new) }
    ensures called { is_nothing due ≡ false → CallsDue load.now index due result (view D.Drive drive.old) (view D.Drive drive.new) }
    ensures goes_on { GoesOn (view D.Drive drive.old) (view D.Drive drive.new) }
{
    let shard = load.names.loose_shard.as_str();
    let manifest = load.names.loose_manifest.as_str();
    match due {
        Due::Block => append_on(
            drive,
            FileKind::Shard,
            shard,
            load.window.block(index as usize),
        ),
        Due::Table => append_on(drive, FileKind::Shard, shard, load.table(index as usize)),
        Due::SyncShard => sync_on(drive, FileKind::Shard, shard),
        Due::Manifest => append_on(
            drive,
            FileKind::Manifest,
            manifest,
            load.made.manifest.as_slice(),
        ),
        Due::SyncManifest => sync_on(drive, FileKind::Manifest, manifest),
        Due::PlaceManifest => place(
            drive,
            FileKind::Manifest,
            manifest,
            load.names.manifest.as_str(),
        ),
        Due::PlaceShard => place(drive, FileKind::Shard, shard, load.names.shard.as_str()),
        Due::Nothing => Ok(()),
    }
}

/// A stage is at work still after others that leave its four names, and puts nothing in place while bytes of its body are
/// left, or where the body has another MD5 than stated: so also where a `fill` is refused. The
/// manifest that it makes of a body is canonical. The calls of a drive that did all so far are those that write a body's
/// shard and manifest there, and at the end they have put both in place. The answer of a stage that is over is that all is
/// staged exactly where it succeeds. It does nothing.
pub fn stage_laws()
    ensures others { WorkOutlivesOthers }
    ensures open { OpenStagesPlaceNothing }
    ensures manifest { WholeBodiesHaveManifests }
    ensures calls { StepCallsSo }
    ensures calls_elsewhere { StepCallsElsewhere }
    ensures placed { AllCallsAreStaging }
    ensures success { SuccessIsAnswered }
{}
