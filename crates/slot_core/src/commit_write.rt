//! A plan that is carried out: what is pending is completed, and then the own change is written.

ghost use Rattle.drive_base.specs.View.{AllGoOn, views};
ghost use Rattle.std.specs.Prelude.{◌≡◌, ◌+◌, ◌*◌, ◌<◌, ◌≤◌, ◌^◌, None, length, vec_capacity, vec_len};
ghost use Rattle.stamp_id.specs.declared.version.VersionId.{VersionId};
ghost use Rattle.slot_core.specs.Numbers.{Draws, DrawsOwn, HasLeft};
ghost use Rattle.slot_core.specs.CommitOutcome.{CallsCarry, CallsOwnWrites, answer_told};
ghost use Rattle.slot_core.specs.CommitWrite.{CarriesAfter, PlanFits, TellsAfter, WritesOwnOver};
ghost use Rattle.slot_core.specs.Commits.{TrashFits, TrashGrows};
ghost use Rattle.slot_core.specs.RegisterLook.{DraftFits, FirstFits};

use crate::register_look::forward;
use drive_base::Drive;
use register_caller::write_both;
use register_core::QuorumFault;
use slot_data::{flight_laws, hands_laws, own_data_laws};
use slot_history::{own_laws, resting_laws};
use slot_rules::{Drawn, Own, Plan, Ready, Site, Tale, add_gone};
use stamp_id::{ChangeId, VersionId};
use vote_core::fresh_laws;

/// What came of a deed.
#[derive(Drop)]
pub(crate) enum Outcome {
    /// It was done, or the state of its register refuses it; and the change that was completed first.
    Done(Tale, Option<ChangeId>),
    /// The register refused the writes of its own change; and the change that was completed first.
    Begun(Tale, ChangeId, Option<ChangeId>, QuorumFault),
    /// The register refused it before these, for another reason than want of memory.
    Kept(QuorumFault),
    /// There was not enough memory. Nothing was written.
    LacksMemory,
}

/// Completes what is pending, and writes the own change of a plan. `Done` puts the data that is gone then into the trash. It takes no memory.
pub(crate) fn carry_out<D: Drive>(
    lanes: &mut [D],
    site: &Site,
    name: &str,
    ready: Ready,
    plan: Plan,
    drawn: &mut Drawn,
    trash: &mut Vec<VersionId>,
) -> Outcome
    requires lanes { length lanes.old ≡ site.now.set.drives }
    requires fits { FirstFits site.now.set ready.first }
    requires plan { PlanFits site.now.set drawn.old.seq plan }
    requires left { HasLeft 3 (4 * site.now.set.drives) drawn.old }
    requires room { vec_len trash.old + length plan.gone.items ≤ vec_capacity trash.old }
    ensures leaves { CarriesAfter D.Drive site.now drawn.old drawn.new name.now ready plan result trash.old.items trash.new.items lanes.old lanes.new }
    ensures told { TellsAfter site.now drawn.old ready plan result }
    ensures calls { CallsCarry D.Drive site.now drawn.old drawn.new ready.first plan result lanes.old lanes.new }
    ensures gone { TrashGrows (answer_told result) trash.old.items trash.new.items }
    ensures trash { TrashFits (length plan.gone.items) trash.old trash.new }
    ensures lanes { AllGoOn (views D.Drive lanes.old) (views D.Drive lanes.new) }
    ensures draws { Draws 3 (4 * site.now.set.drives) drawn.old drawn.new }
{
    // The laws for the proof, that lanes and data go on to stand where a put ends. The calls do nothing.
    resting_laws();
    flight_laws();
    hands_laws();
    let mut ready = ready;
    let late = match forward(lanes, site, name, &mut ready, drawn) {
        Ok(late) => late,
        Err(fault) => {
            drop(ready);
            drop(plan);
            return Outcome::Kept(fault);
        }
    };
    drop(ready);
    let Plan { tale, own, gone } = plan;
    match own {
        None => Outcome::Done(tale, late),
        Some(own) => write_own(lanes, site, own, tale, late, &gone, drawn, trash),
    }
}

/// Writes an own change, of which a tale tells, over a register that was settled.
fn write_own<D: Drive>(
    lanes: &mut [D],
    site: &Site,
    own: Own,
    tale: Tale,
    late: Option<ChangeId>,
    gone: &[VersionId],
    drawn: &mut Drawn,
    trash: &mut Vec<VersionId>,
) -> Outcome
    requires lanes { length lanes.old ≡ site.now.set.drives }
    requires fits { DraftFits site.now.set own.draft }
    requires served { tale.refused ≡ None }
    requires count { drawn.old.count + 2 * site.now.set.drives < 2 ^ 64 }
    requires room { vec_len trash.old + length gone.now ≤ vec_capacity trash.old }
    ensures leaves { WritesOwnOver D.tells D.files site.now drawn.old drawn.new own tale late gone.now result trash.old.items trash.new.items lanes.old lanes.new }
    ensures calls { CallsOwnWrites D.Drive site.now drawn.old drawn.new own late tale result lanes.old lanes.new }
    ensures gone { TrashGrows (answer_told result) trash.old.items trash.new.items }
    ensures trash { TrashFits (length gone.now) trash.old trash.new }
    ensures lanes { AllGoOn (views D.Drive lanes.old) (views D.Drive lanes.new) }
    ensures draws { DrawsOwn own.seq (2 * site.now.set.drives) drawn.old drawn.new }
{
    // The laws for the proof, of what a change of one's own leaves. The calls do nothing.
    fresh_laws();
    own_laws();
    own_data_laws();
    let Own {
        change,
        seq,
        mut draft,
    } = own;
    drawn.seq = seq;
    match write_both(lanes, site.set.out, &mut draft, site.term, &mut drawn.count) {
        Ok(_) => {
            add_gone(trash, gone);
            Outcome::Done(tale, late)
        }
        Err(fault) => Outcome::Begun(tale, change, late, fault),
    }
}
