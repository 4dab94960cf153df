//! How a commit is planned over what the look at its register gave.

ghost use Rattle.std.specs.Prelude.{◌≡◌, ◌+◌, ◌<◌, ◌≤◌, ◌^◌, OnOk, length, vec_capacity, vec_len};
ghost use Rattle.drive_base.specs.View.{AllGoOn, AllOnlyRead, views};
ghost use Rattle.slot_rules.specs.Deeds.{name_of};
ghost use Rattle.slot_core.specs.CommitOutcome.{IsTold, answer_told, deed_told};
ghost use Rattle.slot_core.specs.CommitPlan.{AskCause, CommitLeaves, FinishCalls, FinishLeaves, IsKeptBy, IsWork};
ghost use Rattle.slot_core.specs.Commits.{TrashGrows};
ghost use Rattle.slot_core.specs.Deeds.{MayCommit};
ghost use Rattle.slot_core.specs.Numbers.{AreUnspent, Draws};

use crate::commit_write::{Outcome, carry_out};
use crate::register_look::look_at;
use drive_base::Drive;
use fault_base::NoMemory;
use register_core::QuorumFault;
use slot_data::{flight_laws, hands_laws};
use slot_history::resting_laws;
use slot_rules::{
    Ask, Commit, Drawn, Planned, Ready, id_over, last_over, own_ids, plan_deed, plan_of,
    rule_of_deed,
};
use stamp_id::VersionId;
use std::alloc::Global;

/// A refusal of the look.
fn kept(fault: QuorumFault) -> Outcome
    ensures { IsKeptBy fault result }
{
    match fault {
        QuorumFault::ReadQuorum(whys) => Outcome::Kept(QuorumFault::ReadQuorum(whys)),
        QuorumFault::WriteQuorum(whys) => Outcome::Kept(QuorumFault::WriteQuorum(whys)),
        QuorumFault::Undecided { k, u, whys } => {
            Outcome::Kept(QuorumFault::Undecided { k, u, whys })
        }
        QuorumFault::NoMemory => Outcome::LacksMemory,
    }
}

/// What a commit has to do: what its look gave, the id of its own change, and what its deed does to the content.
#[derive(Drop)]
struct Work {
    /// What its look gave.
    ready: Ready,
    /// The id of its own change.
    id: VersionId,
    /// What its deed does.
    planned: Planned,
}

/// The plan of a deed that is carried out, once its memory is there.
fn finish<D: Drive>(
    alloc: Global,
    lanes: &mut [D],
    ask: &Ask,
    name: &str,
    deed: &Commit,
    work: Work,
    drawn: &mut Drawn,
    trash: &mut Vec<VersionId>,
) -> Outcome
    requires lanes { length lanes.old ≡ ask.now.site.set.drives }
    requires named { name_of deed.now ≡ name.now }
    requires work { IsWork ask.now deed.now drawn.old.seq work }
    requires unspent { AreUnspent drawn.old }
    requires room { vec_len trash.old + ask.now.spare ≤ vec_capacity trash.old }
    ensures leaves { FinishLeaves D.Drive ask.now.site drawn.old drawn.new work.ready deed.now ask.now.put result
        trash.old.items trash.new.items lanes.old lanes.new }
    ensures told { IsTold deed.now ask.now.moment result }
    ensures calls { FinishCalls D.Drive ask.now.site drawn.old drawn.new work.ready deed.now ask.now.put ask.now.moment result
        lanes.old lanes.new }
    ensures gone { TrashGrows (answer_told result) trash.old.items trash.new.items }
    ensures room_stays { vec_len trash.new + ask.now.spare ≤ vec_capacity trash.new }
    ensures draws { Draws 3 64 drawn.old drawn.new }
    ensures lanes { AllGoOn (views D.Drive lanes.old) (views D.Drive lanes.new) }
{
    // The laws for the proof, that lanes and data go on to stand where a put ends. The calls do nothing.
    resting_laws();
    flight_laws();
    hands_laws();
    let Work { ready, id, planned } = work;
    let last = last_over(drawn, &ready);
    let plan = match plan_of(alloc, ask, last, &ready, deed, id, planned) {
        Ok(plan) => plan,
        Err(_) => {
            drop(ready);
            return Outcome::LacksMemory;
        }
    };
    match make_room(trash, plan.gone.len(), ask.spare) {
        Ok(()) => {}
        Err(_) => {
            drop(ready);
            drop(plan);
            return Outcome::LacksMemory;
        }
    }
    carry_out(lanes, &ask.site, name, ready, plan, drawn, trash)
}

/// Makes room in the trash for so many ids, beside so many others.
fn make_room(trash: &mut Vec<VersionId>, gone: usize, spare: usize) -> Result<(), NoMemory>
    requires gone { gone < 2 ^ 63 }
    requires spare { spare < 2 ^ 63 }
    ensures items { trash.new.items ≡ trash.old.items }
    ensures len { vec_len trash.new ≡ vec_len trash.old }
    ensures capacity { vec_capacity trash.old ≤ vec_capacity trash.new }
    ensures room { OnOk result (vec_len trash.new + gone + spare ≤ vec_capacity trash.new) }
{
    trash.reserve(gone + spare)?;
    Ok(())
}

/// A commit of a register: all memory is taken before the first write.
pub(crate) fn commit_register<D: Drive>(
    alloc: Global,
    lanes: &mut [D],
    disks: &mut [D],
    ask: &Ask,
    name: &str,
    deed: &Commit,
    drawn: &mut Drawn,
    trash: &mut Vec<VersionId>,
) -> Outcome
    requires may { MayCommit ask.now.site.set deed.now drawn.old lanes.old disks.old }
    requires named { name_of deed.now ≡ name.now }
    requires room { vec_len trash.old + ask.now.spare ≤ vec_capacity trash.old }
    ensures leaves { CommitLeaves D.tells D.files ask.now.site drawn.old drawn.new deed.now ask.now.put result trash.old.items trash.new.items
        lanes.old lanes.new }
    ensures told { IsTold deed.now ask.now.moment result }
    ensures cause { AskCause D.Drive ask.now drawn.old drawn.new deed.now (answer_told result) (deed_told result)
        lanes.old lanes.new disks.old disks.new }
    ensures gone { TrashGrows (answer_told result) trash.old.items trash.new.items }
    ensures room_stays { vec_len trash.new + ask.now.spare ≤ vec_capacity trash.new }
    ensures draws { Draws 3 64 drawn.old drawn.new }
    ensures lanes { AllGoOn (views D.Drive lanes.old) (views D.Drive lanes.new) }
    ensures disks_read { AllOnlyRead (views D.Drive disks.old) (views D.Drive disks.new) }
{
    // The laws for the proof, that lanes and data go on to stand where a put ends. The calls do nothing.
    resting_laws();
    flight_laws();
    hands_laws();
    let ids = own_ids(&ask.site, drawn, ask.put);
    let mut rule = rule_of_deed(deed, &ids);
    let ready = match look_at(alloc, lanes, disks, &ask.site, name, &mut rule, drawn) {
        Ok(ready) => ready,
        Err(fault) => {
            drop(rule);
            return kept(fault);
        }
    };
    let id = id_over(&ids, &ready);
    let planned = match plan_deed(alloc, &rule, deed, id, ask.moment) {
        Ok(planned) => planned,
        Err(_) => {
            drop(rule);
            drop(ready);
            return Outcome::LacksMemory;
        }
    };
    drop(rule);
    let work = Work { ready, id, planned };
    finish(alloc, lanes, ask, name, deed, work, drawn, trash)
}
