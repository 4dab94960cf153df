//! The section that begins a read of a key.

ghost use Rattle.std.specs.Prelude.{◌≡◌, ◌+◌, ◌<◌, ◌≤◌, ◌^◌, IsUtf8, length, ◌*◌, IfOk, OnOk, string_bytes, vec_capacity, vec_len};
ghost use Rattle.slot_history.specs.Names.{key_name};
ghost use Rattle.slot_core.specs.Numbers.{Draws};
ghost use Rattle.slot_core.specs.Deeds.{MayLook};
ghost use Rattle.slot_core.specs.Hands.{HandsStay};
ghost use Rattle.slot_core.specs.ReadSection.{BeginsPlan, FinishesPlan, LooksForRead, PinIsListed, ReadCause, entries_of};
ghost use Rattle.slot_core.specs.ReadLeaves.{BegunCause, BegunLeaves, ReadCalls, ReadLeaves};
ghost use Rattle.slot_core.specs.Sections.{ReadHolds, SaysRead, ShowsNoMore};
ghost use Rattle.slot_core.specs.Stubs.{Says, completed_by};
ghost use Rattle.slot_core.specs.SlotTurns.{SlotLeaves, SlotTurns};
ghost use Rattle.slot_core.specs.Views.{holding_of, lanes_of, numbers_of};
ghost use Rattle.drive_base.specs.View.{AllGoOn, AllOnlyRead, views};
ghost use Rattle.drive_base.specs.declared.drive.TheConstants.{LONGEST_NAME};
ghost use Rattle.audit_trail.specs.Entries.{with_entry};
ghost use Rattle.slot_core.specs.RegisterLook.{FirstFits};
ghost use Rattle.slot_core.specs.PeekSection.{TurnsAt};
ghost use Rattle.slot_core.specs.AuditEntry.{IsKeptOf, has_late};
ghost use Rattle.slot_core.specs.Settlement.{numbers_at};

use crate::audit_entry::{
    Entries, ReserveFault, audit_failed, kept_entries, no_memory, refuse, reserve, spent_turn,
    write_down,
};
use crate::peek_section::{Peeked, refusal};
use crate::read_plan::{ReadAsk, ReadPlan, ReadStart, plan_read};
use crate::register_look::{forward, look_at};
use crate::slot::{Slot, SlotFault};
use crate::stub::Turn;
use audit_trail::Audit;
use call_types::{Key, Mode, Pick};
use drive_base::Drive;
use fault_base::NoMemory;
use register_core::QuorumFault;
use slot_data::{PinRow, pin_laws};
use slot_history::key_name;
use slot_rules::{Drawn, KeyRule, Ready, Site};
use stamp_id::ChangeId;
use std::alloc::Global;

impl<D: Drive, A: Audit> Slot<D, A> {
    /// Begins a read of a key: looks at its register, completes what is pending there, and finds the version that `pick` names. `Ok` is the version, an
    /// object, with a pin of its data. The data stays until `end_read` is given the pin. `Key` tells that the state of the key refuses the read, and
    /// `Quorum` that the register refuses the look or the completion. `SeqSpent` and `AuditFailed` come before any call of a lane, and `NoMemory` before
    /// any write.
    pub fn begin_read(
        &mut self,
        alloc: Global,
        disks: &mut [D],
        at: &Key,
        mode: Mode,
        pick: &Pick,
    ) -> Turn<ReadStart>
        requires turns { (numbers_of self.old).turns + 1 < 2 ^ 64 }
        requires disks { length disks.old ≡ (numbers_of self.old).set.drives }
        requires bucket { IsUtf8 at.now.bucket }
        requires key { IsUtf8 at.now.key }
        requires short { length (key_name at.now) ≤ LONGEST_NAME }
        ensures turns { SlotTurns A.entries A.count self.old self.new result }
        ensures says { Says result.stub (SaysRead at.now mode pick.now result.answer) }
        ensures holds { ReadHolds (numbers_of self.old) at.now result.answer (holding_of self.old) (holding_of self.new) }
        ensures leaves { SlotLeaves D.tells D.files self.old self.new result.stub ShowsNoMore HandsStay }
        ensures cause { ReadCause D.Drive (numbers_of self.old) (numbers_of self.new) at.now pick.now result.answer (completed_by result.stub)
            (lanes_of self.old) (lanes_of self.new) disks.old disks.new }
        ensures lanes { AllGoOn (views D.Drive (lanes_of self.old)) (views D.Drive (lanes_of self.new)) }
        ensures disks_read { AllOnlyRead (views D.Drive disks.old) (views D.Drive disks.new) }
    {
        let site = self.site;
        let mut drawn = self.drawn;
        self.site.turns += 1;
        if self.is_spent() {
            return spent_turn(&site);
        }
        let ask = ReadAsk {
            site,
            mode,
            pick: *pick,
        };
        let turn = read_at(
            alloc,
            self.lanes.as_mut_slice(),
            &mut self.audit,
            &mut self.pins,
            disks,
            &ask,
            at,
            &mut drawn,
        );
        self.drawn = drawn;
        turn
    }
}

/// What a look at a key's register found, and what a read answers over it.
#[derive(Drop)]
pub(crate) struct Planned {
    /// What was found, and the draft of what is pending.
    pub(crate) ready: Ready,
    /// The plan of the read.
    pub(crate) plan: ReadPlan,
}

/// Looks at a key's register, and plans what a read answers over its state. Nothing is written. `QuorumFault::NoMemory` is told for the plan's memory too.
fn look_and_plan<D: Drive>(
    alloc: Global,
    lanes: &mut [D],
    disks: &mut [D],
    ask: &ReadAsk,
    name: &str,
    at: &Key,
    drawn: &Drawn,
) -> Result<Planned, QuorumFault>
    requires lanes { length lanes.old ≡ ask.now.site.set.drives }
    requires disks { length disks.old ≡ ask.now.site.set.drives }
    requires named { name.now ≡ key_name at.now }
    requires short { length name.now ≤ LONGEST_NAME }
    requires seq { drawn.now.seq + 1 < 2 ^ 62 }
    ensures looks { LooksForRead D.Drive ask.now.site drawn.now name.now at.now ask.now.mode ask.now.pick result lanes.old lanes.new disks.old disks.new }
    ensures fits { IfOk result (λ planned. FirstFits ask.now.site.set planned.ready.first) }
    ensures lanes_read { AllOnlyRead (views D.Drive lanes.old) (views D.Drive lanes.new) }
    ensures disks_read { AllOnlyRead (views D.Drive disks.old) (views D.Drive disks.new) }
{
    let mut rule = KeyRule {
        first: None,
        second: None,
        state: None,
    };
    let ready = match look_at(alloc, lanes, disks, &ask.site, name, &mut rule, drawn) {
        Ok(ready) => ready,
        Err(fault) => {
            drop(rule);
            return Err(fault);
        }
    };
    let Some(state) = &rule.state else {
        unreachable!()
    };
    match plan_read(alloc, ask, name, at, state) {
        Ok(plan) => {
            drop(rule);
            Ok(Planned { ready, plan })
        }
        Err(_) => {
            drop(rule);
            drop(ready);
            Err(QuorumFault::NoMemory)
        }
    }
}

/// Looks at a key's register, plans what a read answers over its state, and completes what is pending. All memory is taken before the first write.
fn read_register<D: Drive>(
    alloc: Global,
    lanes: &mut [D],
    disks: &mut [D],
    ask: &ReadAsk,
    name: &str,
    at: &Key,
    drawn: &mut Drawn,
) -> Peeked<ReadPlan>
    requires may { MayLook ask.now.site.set drawn.old lanes.old disks.old }
    requires named { name.now ≡ key_name at.now }
    requires short { length name.now ≤ LONGEST_NAME }
    ensures leaves { ReadLeaves D.tells D.files ask.now drawn.old drawn.new at.now result lanes.old lanes.new }
    ensures calls { ReadCalls D.Drive ask.now drawn.old drawn.new at.now result lanes.old lanes.new disks.old disks.new }
    ensures lanes { AllGoOn (views D.Drive lanes.old) (views D.Drive lanes.new) }
    ensures disks_read { AllOnlyRead (views D.Drive disks.old) (views D.Drive disks.new) }
    ensures draws { Draws 1 32 drawn.old drawn.new }
{
    match look_and_plan(alloc, lanes, disks, ask, name, at, drawn) {
        Ok(planned) => {
            let Planned { mut ready, plan } = planned;
            finish_planned(lanes, &ask.site, name, &mut ready, plan, drawn)
        }
        Err(fault) => refusal(fault),
    }
}

/// Completes what was found pending, and gives the plan of the read. It doesn't allocate.
fn finish_planned<D: Drive>(
    lanes: &mut [D],
    site: &Site,
    name: &str,
    ready: &mut Ready,
    plan: ReadPlan,
    drawn: &mut Drawn,
) -> Peeked<ReadPlan>
    requires lanes { length lanes.old ≡ site.now.set.drives }
    requires fits { FirstFits site.now.set ready.old.first }
    requires seq { drawn.old.seq + 1 < 2 ^ 64 }
    requires room { drawn.old.count + 2 * site.now.set.drives < 2 ^ 64 }
    ensures finishes { FinishesPlan D.Drive site.now drawn.old drawn.new name.now (record { ready = ready.old; plan = plan }) result lanes.old lanes.new }
    ensures lanes { AllGoOn (views D.Drive lanes.old) (views D.Drive lanes.new) }
    ensures draws { Draws 1 (2 * site.now.set.drives) drawn.old drawn.new }
{
    match forward(lanes, site, name, ready, drawn) {
        Ok(late) => Peeked::Found(plan, late),
        Err(fault) => {
            drop(plan);
            refusal(fault)
        }
    }
}

/// Begins what was planned: its pin is listed, and its entry written down. It doesn't allocate.
fn begin_planned<A: Audit>(
    audit: &mut A,
    pins: &mut Vec<PinRow>,
    site: &Site,
    plan: ReadPlan,
    late: Option<ChangeId>,
) -> Turn<ReadStart>
    requires room { 1 ≤ A.room audit.old }
    requires spare { vec_len pins.old < vec_capacity pins.old }
    requires same { (entries_of plan).stub ≡ (entries_of plan).audit }
    ensures begins { BeginsPlan site.now plan late result pins.old.items pins.new.items }
    ensures entries { A.entries audit.new ≡ with_entry (A.entries audit.old) (has_late (entries_of plan).audit late) }
    ensures count { A.count audit.new ≡ A.count audit.old }
{
    match plan {
        ReadPlan::Gives(start, row, entries) => {
            pins.push_reserved(row);
            Turn {
                answer: Ok(start),
                stub: Some(write_down(audit, site, entries, late)),
            }
        }
        ReadPlan::Refuses(why, entries) => refuse(audit, site, entries, late, SlotFault::Key(why)),
    }
}

/// What a read takes memory for before its look.
#[derive(Drop)]
struct Prepared {
    /// The name of the key's register.
    name: String,
    /// The entries where the register refuses the read.
    entries: Entries,
}

/// Makes the name of a key's register, the entries of a section at it that does nothing of its own, and room for a pin.
fn prepare(
    alloc: Global,
    pins: &mut Vec<PinRow>,
    site: &Site,
    at: &Key,
) -> Result<Prepared, NoMemory>
    requires bucket { IsUtf8 at.now.bucket }
    requires key { IsUtf8 at.now.key }
    ensures named { IfOk result (λ made. string_bytes made.name ≡ key_name at.now) }
    ensures kept { IfOk result (λ made. IsKeptOf site.now.turns (key_name at.now) made.entries) }
    ensures pins { pins.new.items ≡ pins.old.items }
    ensures spare { OnOk result (vec_len pins.new < vec_capacity pins.new) }
{
    let name = key_name(alloc, at)?;
    pins.reserve(1)?;
    let entries = kept_entries(alloc, site, name.as_str())?;
    Ok(Prepared { name, entries })
}

/// A whole read, with its entry and its pin.
pub(crate) fn read_at<D: Drive, A: Audit>(
    alloc: Global,
    lanes: &mut [D],
    audit: &mut A,
    pins: &mut Vec<PinRow>,
    disks: &mut [D],
    ask: &ReadAsk,
    at: &Key,
    drawn: &mut Drawn,
) -> Turn<ReadStart>
    requires may { MayLook ask.now.site.set drawn.old lanes.old disks.old }
    requires bucket { IsUtf8 at.now.bucket }
    requires key { IsUtf8 at.now.key }
    requires short { length (key_name at.now) ≤ LONGEST_NAME }
    ensures turns { TurnsAt (numbers_at ask.now.site drawn.old) (A.entries audit.old) (A.entries audit.new) (A.count audit.old) (A.count audit.new) result.answer result.stub }
    ensures says { Says result.stub (SaysRead at.now ask.now.mode ask.now.pick result.answer) }
    ensures pins { PinIsListed ask.now.site.turns at.now result.answer pins.old.items pins.new.items }
    ensures leaves { BegunLeaves D.tells D.files ask.now drawn.old drawn.new at.now result lanes.old lanes.new }
    ensures cause { BegunCause D.Drive ask.now drawn.old drawn.new at.now result lanes.old lanes.new disks.old disks.new }
    ensures lanes { AllGoOn (views D.Drive lanes.old) (views D.Drive lanes.new) }
    ensures disks_read { AllOnlyRead (views D.Drive disks.old) (views D.Drive disks.new) }
    ensures draws { Draws 1 32 drawn.old drawn.new }
{
    // The laws for the proof, that the data goes on to stand where a pin begins. The call does nothing.
    pin_laws();
    let made = match prepare(alloc, pins, &ask.site, at) {
        Ok(made) => made,
        Err(_) => return no_memory(),
    };
    match reserve(audit) {
        Ok(()) => {}
        Err(ReserveFault::Failed { before, after }) => {
            return audit_failed(&ask.site, before, after);
        }
        Err(ReserveFault::NoMemory) => return no_memory(),
    }
    let Prepared { name, entries } = made;
    match read_register(alloc, lanes, disks, ask, name.as_str(), at, drawn) {
        Peeked::Found(plan, late) => begin_planned(audit, pins, &ask.site, plan, late),
        Peeked::Refused(fault) => {
            refuse(audit, &ask.site, entries, None, SlotFault::Quorum(fault))
        }
        Peeked::LacksMemory => no_memory(),
    }
}
