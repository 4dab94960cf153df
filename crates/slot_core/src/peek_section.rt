//! The section that looks at a register.

ghost use Rattle.std.specs.Prelude.{◌≡◌, ◌+◌, ◌<◌, ◌≤◌, ◌^◌, length, ◌*◌, IfOk};
ghost use Rattle.slot_rules.specs.Rules.{IsRegisterName, is_bucket_name};
ghost use Rattle.slot_core.specs.Causes.{PeekCause};
ghost use Rattle.slot_core.specs.Numbers.{Draws};
ghost use Rattle.slot_core.specs.Deeds.{MayLook};
ghost use Rattle.slot_core.specs.Hands.{HandsStay};
ghost use Rattle.slot_core.specs.Sections.{SaysKept, ShowsContent};
ghost use Rattle.slot_core.specs.Stubs.{Says, completed_by};
ghost use Rattle.slot_core.specs.SlotTurns.{SlotLeaves, SlotTurns};
ghost use Rattle.slot_core.specs.Views.{holding_of, lanes_of, numbers_of};
ghost use Rattle.drive_base.specs.View.{AllGoOn, AllOnlyRead, views};
ghost use Rattle.drive_base.specs.declared.drive.TheConstants.{LONGEST_NAME};
ghost use Rattle.register_core.specs.Found.{content_of};
ghost use Rattle.slot_core.specs.PeekSection.{IsRefusal, LookLeaves, PeekCalls, PeekTurnLeaves, TurnsAt};
ghost use Rattle.slot_core.specs.Settlement.{numbers_at};

use crate::audit_entry::{
    ReserveFault, audit_failed, kept_entries, no_memory, refuse, reserve, spent_turn, write_down,
};
use crate::register_look::{forward, look_at};
use crate::slot::{Slot, SlotFault};
use crate::stub::Turn;
use audit_trail::Audit;
use drive_base::Drive;
use fault_base::NoMemory;
use register_core::{Looked, QuorumFault};
use seal_file::Bytes;
use slot_rules::{Drawn, LookRule, Site};
use stamp_id::ChangeId;
use std::alloc::Global;

impl<D: Drive, A: Audit> Slot<D, A> {
    /// Looks at the register of this name, and completes what is pending there. `Ok` is the content that the register has then. `Quorum` tells that the
    /// register refuses the look or the completion. `SeqSpent` and `AuditFailed` come before any call of a lane, and `NoMemory` before any write.
    pub fn peek(&mut self, alloc: Global, disks: &mut [D], name: &str) -> Turn<Bytes>
        requires turns { (numbers_of self.old).turns + 1 < 2 ^ 64 }
        requires disks { length disks.old ≡ (numbers_of self.old).set.drives }
        requires named { IsRegisterName name.now }
        requires short { length name.now ≤ LONGEST_NAME }
        ensures turns { SlotTurns A.entries A.count self.old self.new result }
        ensures says { Says result.stub (SaysKept name.now) }
        ensures holds { holding_of self.new ≡ holding_of self.old }
        ensures leaves { SlotLeaves D.tells D.files self.old self.new result.stub (ShowsContent name.now result.answer) HandsStay }
        ensures cause { PeekCause D.Drive (numbers_of self.old) (numbers_of self.new) name.now result.answer (completed_by result.stub)
            (lanes_of self.old) (lanes_of self.new) disks.old disks.new }
        ensures lanes { AllGoOn (views D.Drive (lanes_of self.old)) (views D.Drive (lanes_of self.new)) }
        ensures disks_read { AllOnlyRead (views D.Drive disks.old) (views D.Drive disks.new) }
    {
        let site = self.site;
        let mut drawn = self.drawn;
        self.site.turns += 1;
        if self.is_spent() {
            return spent_turn(&site);
        }
        let turn = peek_at(
            alloc,
            self.lanes.as_mut_slice(),
            &mut self.audit,
            disks,
            &site,
            name,
            &mut drawn,
        );
        self.drawn = drawn;
        turn
    }
}

/// What a look found, or why it found nothing.
#[derive(Drop)]
pub(crate) enum Peeked<T> {
    /// What is given of it, and the change that was completed, where one was pending.
    Found(T, Option<ChangeId>),
    /// The register refused it, for another reason than want of memory.
    Refused(QuorumFault),
    /// There was not enough memory. Nothing was written.
    LacksMemory,
}

/// A refusal of the register.
pub(crate) fn refusal<T>(fault: QuorumFault) -> Peeked<T>
    ensures { IsRefusal fault result }
{
    match fault {
        QuorumFault::ReadQuorum(whys) => Peeked::Refused(QuorumFault::ReadQuorum(whys)),
        QuorumFault::WriteQuorum(whys) => Peeked::Refused(QuorumFault::WriteQuorum(whys)),
        QuorumFault::Undecided { k, u, whys } => {
            Peeked::Refused(QuorumFault::Undecided { k, u, whys })
        }
        QuorumFault::NoMemory => Peeked::LacksMemory,
    }
}

/// The rule of the contents of a register, by its name.
pub(crate) fn rule_of(name: &str) -> LookRule
    ensures { result.bucket ≡ is_bucket_name name.now }
{
    let bucket = match name.as_bytes() {
        [] => false,
        [first, ..] => *first == b'b',
    };
    LookRule { bucket }
}

/// A copy of the content that a look settled, or that completing what is pending leaves.
fn content_of(alloc: Global, looked: &Looked) -> Result<Bytes, NoMemory>
    ensures { IfOk result (λ content. content ≡ content_of looked.now.base looked.now.pending) }
{
    match &looked.pending {
        None => Bytes::from_slice(alloc, looked.base.content.as_slice()),
        Some(next) => Bytes::from_slice(alloc, next.content.as_slice()),
    }
}

/// Looks at a register, and completes what is pending there. All memory is taken before the first write.
fn peek_register<D: Drive>(
    alloc: Global,
    lanes: &mut [D],
    disks: &mut [D],
    site: &Site,
    name: &str,
    drawn: &mut Drawn,
) -> Peeked<Bytes>
    requires may { MayLook site.now.set drawn.old lanes.old disks.old }
    requires named { IsRegisterName name.now }
    requires short { length name.now ≤ LONGEST_NAME }
    ensures leaves { LookLeaves D.tells D.files site.now drawn.old drawn.new name.now result lanes.old lanes.new }
    ensures calls { PeekCalls D.Drive (numbers_at site.now drawn.old) (numbers_at site.now drawn.new) name.now result
        lanes.old lanes.new disks.old disks.new }
    ensures lanes { AllGoOn (views D.Drive lanes.old) (views D.Drive lanes.new) }
    ensures disks_read { AllOnlyRead (views D.Drive disks.old) (views D.Drive disks.new) }
    ensures draws { Draws 1 32 drawn.old drawn.new }
{
    let mut rule = rule_of(name);
    let mut ready = match look_at(alloc, lanes, disks, site, name, &mut rule, drawn) {
        Ok(ready) => ready,
        Err(fault) => return refusal(fault),
    };
    let content = match content_of(alloc, &ready.looked) {
        Ok(content) => content,
        Err(_) => {
            drop(ready);
            return Peeked::LacksMemory;
        }
    };
    match forward(lanes, site, name, &mut ready, drawn) {
        Ok(late) => {
            drop(ready);
            Peeked::Found(content, late)
        }
        Err(fault) => {
            drop(ready);
            refusal(fault)
        }
    }
}

/// A whole look, with its entry.
pub(crate) fn peek_at<D: Drive, A: Audit>(
    alloc: Global,
    lanes: &mut [D],
    audit: &mut A,
    disks: &mut [D],
    site: &Site,
    name: &str,
    drawn: &mut Drawn,
) -> Turn<Bytes>
    requires may { MayLook site.now.set drawn.old lanes.old disks.old }
    requires named { IsRegisterName name.now }
    requires short { length name.now ≤ LONGEST_NAME }
    ensures turns { TurnsAt (numbers_at site.now drawn.old) (A.entries audit.old) (A.entries audit.new) (A.count audit.old) (A.count audit.new) result.answer result.stub }
    ensures says { Says result.stub (SaysKept name.now) }
    ensures leaves { PeekTurnLeaves D.tells D.files site.now drawn.old drawn.new name.now result lanes.old lanes.new }
    ensures cause { PeekCause D.Drive (numbers_at site.now drawn.old) (numbers_at site.now drawn.new) name.now result.answer (completed_by result.stub)
        lanes.old lanes.new disks.old disks.new }
    ensures lanes { AllGoOn (views D.Drive lanes.old) (views D.Drive lanes.new) }
    ensures disks_read { AllOnlyRead (views D.Drive disks.old) (views D.Drive disks.new) }
    ensures draws { Draws 1 32 drawn.old drawn.new }
{
    let entries = match kept_entries(alloc, site, name) {
        Ok(entries) => entries,
        Err(_) => return no_memory(),
    };
    match reserve(audit) {
        Ok(()) => {}
        Err(ReserveFault::Failed { before, after }) => {
            return audit_failed(site, before, after);
        }
        Err(ReserveFault::NoMemory) => return no_memory(),
    }
    match peek_register(alloc, lanes, disks, site, name, drawn) {
        Peeked::Found(content, late) => Turn {
            answer: Ok(content),
            stub: Some(write_down(audit, site, entries, late)),
        },
        Peeked::Refused(fault) => { refuse(audit, site, entries, None, SlotFault::Quorum(fault)) }
        Peeked::LacksMemory => no_memory(),
    }
}
