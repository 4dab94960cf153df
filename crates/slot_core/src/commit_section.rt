//! The section that commits a change of a key or of a bucket.

ghost use Rattle.std.specs.Prelude.{◌≡◌, ◌+◌, ◌<◌, ◌≤◌, Err, length, vec_capacity, vec_len};
ghost use Rattle.stamp_id.specs.declared.version.VersionId.{VersionId};
ghost use Rattle.drive_base.specs.View.{AllGoOn, AllOnlyRead, views};
ghost use Rattle.drive_base.specs.declared.drive.TheConstants.{LONGEST_NAME};
ghost use Rattle.slot_rules.specs.Deeds.{IsLawfulDeed, IsNamedDeed, IsOfNoPart, name_of};
ghost use Rattle.slot_rules.specs.declared.site.Drawn.{Drawn};
ghost use Rattle.slot_core.specs.CommitCauses.{deed_in};
ghost use Rattle.slot_core.specs.CommitPlan.{AskCause};
ghost use Rattle.slot_core.specs.CommitSection.{IsMissed, LandedLeaves};
ghost use Rattle.slot_core.specs.Commits.{ChecksFlight, CommitHolds, SaysCommit, TrashGrows};
ghost use Rattle.slot_core.specs.Deeds.{MayBegin, MayCommit};
ghost use Rattle.slot_core.specs.Numbers.{Draws};
ghost use Rattle.slot_core.specs.PeekSection.{TurnsAt};
ghost use Rattle.slot_core.specs.PutEnds.{flight_put};
ghost use Rattle.slot_core.specs.Settlement.{numbers_at};
ghost use Rattle.slot_core.specs.SlotTurns.{SlotCommitCause, SlotCommitLeaves, SlotTurns};
ghost use Rattle.slot_core.specs.Stubs.{Says, entry_of};
ghost use Rattle.slot_core.specs.Views.{holding_of, lanes_of, numbers_of};
ghost use Rattle.slot_core.specs.declared.slot.SlotFault.TheVariants.{NotInFlight};

use crate::audit_entry::{refuse, spent_turn};
use crate::commit_entry::{Opening, conclude, open_entry, unreserved};
use crate::commit_plan::commit_register;
use crate::flights::{Landing, land};
use crate::holding::Flight;
use crate::slot::{Slot, SlotFault};
use crate::stub::Turn;
use audit_trail::Audit;
use drive_base::Drive;
use slot_data::{flight_laws, hands_laws};
use slot_history::resting_laws;
use slot_rules::{Ask, Commit, Committed, Drawn, Site};
use stamp_id::VersionId;
use std::alloc::Global;

impl<D: Drive, A: Audit> Slot<D, A> {
    /// Commits a change of a key or of a bucket: looks at its register, completes what is pending there, and does the deed. `Ok` tells what the call is
    /// replied, and its change is acknowledged then, if it made one. A deed that brings data comes with the flight of its put. The put ends on every answer.
    ///
    /// Where the slot doesn't list the flight, the section is refused with `NotInFlight` before it looks at anything. `Key` tells that the state of the key
    /// refuses the act. `Quorum` tells that the register refuses the look, the completion of what is pending, or the deed's own writes. After a refusal of
    /// its own writes the change may have taken effect, or may take effect later. `SeqSpent`, `AuditFailed` and `NoMemory` change nothing but the flight.
    pub fn commit(
        &mut self,
        alloc: Global,
        disks: &mut [D],
        deed: &Commit,
        flight: Option<Flight>,
        now: u64,
    ) -> Turn<Committed>
        requires begins { MayBegin (numbers_of self.old) disks.old now }
        requires no_part { IsOfNoPart deed.now }
        requires lawful { IsLawfulDeed deed.now }
        requires named { IsNamedDeed deed.now }
        requires short { length (name_of deed.now) ≤ LONGEST_NAME }
        ensures turns { SlotTurns A.entries A.count self.old self.new result }
        ensures says { Says result.stub (SaysCommit deed.now now result.answer) }
        ensures holds { CommitHolds flight result.answer (holding_of self.old) (holding_of self.new) }
        ensures checks { ChecksFlight flight (holding_of self.old) result.answer }
        ensures leaves { SlotCommitLeaves D.tells D.files self.old self.new deed.now flight result }
        ensures cause { SlotCommitCause D.Drive self.old self.new deed.now (flight_put flight) now result disks.old disks.new }
        ensures lanes { AllGoOn (views D.Drive (lanes_of self.old)) (views D.Drive (lanes_of self.new)) }
        ensures disks_read { AllOnlyRead (views D.Drive disks.old) (views D.Drive disks.new) }
    {
        // The laws for the proof, that lanes and data go on to stand where a put ends. The calls do nothing.
        resting_laws();
        flight_laws();
        hands_laws();
        let site = self.site;
        let mut drawn = self.drawn;
        self.site.turns += 1;
        let landing = land(&mut self.flights, flight);
        if self.is_spent() {
            return spent_turn(&site);
        }
        let put = match landing {
            Landing::Missing(id) => {
                return commit_missing(alloc, &mut self.audit, &site, deed, id);
            }
            Landing::Ended(put) => put,
        };
        let ask = Ask {
            site,
            put,
            moment: now,
            spare: self.flights.len(),
        };
        let turn = commit_landed(
            alloc,
            self.lanes.as_mut_slice(),
            &mut self.audit,
            &mut self.trash,
            disks,
            &ask,
            deed,
            &mut drawn,
        );
        self.drawn = drawn;
        turn
    }
}

/// A commit, once the put that it ends is off the list.
fn commit_landed<D: Drive, A: Audit>(
    alloc: Global,
    lanes: &mut [D],
    audit: &mut A,
    trash: &mut Vec<VersionId>,
    disks: &mut [D],
    ask: &Ask,
    deed: &Commit,
    drawn: &mut Drawn,
) -> Turn<Committed>
    requires no_part { IsOfNoPart deed.now }
    requires may { MayCommit ask.now.site.set deed.now drawn.old lanes.old disks.old }
    requires room { vec_len trash.old + ask.now.spare ≤ vec_capacity trash.old }
    ensures turns { TurnsAt (numbers_at ask.now.site drawn.old) (A.entries audit.old) (A.entries audit.new) (A.count audit.old) (A.count audit.new)
        result.answer result.stub }
    ensures says { Says result.stub (SaysCommit deed.now ask.now.moment result.answer) }
    ensures checks { (id : VersionId) → result.answer ≡ Err (NotInFlight id) → ⊥ }
    ensures leaves { LandedLeaves D.tells D.files ask.now drawn.old drawn.new deed.now result trash.old.items trash.new.items lanes.old lanes.new }
    ensures cause { AskCause D.Drive ask.now drawn.old drawn.new deed.now result.answer (deed_in (entry_of result.stub))
        lanes.old lanes.new disks.old disks.new }
    ensures gone { TrashGrows result.answer trash.old.items trash.new.items }
    ensures room_stays { vec_len trash.new + ask.now.spare ≤ vec_capacity trash.new }
    ensures draws { Draws 3 64 drawn.old drawn.new }
    ensures lanes { AllGoOn (views D.Drive lanes.old) (views D.Drive lanes.new) }
    ensures disks_read { AllOnlyRead (views D.Drive disks.old) (views D.Drive disks.new) }
{
    // The laws for the proof, that lanes and data go on to stand where a put ends. The calls do nothing.
    resting_laws();
    flight_laws();
    hands_laws();
    let Opening { name, entries } = match open_entry(alloc, audit, &ask.site, deed) {
        Ok(opening) => opening,
        Err(why) => return unreserved(&ask.site, why),
    };
    let outcome = commit_register(alloc, lanes, disks, ask, name.as_str(), deed, drawn, trash);
    conclude(audit, &ask.site, entries, outcome)
}

/// The refusal of a put that is not in flight.
fn commit_missing<A: Audit>(
    alloc: Global,
    audit: &mut A,
    site: &Site,
    deed: &Commit,
    id: VersionId,
) -> Turn<Committed>
    requires named { IsNamedDeed deed.now }
    ensures turns { (drawn : Drawn)
        → TurnsAt (numbers_at site.now drawn) (A.entries audit.old) (A.entries audit.new) (A.count audit.old) (A.count audit.new) result.answer result.stub }
    ensures missed { IsMissed site.now (name_of deed.now) id result }
{
    let entries = match open_entry(alloc, audit, site, deed) {
        Ok(opening) => opening.entries,
        Err(why) => return unreserved(site, why),
    };
    refuse(audit, site, entries, None, SlotFault::NotInFlight(id))
}
