//! Puts that begin, are given up, and end with a commit.

ghost use Rattle.std.specs.Prelude.{◌≡◌, ◌↔◌, ◌+◌, ◌<◌, ◌^◌, IsUtf8, ◌≤◌, ℕ, All, vec_len};
ghost use Rattle.slot_data.specs.declared.rows.FlightRow.{FlightRow};
ghost use Rattle.slot_core.specs.Hands.{HandsStay};
ghost use Rattle.slot_core.specs.Numbers.{AreSpent, with_seq};
ghost use Rattle.slot_core.specs.Sections.{MayGiveUp, PutGoes, PutHolds, ShowsNoMore};
ghost use Rattle.slot_core.specs.SlotTurns.{SlotLeaves, SlotTurnsQuietly};
ghost use Rattle.slot_core.specs.Views.{audit_of, holding_of, lanes_of, numbers_of};
ghost use Rattle.slot_history.specs.Contents.{number_of_id};
ghost use Rattle.slot_rules.specs.Fields.{AreApart};
ghost use Rattle.slot_core.specs.PutEnds.{LandsPut, LandsRow};

use crate::holding::Flight;
use crate::slot::{Slot, SlotFault};
use crate::stub::{Stub, Turn};
use audit_trail::Audit;
use call_types::Key;
use drive_base::Drive;
use fault_base::NoMemory;
use seal_file::Text;
use slot_data::{FlightRow, flight_laws};
use slot_history::{key_name, resting_laws};
use slot_rules::{next_ballot, take_flight};
use stamp_id::{ChangeId, VersionId};
use std::alloc::Global;

impl<D: Drive, A: Audit> Slot<D, A> {
    /// Begins a put of a key: draws the id of its data, and lists the put as under way. It makes the room in the trash that giving the put up needs.
    /// The section is refused with `SeqSpent` where the slot's numbers are spent, and with `NoMemory`. It calls no lane.
    pub fn begin_put(&mut self, alloc: Global, at: &Key) -> Turn<Flight>
        requires turns { (numbers_of self.old).turns + 1 < 2 ^ 64 }
        requires bucket { IsUtf8 at.now.bucket }
        requires key { IsUtf8 at.now.key }
        ensures turns { SlotTurnsQuietly A.entries A.count self.old self.new result }
        ensures spent { (result.answer ≡ Err SlotFault.SeqSpent) ↔ AreSpent (numbers_of self.old) }
        ensures holds { PutHolds (numbers_of self.old) (numbers_of self.new) at.now result.answer (holding_of self.old) (holding_of self.new) }
        ensures lanes { lanes_of self.new ≡ lanes_of self.old }
        ensures leaves { SlotLeaves D.tells D.files self.old self.new result.stub ShowsNoMore HandsStay }
    {
        // The laws for the proof, that lanes and data go on to stand where a put begins. The calls do nothing.
        resting_laws();
        flight_laws();
        let ticket = self.site.turns;
        self.site.turns += 1;
        if self.is_spent() {
            return Turn {
                answer: Err(SlotFault::SeqSpent),
                stub: Some(Stub::refused(self.site.index, ticket, SlotFault::SeqSpent)),
            };
        }
        match self.list_put(alloc, at) {
            Ok(flight) => Turn {
                answer: Ok(flight),
                stub: None,
            },
            Err(_) => Turn {
                answer: Err(SlotFault::NoMemory),
                stub: None,
            },
        }
    }

    /// Draws the next number for a put of a key, and lists the put.
    fn list_put(&mut self, alloc: Global, at: &Key) -> Result<Flight, NoMemory>
        requires bucket { IsUtf8 at.now.bucket }
        requires key { IsUtf8 at.now.key }
        requires unspent { (numbers_of self.old).seq + 1 < 2 ^ 62 }
        ensures numbers { numbers_of self.new ≡ with_seq (numbers_of self.old) (numbers_of self.new).seq }
        ensures holds { PutHolds (numbers_of self.old) (numbers_of self.new) at.now result (holding_of self.old) (holding_of self.new) }
        ensures lanes { lanes_of self.new ≡ lanes_of self.old }
        ensures audit { audit_of self.new ≡ audit_of self.old }
    {
        let full = key_name(alloc, at)?;
        let name = Text::from_slice(alloc, full.as_bytes())?;
        let listed = Text::from_slice(alloc, full.as_bytes())?;
        self.flights.reserve(1)?;
        self.trash.reserve(self.flights.len() + 1)?;
        let change = ChangeId(next_ballot(self.site.term, self.drawn.seq));
        let id = VersionId::from_parts(change, self.site.index);
        self.drawn.seq += 1;
        self.flights.push_reserved(FlightRow { id, name: listed });
        Ok(Flight { id, name })
    }

    /// Gives a put up: the slot lists it no more, and its data is trash. A flight that isn't listed changes nothing. The section doesn't allocate, and is
    /// never refused.
    pub fn drop_put(&mut self, flight: Flight) -> Turn<()>
        requires turns { (numbers_of self.old).turns + 1 < 2 ^ 64 }
        ensures turns { SlotTurnsQuietly A.entries A.count self.old self.new result }
        ensures done { result.answer ≡ Ok tt }
        ensures drawn { (numbers_of self.new).seq ≡ (numbers_of self.old).seq }
        ensures holds { PutGoes flight.id (holding_of self.old) (holding_of self.new) }
        ensures lanes { lanes_of self.new ≡ lanes_of self.old }
        ensures leaves { SlotLeaves D.tells D.files self.old self.new result.stub ShowsNoMore (MayGiveUp flight.id) }
    {
        // The laws for the proof, that lanes and data go on to stand where a put is given up. The calls do nothing.
        resting_laws();
        flight_laws();
        self.site.turns += 1;
        self.give_up(flight.id);
        Turn {
            answer: Ok(()),
            stub: None,
        }
    }

    /// Takes the put of this id off the list, and puts its data into the trash, if it is listed.
    fn give_up(&mut self, id: VersionId)
        ensures numbers { numbers_of self.new ≡ numbers_of self.old }
        ensures holds { PutGoes id (holding_of self.old) (holding_of self.new) }
        ensures lanes { lanes_of self.new ≡ lanes_of self.old }
        ensures audit { audit_of self.new ≡ audit_of self.old }
    {
        let Some(row) = take_flight(&mut self.flights, id) else {
            return;
        };
        self.trash.push_reserved(row.id);
    }
}

/// What became of the put that a commit was handed.
#[derive(Clone, Copy)]
pub(crate) enum Landing {
    /// The put of this id was listed, and isn't any more; or none was handed in.
    Ended(Option<VersionId>),
    /// The put of this id wasn't listed.
    Missing(VersionId),
}

/// Takes the put that a commit was handed off the list. It doesn't allocate.
pub(crate) fn land(flights: &mut Vec<FlightRow>, flight: Option<Flight>) -> Landing
    ensures lands { LandsRow flight result flights.old.items flights.new.items }
    ensures at_most { vec_len flights.new ≤ vec_len flights.old }
    ensures apart { AreApart flights.old.items → AreApart flights.new.items }
    ensures drawn { (last : ℕ) → All (λ (row : FlightRow). number_of_id row.id ≤ last) flights.old.items
        → All (λ (row : FlightRow). number_of_id row.id ≤ last) flights.new.items }
{
    match flight {
        None => Landing::Ended(None),
        Some(flight) => land_put(flights, flight.id),
    }
}

/// Takes the put of this id off the list, if it is there.
fn land_put(flights: &mut Vec<FlightRow>, id: VersionId) -> Landing
    ensures lands { LandsPut id result flights.old.items flights.new.items }
    ensures at_most { vec_len flights.new ≤ vec_len flights.old }
    ensures apart { AreApart flights.old.items → AreApart flights.new.items }
    ensures drawn { (last : ℕ) → All (λ (row : FlightRow). number_of_id row.id ≤ last) flights.old.items
        → All (λ (row : FlightRow). number_of_id row.id ≤ last) flights.new.items }
{
    let Some(row) = take_flight(flights, id) else {
        return Landing::Missing(id);
    };
    Landing::Ended(Some(row.id))
}
