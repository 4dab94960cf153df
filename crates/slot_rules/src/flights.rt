//! Puts that are under way, as a list of rows.

ghost use Rattle.std.specs.Prelude.{◌≡◌, ◌+◌, ◌<◌, ◌≤◌, ℕ, All, IsSome, MatchOption, length, slice_index_or, vec_len};
ghost use Rattle.slot_history.specs.Contents.{number_of_id};
ghost use Rattle.slot_data.specs.declared.rows.FlightRow.{FlightRow};
ghost use Rattle.slot_rules.specs.Fields.{AreApart};
ghost use Rattle.slot_rules.specs.Taking.{TakesRow};

use slot_data::FlightRow;
use stamp_id::VersionId;

/// Takes the put of this id off the list, if it is there. It takes no memory.
pub fn take_flight(flights: &mut Vec<FlightRow>, id: VersionId) -> Option<FlightRow>
    ensures takes { TakesRow (λ (row : FlightRow). row.id ≡ id) result flights.old.items flights.new.items }
    ensures fewer { IsSome result → vec_len flights.new + 1 ≡ vec_len flights.old }
    ensures at_most { vec_len flights.new ≤ vec_len flights.old }
    ensures apart { AreApart flights.old.items → AreApart flights.new.items }
    ensures drawn { (last : ℕ) → All (λ (row : FlightRow). number_of_id row.id ≤ last) flights.old.items
        → All (λ (row : FlightRow). number_of_id row.id ≤ last) flights.new.items }
{
    let place = place_of(flights, id)?;
    Some(flights.remove(place))
}

/// The place of the put of this id in the list.
fn place_of(flights: &[FlightRow], id: VersionId) -> Option<usize>
    ensures { MatchOption result (All (λ (row : FlightRow). row.id ≡ id → ⊥) flights.now)
        (λ place. (place < length flights.now) × ((d : FlightRow) → (slice_index_or flights.now place d).id ≡ id)) }
{
    flights.iter().position(|row| row.id == id)
}
