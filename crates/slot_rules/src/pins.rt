//! Pins, as a list of rows.

ghost use Rattle.std.specs.Prelude.{◌≡◌, ◌<◌, ℕ, All, MatchOption, length, slice_index_or};
ghost use Rattle.slot_data.specs.declared.rows.PinRow.{PinRow};
ghost use Rattle.slot_rules.specs.Taking.{TakesRow};

use slot_data::PinRow;

/// Takes the pin of this ticket off the list, if it is there. It takes no memory.
pub fn take_pin(pins: &mut Vec<PinRow>, ticket: u64) -> Option<PinRow>
    ensures takes { TakesRow (λ (row : PinRow). row.ticket ≡ ticket) result pins.old.items pins.new.items }
    ensures before { (turns : ℕ) → All (λ (row : PinRow). row.ticket < turns) pins.old.items → All (λ (row : PinRow). row.ticket < turns) pins.new.items }
{
    let place = place_of(pins, ticket)?;
    Some(pins.remove(place))
}

/// The place of the pin of this ticket in the list.
fn place_of(pins: &[PinRow], ticket: u64) -> Option<usize>
    ensures { MatchOption result (All (λ (row : PinRow). row.ticket ≡ ticket → ⊥) pins.now)
        (λ place. (place < length pins.now) × ((d : PinRow) → (slice_index_or pins.now place d).ticket ≡ ticket)) }
{
    pins.iter().position(|row| row.ticket == ticket)
}
