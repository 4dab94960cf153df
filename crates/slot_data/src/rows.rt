//! The rows of a slot's memory: puts under way, and pins.

ghost use Rattle.std.specs.Prelude.{◌≡◌};
ghost use Rattle.std.specs.List.{list_any};
ghost use Rattle.slot_data.specs.Rows.{FlightsAreFound, PinsAreFound, flies, is_id, pin_names};

use seal_file::Text;
use stamp_id::VersionId;

/// A put that is under way.
#[derive(Drop)]
pub struct FlightRow {
    /// The id of its data.
    pub id: VersionId,
    /// The name of its key's register.
    pub name: Text,
}

/// What a pin is for.
#[derive(Clone, Copy, PartialEq, Eq)]
pub enum PinFor {
    /// A read of a version.
    Read,
    /// A heal.
    Heal,
    /// A Complete, which may still name the parts.
    Complete,
}

/// A pin: the data of these ids must stay.
#[derive(Drop)]
pub struct PinRow {
    /// The ticket of the section that made it.
    pub ticket: u64,
    /// What it is for.
    pub purpose: PinFor,
    /// The name of its key's register.
    pub name: Text,
    /// The ids.
    pub ids: Vec<VersionId>,
}

/// Whether a put of this id is under way. It takes no memory.
pub fn is_in_flight(rows: &[FlightRow], id: VersionId) -> bool
    ensures { result ≡ list_any (flies id) rows.now }
{
    rows.iter().any(|row| row.id == id)
}

/// Whether some pin names this id. It takes no memory.
pub fn is_pinned(rows: &[PinRow], id: VersionId) -> bool
    ensures { result ≡ list_any (pin_names id) rows.now }
{
    rows.iter().any(|row| names(row, id))
}

/// Whether a pin names this id.
fn names(row: &PinRow, id: VersionId) -> bool
    ensures { result ≡ pin_names id row.now }
{
    has(row.ids.as_slice(), id)
}

/// Whether an id is one of these.
fn has(ids: &[VersionId], id: VersionId) -> bool
    ensures { result ≡ list_any (is_id id) ids.now }
{
    ids.iter().any(|other| *other == id)
}

/// What the tests of rows find, in the words of a slot's memory.
pub fn row_laws()
    ensures flights { FlightsAreFound }
    ensures pins { PinsAreFound }
{}
