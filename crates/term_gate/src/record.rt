//! What a format file holds.

ghost use Rattle.std.specs.Prelude.{◌≡◌, ◌↔◌, IsTrue};
ghost use Rattle.term_gate.specs.Formats.{IsOf, format_of};

use drive_base::SetPlan;

/// Which drive of which set a drive is.
#[derive(Clone, Copy, PartialEq, Eq)]
pub struct Format {
    /// The set's id, a UUID.
    pub id: [u8; 16],
    /// How many drives the set has.
    pub drives: u8,
    /// How many of them are parity.
    pub parity: u8,
    /// The drive's index in the set.
    pub index: u8,
    /// The term of the opening that wrote the file last, also one that was refused; below 2^48, and 0 before the first.
    pub term: u64,
}

/// The format of a drive of a set, with this term.
pub fn format_of(set: &SetPlan, index: u8, term: u64) -> Format
    ensures { result ≡ format_of set.now index term }
{
    Format {
        id: set.id,
        drives: set.drives,
        parity: set.parity,
        index,
        term,
    }
}

/// Whether a format is that of the drive of this index of a set, whatever its term.
pub fn is_of(format: &Format, set: &SetPlan, index: u8) -> bool
    ensures { IsTrue result ↔ IsOf set.now index format.now }
{
    format.id == set.id
        && format.drives == set.drives
        && format.parity == set.parity
        && format.index == index
}
