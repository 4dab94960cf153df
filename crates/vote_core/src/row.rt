//! Rows: what was read of each lane.

ghost use Rattle.std.specs.Prelude.{◌≡◌};
ghost use Rattle.vote_core.specs.Row.{is_good, base_height, next_height, base_change, next_change, carries};

use stamp_id::{Ballot, ChangeId, rank};

/// What was read of one lane.
#[derive(Clone, Copy, PartialEq, Eq)]
pub enum Row {
    /// No good file: the lane is out, its read failed, or what it showed is damaged.
    Bad,
    /// A good file. An absent file is one too: its ballot, its change and its content are zero, and it has no next.
    Good {
        /// The ballot of the base.
        base: Ballot,
        /// The change that made the base.
        change: ChangeId,
        /// What is on its way, if anything.
        next: Option<NextRow>,
    },
}

/// A change on its way.
#[derive(Clone, Copy, PartialEq, Eq)]
pub struct NextRow {
    /// The ballot under which it was last proposed.
    pub ballot: Ballot,
    /// The change.
    pub change: ChangeId,
    /// Whether it adds data.
    pub adds: bool,
}

/// The height of a row's base: 0 where the row isn't good, else one more than the rank of its ballot.
pub fn base_height(row: Row) -> u128
    ensures { result ≡ base_height row }
{
    match row {
        Row::Bad => 0,
        Row::Good { base, .. } => 1 + rank(base),
    }
}

/// The height of a row's next: 0 where there is none, else one more than the rank of its ballot.
pub fn next_height(row: Row) -> u128
    ensures { result ≡ next_height row }
{
    match row {
        Row::Good {
            next: Some(next),
            ..
        } => 1 + rank(next.ballot),
        _ => 0,
    }
}

/// The number of a base's change, 0 where the row isn't good.
pub fn base_change(row: Row) -> u128
    ensures { result ≡ base_change row }
{
    match row {
        Row::Bad => 0,
        Row::Good { change, .. } => rank(change.0),
    }
}

/// The number of a next's change, 0 where there is none.
pub fn next_change(row: Row) -> u128
    ensures { result ≡ next_change row }
{
    match row {
        Row::Good {
            next: Some(next),
            ..
        } => rank(next.change.0),
        _ => 0,
    }
}

/// Whether a row is good and has the change of this number in base or next.
pub fn carries(row: Row, number: u128) -> bool
    ensures { result ≡ carries number row }
{
    match row {
        Row::Bad => false,
        Row::Good {
            change,
            next: None,
            ..
        } => rank(change.0) == number,
        Row::Good {
            change,
            next: Some(next),
            ..
        } => rank(change.0) == number || rank(next.change.0) == number,
    }
}

impl Row {
    /// Whether a good file was read.
    pub fn is_good(&self) -> bool
        ensures { result ≡ is_good self.now }
    {
        match self {
            Row::Bad => false,
            Row::Good { .. } => true,
        }
    }
}
