//! Ballots and change ids.

ghost use Rattle.std.specs.Prelude.{◌<◌, ◌^◌};

/// One round of writing: a term, and a sequence number within it. Their order is that of [`rank`](crate::rank).
#[derive(Clone, Copy, PartialEq, Eq, Hash)]
pub struct Ballot {
    /// The term, below 2^48.
    pub term: u64,
    /// The sequence number, below 2^62.
    pub seq: u64,
    pub ghost term_fits: { term < 2 ^ 48 },
    pub ghost seq_fits: { seq < 2 ^ 62 },
}

/// The name of one change: the ballot under which it was first proposed.
#[derive(Clone, Copy, PartialEq, Eq, Hash)]
pub struct ChangeId(pub Ballot);
