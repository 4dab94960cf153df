//! The numbers that a slot draws.

ghost use Rattle.std.specs.Prelude.{◌≡◌, ◌+◌, ◌<◌, ◌^◌};

use stamp_id::Ballot;

/// The next number of a slot in this term.
pub fn next_ballot(term: u64, seq: u64) -> Ballot
    requires term { term < 2 ^ 48 }
    requires seq { seq + 1 < 2 ^ 62 }
    ensures term { result.term ≡ term }
    ensures seq { result.seq ≡ seq + 1 }
{
    Ballot { term, seq: seq + 1 }
}
