//! The order of ballots, as their ranks.

ghost use Rattle.std.specs.Prelude.{◌≡◌};
ghost use Rattle.stamp_id.specs.Rank.{rank_of, RanksAreOneToOne, RanksAreInOrder};

use crate::stamp::Ballot;

/// The rank of a ballot: one number in which the term counts before the sequence number. It is the one order of
/// ballots, and of changes by the ballots that they are named for.
pub fn rank(ballot: Ballot) -> u128
    ensures { result ≡ rank_of ballot }
{
    (u128::from(ballot.term) << 64) + u128::from(ballot.seq)
}

/// The laws of ranks, for a caller's proof: they are one to one with ballots, and a later term, or a later sequence
/// number of the same term, has the greater rank. It does nothing.
pub fn rank_laws()
    ensures one { RanksAreOneToOne }
    ensures order { RanksAreInOrder }
{}
