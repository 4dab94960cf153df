//! Heads and pieces of replies, and how they are told.

ghost use Rattle.desk_base.specs.Telling.Telling.{Head as TheHead, Piece};
ghost use Rattle.op_steps.specs.Moves.{TellMoves};
ghost use Rattle.op_steps.specs.Store.{teller_of};

use call_types::{Cut, Reply};
use desk_base::Teller;

/// Tells the head of a reply.
pub(crate) fn tell_head<T: Teller>(teller: &mut T, reply: &Reply) -> Option<Cut>
    ensures { TellMoves T.takes T.breaks (TheHead reply.now) result (teller_of teller.old (T.faults teller.old)) (teller_of teller.new (T.faults teller.new)) }
{
    teller.head(reply).err()
}

/// Tells a piece of a body.
pub(crate) fn tell_piece<T: Teller>(teller: &mut T, piece: &[u8]) -> Option<Cut>
    ensures { TellMoves T.takes T.breaks (Piece piece.now) result (teller_of teller.old (T.faults teller.old)) (teller_of teller.new (T.faults teller.new)) }
{
    teller.piece(piece).err()
}
