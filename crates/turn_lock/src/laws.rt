//! The law of histories.

ghost use Rattle.turn_lock.specs.History.{HistoryTellsTurns};

use crate::turned::Turned;

/// The law of histories, for a caller's proof. It does nothing.
///
/// The turns of a history are exactly those that led from the value at each count, from the first value's on and below the last one's, to
/// the next value.
pub fn history_law<T: Turned>()
    ensures { HistoryTellsTurns T.turn T.name }
{}
