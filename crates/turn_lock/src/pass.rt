//! A pass, and a value that is out with a pass.

ghost use Rattle.std.specs.Prelude.{◌≡◌, ℕ, ◌<◌, ◌≤◌, [], ◌∷◌, Some, None};
ghost use Rattle.turn_lock.specs.declared.lock.TheConstants.{ALL_PARTS};
ghost use Rattle.turn_lock.specs.Tickets.{last_ticket};

use crate::view::View;
use atomic_table::Seat;
use std::snapshot::Snapshot;

/// The right to draw tickets of one lock, one after another. It ends in `join` or `close`: where one is dropped, its parts are gone and
/// the lock can't be closed any more.
///
/// Contracts see which lock it is of, its parts, how many turns it has seen, the turns that it made with their tickets, and whether it is
/// spent.
#[derive(Drop)]
pub struct Pass<T> {
    /// Its parts of the right to close the lock.
    pub(crate) parts: u64,
    /// How many turns it has seen.
    pub(crate) seen: u64,
    /// The next ticket, as the pass found it last, and 0 before that.
    pub(crate) looked: u64,
    pub(crate) seat: Seat<Option<T>, View<T>>,
    ghost some_part: { (0 < parts) × (parts ≤ ALL_PARTS) },
    ghost view_is: { (seat.me.0.parts ≡ parts) × (seat.me.0.seen ≡ seen) × (seat.me.0.looked ≡ looked) },
    ghost at_rest: { (seat.me.0.ticket ≡ None) × (seat.me.0.lent ≡ None) × (seat.me.1 ≡ []) },
}

/// The value of a lock, with the one whose turn it is. It has no `Drop`: it ends in `give`.
pub struct Held<T> {
    /// The value.
    pub value: T,
    /// The value as it went out.
    pub(crate) lent: Snapshot<T>,
    /// The number of turns that it had when it went out.
    pub(crate) ticket: u64,
    /// The parts of the pass that has it.
    pub(crate) parts: u64,
    pub(crate) seat: Seat<Option<T>, View<T>>,
    ghost some_part: { (0 < parts) × (parts ≤ ALL_PARTS) },
    ghost not_last: { ticket < last_ticket },
    ghost view_is: { (seat.me.0.parts ≡ parts) × (seat.me.0.looked ≡ ticket) },
    ghost in_turn: { (seat.me.0.ticket ≡ Some ticket) × (seat.me.0.lent ≡ Some lent.value) × (seat.me.1 ≡ (0, None) ∷ []) },
}
