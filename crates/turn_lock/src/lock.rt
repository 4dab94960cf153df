//! The lock as a value.

ghost use Rattle.std.specs.Prelude.{◌≡◌};

use crate::steps::InTurn;
use crate::turned::Turned;
use crate::view::View;
use atomic_table::Table;
use std::alloc::Global;
use std::snapshot::Snapshot;

/// The parts of the right to close a lock, which the pass of `new` has.
pub const ALL_PARTS: u64 = 65_536;

/// The word of the next ticket.
pub(crate) const NEXT: usize = 0;

/// The word of the ticket whose turn it is.
pub(crate) const SERVING: usize = 1;

/// A lock that lends one value to one thread at a time, in the order of tickets.
#[derive(Drop)]
pub struct TurnLock<T: Turned> {
    pub(crate) table: Table<Option<T>, View<T>, Snapshot<T>, InTurn<T>, Global>,
    ghost sized: { (table.shared.table_id.words ≡ 2) × (table.shared.table_id.slots ≡ 1) },
}
