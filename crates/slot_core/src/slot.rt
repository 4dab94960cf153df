//! A slot, and why one refuses a section.

ghost use Rattle.std.specs.Prelude.{◌≡◌, ◌+◌, ◌*◌, ◌<◌, ◌≤◌, ◌^◌, All, length, vec_capacity, vec_len};
ghost use Rattle.slot_history.specs.Contents.{number_of_id};
ghost use Rattle.slot_data.specs.declared.rows.FlightRow.{FlightRow};
ghost use Rattle.slot_data.specs.declared.rows.PinRow.{PinRow};
ghost use Rattle.slot_rules.specs.Fields.{AreApart};

use audit_trail::AuditFault;
use call_types::KeyRefusal;
use register_core::QuorumFault;
use slot_data::{FlightRow, PinRow};
use slot_rules::{Drawn, Site};
use stamp_id::VersionId;

/// What a slot is opened with, and gives back when it is closed.
#[derive(Drop)]
pub struct SlotParts<D, A> {
    /// The lanes, one a drive of the set, in order of index.
    pub lanes: Vec<D>,
    /// The audit.
    pub audit: A,
}

/// A slot that was not opened, since its audit had no place for the entry.
#[derive(Drop)]
pub struct Unopened<D, A> {
    /// What was handed in.
    pub parts: SlotParts<D, A>,
    /// Why.
    pub fault: AuditFault,
}

/// A slot: its lanes, which keep its registers, its audit, and what it keeps in memory. A section is a call on it.
#[derive(Drop)]
pub struct Slot<D, A> {
    pub(crate) lanes: Vec<D>,
    pub(crate) audit: A,
    /// Where the next section is done: the set with the drives that are out in this life, the slot's index, the term, and how many sections were done.
    pub(crate) site: Site,
    /// The numbers that were drawn.
    pub(crate) drawn: Drawn,
    /// The puts under way.
    pub(crate) flights: Vec<FlightRow>,
    /// The pins.
    pub(crate) pins: Vec<PinRow>,
    /// The ids of data that is to be removed.
    pub(crate) trash: Vec<VersionId>,
    pub ghost lanes_of_set: { length lanes.items ≡ site.set.drives },
    pub ghost seq_fits: { drawn.seq < 2 ^ 62 },
    pub ghost count_fits: { drawn.count < 2 ^ 63 },
    pub ghost room_in_trash: { vec_len trash + vec_len flights ≤ vec_capacity trash },
    pub ghost flights_drawn: { All (λ (row : FlightRow). number_of_id row.id ≤ site.term * 2 ^ 64 + drawn.seq) flights.items },
    pub ghost flights_differ: { AreApart flights.items },
    pub ghost pins_before: { All (λ (row : PinRow). row.ticket < site.turns) pins.items },
}

/// Why a section is refused.
#[derive(Clone, Copy, PartialEq, Eq)]
pub enum SlotFault {
    /// The register refused it. Want of memory is `NoMemory`, and never this.
    Quorum(QuorumFault),
    /// The state of the key refuses the call.
    Key(KeyRefusal),
    /// The slot's numbers are spent.
    SeqSpent,
    /// The audit failed: its count of faults before and after.
    AuditFailed {
        /// The count before.
        before: u64,
        /// The count after.
        after: u64,
    },
    /// There was not enough memory. Nothing was written.
    NoMemory,
    /// The put of this id is not in flight.
    NotInFlight(VersionId),
}

/// The last sequence number at which a section may still begin: no section draws more than 16,383.
pub const LAST_SEQ: u64 = (1 << 62) - 16_384;

/// The last counter of loose names at which a section may still begin.
pub const LAST_COUNT: u64 = (1 << 63) - 1_048_576;
