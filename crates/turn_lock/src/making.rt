//! A lock's begin and end.

ghost use Rattle.std.specs.Prelude.{◌≡◌, ℕ, ◌<◌, ◌≤◌, [], ◌∷◌, Some, true, false, IfOk, IfErr};
ghost use Rattle.turn_lock.specs.History.{IsHistory};
ghost use Rattle.turn_lock.specs.Passes.{IsPassOf, made_with, parts_of, seen_by, is_spent, drawn_by, turns_of};
ghost use Rattle.turn_lock.specs.Tickets.{times, between, last_ticket};

use crate::lock::{ALL_PARTS, TurnLock};
use crate::pass::Pass;
use crate::turned::Turned;
use atomic_table::{Refused, Table};
use std::alloc::Global;
use std::snapshot::Snapshot;

impl<T: Turned> TurnLock<T> {
    /// A lock of the value, with its one pass. The first ticket is the number of turns that the value had. It hands the value back for
    /// want of memory.
    pub fn new(alloc: Global, value: T) -> Result<(TurnLock<T>, Pass<T>), T>
        ensures pass { IfOk result (λ r. IsPassOf r.0 r.1 × (parts_of r.1 ≡ ALL_PARTS) × (seen_by r.1 ≡ T.turn value) × (is_spent r.1 ≡ false) × (drawn_by r.1 ≡ []) × (turns_of r.1 ≡ [])) }
        ensures made { IfOk result (λ r. made_with r.0 ≡ value) }
        ensures err { IfErr result (λ back. back ≡ value) }
    {
        let turns = value.turns();
        let about = Snapshot::of(&value);
        let mut slots = Vec::new(alloc);
        if slots.reserve(1).is_err() {
            slots.destroy_empty();
            return Err(value);
        }
        slots.push_reserved(Some(value));
        match Table::new(alloc, &[turns, turns], slots, &about) {
            Ok((table, seat)) => Ok((
                TurnLock { table },
                Pass {
                    parts: ALL_PARTS,
                    seen: turns,
                    looked: 0,
                    seat,
                },
            )),
            Err(Refused { slots }) => Err(only(slots)),
        }
    }

    /// Ends the lock, and gives the value. The turns of the pass are then those that led to it from the value of `new`. A pass that is
    /// spent tells that all tickets were used up. `Err` exactly where the pass has fewer than all parts, since another pass isn't joined.
    pub fn close(self, pass: Pass<T>) -> Result<T, (TurnLock<T>, Pass<T>)>
        requires { IsPassOf self pass }
        ensures ok { IfOk result (λ value. (parts_of pass ≡ ALL_PARTS) × (T.name value ≡ T.name (made_with self)) × (seen_by pass ≤ T.turn value)) }
        ensures spent { IfOk result (λ value. is_spent pass ≡ true → last_ticket ≤ T.turn value) }
        ensures drawn { IfOk result (λ value. (ticket : ℕ) → times ticket (drawn_by pass) ≡ between (T.turn (made_with self)) (T.turn value) ticket) }
        ensures history { IfOk result (λ value. IsHistory T.turn T.name (made_with self) value (turns_of pass)) }
        ensures err { IfErr result (λ back. (parts_of pass < ALL_PARTS) × (back.0 ≡ self) × (back.1 ≡ pass)) }
    {
        let all = ALL_PARTS;
        if pass.parts < all {
            return Err((self, pass));
        }
        let Pass {
            parts: _,
            seen: _,
            looked: _,
            seat,
        } = pass;
        let TurnLock { table } = self;
        let mut closed = table.close_with(seat);
        let Some(value) = closed.take(0) else {
            unreachable!()
        };
        closed.free();
        Ok(value)
    }
}

// The value in the one slot.
fn only<T>(mut slots: Vec<Option<T>>) -> T
    requires { (value : T) × (slots.items ≡ Some value ∷ []) }
    ensures { slots.items ≡ Some result ∷ [] }
{
    let Some(Some(value)) = slots.pop() else {
        unreachable!()
    };
    slots.destroy_empty();
    value
}
