//! A turn: the draw of a ticket, the wait for it, and the end.

ghost use Rattle.std.specs.Prelude.{◌≡◌, ◌+◌, ◌<◌, ◌≤◌, [], ◌∷◌, ◌++◌, Some, None, true, false, IfOk, IfErr, IfSome, IfNone};
ghost use Rattle.turn_lock.specs.Passes.{IsPassOf, IsHeldOf, made_with, parts_of, seen_by, is_spent, drawn_by, ticket_of, parts_held, drawn_so_far, turns_of, turns_so_far, lent_to, this_turn};
ghost use Rattle.turn_lock.specs.Steps.{DrewTicket, Lends};
ghost use Rattle.turn_lock.specs.History.{tickets};
ghost use Rattle.turn_lock.specs.Tickets.{times, last_ticket};
ghost use Rattle.turn_lock.specs.Views.{looked};

use crate::lock::{NEXT, SERVING, TurnLock};
use crate::pass::{Held, Pass};
use crate::steps::{Advance, Draw, Look, Serve};
use crate::turned::Turned;
use crate::view::View;
use std::snapshot::Snapshot;
use std::sync::Wait;

// A sleeper's word is compared by its low 32 bits.
const LOW: u64 = 1 << 32;

type Seat<T> = atomic_table::Seat<Option<T>, View<T>>;

impl<T: Turned> TurnLock<T> {
    /// Draws a ticket, waits for its turn and has the value. `Err` where the lock has no ticket left, and then the pass is spent: the next
    /// ticket stands at `u64::MAX`, since no value could count the turn after that one.
    pub fn take<R: Wait>(&self, rt: &R, pass: Pass<T>) -> Result<Held<T>, Pass<T>>
        requires { IsPassOf self.now pass }
        ensures held { IfOk result (λ held. IsHeldOf self.now held × (parts_held held ≡ parts_of pass) × (drawn_so_far held ≡ drawn_by pass ++ ticket_of held ∷ [])) }
        ensures value { IfOk result (λ held. (T.turn held.value ≡ ticket_of held) × (T.name held.value ≡ T.name (made_with self.now))) }
        ensures ticket { IfOk result (λ held. (seen_by pass ≤ ticket_of held) × (ticket_of held < last_ticket) × (times (ticket_of held) (drawn_by pass) ≡ 0)) }
        ensures turns { IfOk result (λ held. (turns_so_far held ≡ turns_of pass) × (lent_to held ≡ held.value)) }
        ensures spent { IfOk result (λ _. is_spent pass ≡ false) }
        ensures err { IfErr result (λ back. IsPassOf self.now back × (is_spent back ≡ true) × (parts_of back ≡ parts_of pass) × (seen_by back ≡ seen_by pass) × (drawn_by back ≡ drawn_by pass) × (turns_of back ≡ turns_of pass)) }
    {
        let Pass {
            parts,
            seen,
            looked: _,
            mut seat,
        } = pass;
        let Some(ticket) = self.draw(rt, &mut seat) else {
            return Err(Pass {
                parts,
                seen,
                looked: u64::MAX,
                seat,
            });
        };
        self.wait(rt, &mut seat, ticket);
        let value = self.table.shared.exchange(&mut seat, 0, None).unwrap();
        let lent = Snapshot::of(&value);
        Ok(Held {
            value,
            lent,
            ticket,
            parts,
            seat,
        })
    }

    // A ticket, or none where there is none left.
    fn draw<R: Wait>(&self, rt: &R, seat: &mut Seat<T>) -> Option<u64>
        requires seat { (seat.old.table_id ≡ self.now.table.shared.table_id) × (0 < seat.old.me.0.parts) × (seat.old.me.0.ticket ≡ None) }
        ensures same { seat.new.table_id ≡ seat.old.table_id }
        ensures some { IfSome result (λ ticket. DrewTicket seat.old.me ticket seat.new.me) }
        ensures none { IfNone result (seat.new.me ≡ (looked last_ticket seat.old.me.0, seat.old.me.1)) }
    {
        let shared = &self.table.shared;
        for _ in rt.forever() {
            let next = shared.load::<Look>(seat, NEXT);
            if next == u64::MAX {
                return None;
            }
            if shared.compare_exchange::<Draw>(seat, NEXT, next, next + 1) == next {
                return Some(next);
            }
        }
        unreachable!()
    }

    // Waits for the ticket's turn. The slot is then out with the seat.
    fn wait<R: Wait>(&self, rt: &R, seat: &mut Seat<T>, ticket: u64)
        requires seat { (seat.old.table_id ≡ self.now.table.shared.table_id) × (seat.old.me.0.ticket ≡ Some ticket) × (seat.old.me.0.lent ≡ None) }
        ensures same { seat.new.table_id ≡ seat.old.table_id }
        ensures lent { Lends T.turn T.name seat.old.me.0.of ticket seat.old.me seat.new.me }
    {
        let shared = &self.table.shared;
        for _ in rt.forever() {
            let serving = shared.load::<Serve<T>>(seat, SERVING);
            if serving == ticket {
                return;
            }
            shared.park(rt, SERVING, (serving % LOW) as u32);
        }
    }

    /// Gives the value back, which had one turn more since, so that the turn of the next ticket begins. This turn is then one of the pass: it
    /// led from the value as it went out to the value as it comes back.
    pub fn give(&self, held: Held<T>) -> Pass<T>
        requires { IsHeldOf self.now held × (T.turn held.value ≡ ticket_of held + 1) × (T.name held.value ≡ T.name (made_with self.now)) }
        ensures pass { IsPassOf self.now result × (parts_of result ≡ parts_held held) × (seen_by result ≡ ticket_of held + 1) × (is_spent result ≡ false) }
        ensures drawn { drawn_by result ≡ drawn_so_far held }
        ensures turns { turns_of result ≡ turns_so_far held ++ this_turn held ∷ [] }
    {
        let Held {
            value,
            lent: _,
            ticket,
            parts,
            mut seat,
        } = held;
        let shared = &self.table.shared;
        let next = ticket + 1;
        let was = shared.exchange(&mut seat, 0, Some(value));
        let None = was else { unreachable!() };
        shared.store::<Advance>(&mut seat, SERVING, next);
        if shared.peek(NEXT) != next {
            shared.wake_all(SERVING);
        }
        Pass {
            parts,
            seen: next,
            looked: ticket,
            seat,
        }
    }
}
