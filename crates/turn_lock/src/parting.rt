//! Passes cut in two, and joined.

ghost use Rattle.std.specs.Prelude.{◌≡◌, ◌+◌, ◌<◌, max, [], ◌++◌, ◌||◌};
ghost use Rattle.turn_lock.specs.Passes.{IsPassOf, parts_of, seen_by, is_spent, drawn_by, turns_of};

use crate::lock::{NEXT, TurnLock};
use crate::pass::Pass;
use crate::steps::{Amount, Both, Cut, Weigh};
use crate::turned::Turned;
use std::marker::Brand;

impl<T: Turned> TurnLock<T> {
    /// Cuts a pass in two: one with the rest of its parts and with its turns, and one with `parts` and no turn.
    pub fn split(&self, pass: Pass<T>, parts: u64) -> (Pass<T>, Pass<T>)
        requires { IsPassOf self.now pass × (0 < parts) × (parts < parts_of pass) }
        ensures both { IsPassOf self.now result.0 × IsPassOf self.now result.1 }
        ensures parts { (parts_of result.0 + parts ≡ parts_of pass) × (parts_of result.1 ≡ parts) }
        ensures seen { (seen_by result.0 ≡ seen_by pass) × (seen_by result.1 ≡ seen_by pass) }
        ensures spent { (is_spent result.0 ≡ is_spent pass) × (is_spent result.1 ≡ is_spent pass) }
        ensures drawn { (drawn_by result.0 ≡ drawn_by pass) × (drawn_by result.1 ≡ []) }
        ensures turns { (turns_of result.0 ≡ turns_of pass) × (turns_of result.1 ≡ []) }
    {
        self.cut::<Brand>(pass, parts)
    }

    fn cut<A: Amount>(&self, pass: Pass<T>, parts: u64) -> (Pass<T>, Pass<T>)
        requires { IsPassOf self.now pass × (0 < parts) × (parts < parts_of pass) × (parts ≡ A.amount) }
        ensures both { IsPassOf self.now result.0 × IsPassOf self.now result.1 }
        ensures parts { (parts_of result.0 + parts ≡ parts_of pass) × (parts_of result.1 ≡ parts) }
        ensures seen { (seen_by result.0 ≡ seen_by pass) × (seen_by result.1 ≡ seen_by pass) }
        ensures spent { (is_spent result.0 ≡ is_spent pass) × (is_spent result.1 ≡ is_spent pass) }
        ensures drawn { (drawn_by result.0 ≡ drawn_by pass) × (drawn_by result.1 ≡ []) }
        ensures turns { (turns_of result.0 ≡ turns_of pass) × (turns_of result.1 ≡ []) }
    {
        let Pass {
            parts: all,
            seen,
            looked,
            mut seat,
        } = pass;
        let other = self.table.shared.split_seat::<Cut<A>>(&mut seat);
        (
            Pass {
                parts: all - parts,
                seen,
                looked,
                seat,
            },
            Pass {
                parts,
                seen,
                looked,
                seat: other,
            },
        )
    }

    /// Makes two passes one, which has the parts and the turns of both and has seen the later of what both have seen.
    pub fn join(&self, one: Pass<T>, other: Pass<T>) -> Pass<T>
        requires { IsPassOf self.now one × IsPassOf self.now other }
        ensures pass { IsPassOf self.now result × (parts_of result ≡ parts_of one + parts_of other) }
        ensures seen { seen_by result ≡ max (seen_by one) (seen_by other) }
        ensures spent { is_spent result ≡ is_spent one || is_spent other }
        ensures drawn { drawn_by result ≡ drawn_by one ++ drawn_by other }
        ensures turns { turns_of result ≡ turns_of one ++ turns_of other }
    {
        let Pass {
            parts,
            seen,
            looked,
            mut seat,
        } = one;
        let Pass {
            parts: more,
            seen: also_seen,
            looked: also_looked,
            seat: gone,
        } = other;
        let shared = &self.table.shared;
        shared.join_seat::<Both>(&mut seat, gone);
        shared.load::<Weigh>(&mut seat, NEXT);
        Pass {
            parts: parts + more,
            seen: seen.max(also_seen),
            looked: looked.max(also_looked),
            seat,
        }
    }
}
