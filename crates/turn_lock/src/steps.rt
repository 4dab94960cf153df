//! The rule of a lock's table, and the names of its steps.
//!
//! A lock makes eight kinds of step: it splits a pass, joins two (and reads then that one has no more than all parts), looks at the next
//! ticket, draws it, looks at the ticket whose turn it is (which hands out the slot), takes the value out of the slot, puts it back,
//! and ends a turn. Taking and putting are plain accesses, since the slot is then out with one seat.

ghost use Rattle.std.specs.Prelude.{ℕ};
ghost use Rattle.turn_lock.specs.Order.{Ordered};
ghost use Rattle.turn_lock.specs.Steps.{Looks, Draws, Weighs, Serves, Advances};
ghost use Rattle.turn_lock.specs.Views.{first, cut, part, joined, gone};

use crate::turned::Turned;
use crate::view::View;
use atomic_table::{Join, Play, Split, TableRule};
use std::marker::{Brand, PhantomData};
use std::snapshot::Snapshot;

/// The rule of a lock of a `T`.
pub struct InTurn<T> {
    of: PhantomData<T>,
}

impl<T: Turned> TableRule<Option<T>, View<T>, Snapshot<T>> for InTurn<T> {
    ghost holds = { λ of. Ordered T.turn T.name of.value };

    ghost first = { λ of. first (T.turn of.value) of.value };
}

/// A look at the next ticket.
pub struct Look;

impl<T> Play<Option<T>, View<T>> for Look {
    ghost then = { Looks };
}

/// A ticket drawn.
pub struct Draw;

impl<T> Play<Option<T>, View<T>> for Draw {
    ghost then = { Draws };
}

/// A look at the ticket whose turn it is.
pub struct Serve<T> {
    of: PhantomData<T>,
}

impl<T: Turned> Play<Option<T>, View<T>> for Serve<T> {
    ghost then = { Serves T.turn T.name };
}

/// The end of a turn.
pub struct Advance;

impl<T> Play<Option<T>, View<T>> for Advance {
    ghost then = { Advances };
}

/// That a pass has no more than all parts.
pub struct Weigh;

impl<T> Play<Option<T>, View<T>> for Weigh {
    ghost then = { Weighs };
}

/// How many parts go to the second pass. Each call picks it.
pub trait Amount {
    ghost amount: { ℕ };
}

impl Amount for Brand {
    ghost amount = { 1 };
}

/// A pass cut in two.
pub struct Cut<A> {
    of: PhantomData<A>,
}

impl<T, A: Amount> Split<View<T>> for Cut<A> {
    ghost left = { cut A.amount };

    ghost right = { part A.amount };
}

/// Two passes made one.
pub struct Both;

impl<T> Join<View<T>> for Both {
    ghost both = { joined };

    ghost spent = { gone };
}
