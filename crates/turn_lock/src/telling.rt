//! What a pass and a value that is out tell.

ghost use Rattle.std.specs.Prelude.{◌≡◌};
ghost use Rattle.turn_lock.specs.Passes.{parts_of, seen_by, is_spent, ticket_of};

use crate::pass::{Held, Pass};

impl<T> Pass<T> {
    /// How many turns of the value the pass has seen: those before the lock was made, or up to the last turn of its own or of a pass
    /// that it was joined with or split from.
    pub fn seen(&self) -> u64
        ensures { result ≡ seen_by self.now }
    {
        self.seen
    }

    /// How many of the 65,536 parts of the right to close the lock it has.
    pub fn parts(&self) -> u64
        ensures { result ≡ parts_of self.now }
    {
        self.parts
    }

    /// Whether `take` refused it, or one that it was joined with or split from: the lock has no ticket left.
    pub fn spent(&self) -> bool
        ensures { result ≡ is_spent self.now }
    {
        self.looked == u64::MAX
    }
}

impl<T> Held<T> {
    /// The ticket, which is the number of turns that the value had when its turn began.
    pub fn ticket(&self) -> u64
        ensures { result ≡ ticket_of self.now }
    {
        self.ticket
    }
}
