//! What a pass knows and has, and the turns that it made, as the lock's rule sees them.

use std::collections::LinkedList;

/// One turn: its ticket, the value as it went out, and as it came back. No value of it is made: it stands in proofs alone.
pub struct Turn<T> {
    /// The ticket, which is the number of turns that the value had before.
    pub ticket: u64,
    /// The value as it went out.
    pub from: T,
    /// The value as it came back.
    pub to: T,
}

/// What one pass knows of its lock, and what it has of it. No value of it is made: it stands in proofs alone.
pub struct View<T> {
    /// Its parts of the right to close the lock.
    pub parts: u64,
    /// How many turns it has seen.
    pub seen: u64,
    /// The next ticket, as it found it last.
    pub looked: u64,
    /// The ticket whose turn it waits for or has.
    pub ticket: Option<u64>,
    /// The value as it went out, while the pass has it.
    pub lent: Option<T>,
    /// The turns that it made.
    pub done: LinkedList<Turn<T>>,
    /// The value that the lock was made with, where it has a part.
    pub of: Option<T>,
}
