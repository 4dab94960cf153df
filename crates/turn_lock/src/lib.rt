//! A lock whose holders take turns by tickets, in the order in which they drew them.
//!
//! A [`TurnLock`] holds one value that counts its own turns ([`Turned`]). A thread with a [`Pass`] draws a ticket, waits until the turns of
//! all tickets before it are over, has the value as a [`Held`] of its own, and gives it back with one turn more. So the ticket of a
//! holder is the number of turns that the value had before, and whoever sees a ticket knows where its turn stands among all.
//!
//! The lock stands on `atomic_table`: a word for the next ticket, a word for the ticket whose turn it is (serving), and a slot with the
//! value. The definitions say what holds of these and of all passes between any two steps. What a pass knows keeps the turns that it made
//! ([`Turn`]), in proofs alone.
//!
//! What is promised: one thread at a time has the value; its turns are then the ticket, and its name is that of the value of `new`. A
//! pass's next ticket is never below the turns that it has seen. A lock is closed exactly where its passes are joined again, and the
//! tickets drawn by then are the numbers from the first value's turns to the last one's, each once. The turns of all passes are then the
//! history of the value: there was one value at each count of turns, from that of `new` to that of `close`, and the turn of each ticket
//! led from the value at this count to the next ([`history_law`]). Waiting ends only if the others give back what they took; that isn't
//! promised.
#![tactic(auto)]

mod laws;
mod lock;
mod making;
mod parting;
mod pass;
mod steps;
mod taking;
mod telling;
mod turned;
mod view;

pub use laws::history_law;
pub use lock::{ALL_PARTS, TurnLock};
pub use pass::{Held, Pass};
pub use turned::Turned;
pub use view::Turn;

#[cfg(test)]
mod tests;
