//! A connection over any desk: requests one after another, each answered in full before the next is read.
//!
//! [`serve_connection`] reads heads from a source. It has the desk serve the call of each, or refuses it, and gives the replies to a sink.
//! It stands on `http_wire` for heads and bodies, on `s3_request` for calls, on `s3_reply` for texts and on `desk_base` for desks.
//!
//! It promises a [`Session`](../specs/Session.antt): a list of exchanges, and an end with its cause.
//! The requests of the exchanges are the bytes that were taken, and their texts are the bytes that were given, in order.
//! Each exchange is a call of the desk, or a refusal that the head explains.
//! The crate knows nothing of what a desk is: each exchange moves the pass as the desk's own relation says.
//!
//! A [`ServeWork`] serves the connections of a door so, one after another, and hands each back.
//! It is a work for a thread: workers share one desk, and each has a pass and a door of its own.
//! It stands on `io_base` for doors and works.
//!
//! A 5xx refusal, except 501, means that the store itself is the trouble. A line on standard error says so too.
//! The crate promises nothing of that line.
#![tactic(auto)]

mod connection;
mod ends;
mod exchange;
mod intake;
mod manner;
mod replies;
mod works;

pub use connection::{MOST_REQUESTS, Served, serve_connection};
pub use ends::{ConnectionEnd, DoorEnd};
pub use exchange::MOST_BODY;
pub use works::ServeWork;
