//! HTTP heads and bodies over a counted source.
//!
//! A [`Wire`] stands on a source of io_base, whose contract tells the bytes, and on the grammar of heads of `httparse`,
//! in whose words its own contract speaks: a head is given exactly where the bytes that came begin with one of at most
//! 65,536 bytes and 64 header lines, BadHead comes exactly where no continuation of the bytes is a head before a limit
//! is reached (but for a target that is no UTF-8, which shows at its end), or where `Content-Length` says no number or
//! two, and HeadTooLong where a limit is reached. [`head_laws`] says that these exclude each other, and that the pieces in
//! which bytes come change nothing.
//!
//! Nothing is taken from the source while what is at hand decides, and what is behind a head waits for its body and for
//! the next head; [`wire_laws`] says that what is given is what was unread, in order. After a refusal the wire gives the
//! same one again and takes nothing more.
//!
//! A head that comes in single bytes is parsed anew at each: its cost is bounded by 65,536 such judgements.
#![tactic(auto)]

mod arrival;
mod fault;
mod framing;
mod head;
mod judging;
mod line_limit;
mod names;
mod reading;
mod window;
mod wire;

pub use fault::WireFault;
pub use head::Head;
pub use judging::head_laws;
pub use wire::{Wire, wire_laws};
