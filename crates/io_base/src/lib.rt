//! Where bytes come from and go to, and what tells the time: counted sources, counted sinks, clocks, doors that give
//! connections, and what does works beside one another.
//!
//! The crate stands on `fault_base` and `ghost_note`. What reads or writes takes a `Source` or a
//! `Sink`, so that its contract can name the bytes. One in memory tells them, and fails at chosen
//! calls; one over the outside doesn't tell what is left to take, and is where trust in the system
//! begins. Of a reader or a writer that tells its bytes even that one loses, repeats and changes none.
//!
//! Each source tells the takes that were asked of it, and each sink the gives, with what each answered
//! (`TakeCall` and `GiveCall` of `specs/Trail`), whatever the world behind it tells. No code sees them.
//!
//! Each source and each sink counts its faults. A call fails only where that count rose in the call,
//! or stands at its last value, and no call lets it fall. A take that fails loses no byte. A give
//! that fails added a front part of its bytes. What several calls did, one after the other, is put
//! together by the lemmas of `proofs/Taking`, `proofs/Giving` and `proofs/Counting`.
//!
//! A `Clock` answers a moment that a date with a year of four digits can show, and never fails.
//!
//! A `Door` gives connections, each as a source and a sink, until it is over, and takes them back. One in memory tells the
//! pairs that it gave and those that came back, and so does one over TCP. That one fails only where it can't be made or the
//! system takes no connection for it, and cuts peers that are idle, slow or take nothing (`TcpLimits`).
//!
//! A `Spawner` does `Work`s, each by a thread of its own or one after another, and hands all of them back: those done are over,
//! those that could not be started are as they were, and counted.
#![tactic(auto)]

mod clock;
mod door;
mod fault;
mod memory_door;
mod memory_sink;
mod memory_source;
mod pace;
mod sink;
mod source;
mod spawner;
mod standard_sink;
mod standard_source;
mod tcp_door;
mod tcp_ends;
mod tcp_limits;
mod trail;
mod turns;
mod work;

pub use clock::{Clock, MOMENT_LIMIT, MemClock, SystemClock};
pub use door::Door;
pub use fault::IoFault;
pub use memory_door::MemDoor;
pub use memory_sink::MemSink;
pub use memory_source::MemSource;
pub use sink::Sink;
pub use source::Source;
pub use spawner::Spawner;
pub use standard_sink::StdSink;
pub use standard_source::StdSource;
pub use tcp_door::TcpDoor;
pub use tcp_ends::{TcpIn, TcpOut, TcpReader, TcpWriter};
pub use tcp_limits::TcpLimits;
pub use trail::{Takes, no_takes, one_take};
pub use turns::Turns;
pub use work::{Spawned, Work};
