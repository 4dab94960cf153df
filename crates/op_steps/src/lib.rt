//! The steps of an op on a store, and the one loop that does them for every op.
//!
//! An [`Op`] does what a caller asks, or work of the store's own, step by step: a step is a section of a slot, a call of a data drive, some bytes of the body,
//! or a telling. Its contracts say what each step adds to its log and what the event does to the store (`specs/Words.antt`, `specs/Moves.antt`), and where
//! nothing is left that each log which it may have is owed: of a call, that it pays what the call owes (`Pays` of `receipts`). What an op holds of its slot and
//! of the data drives between two steps is its claim, plain data (`specs/Claims.antt`); each step is said over whatever other ops claim, so ops need to know
//! nothing of one another.
//!
//! [`run_op`] does the steps of any op, over data drives and whoever gives the sections of 64 slots ([`Turns`]), and [`call_op`] serves a call by it. [`turn`]
//! is a section of a store that an op has for itself, and `Ran` a log of steps on one. The laws give an op the steps that leave whatever it claims. What any log
//! leaves of a store is said in `log_laws`. The crate stands on `receipts` for what is owed, on `slot_core`, `slot_history` and `slot_data` for slots and their
//! data, on `put_stage` for the names of an id's files, and on `desk_base` for calls and tellers.
#![tactic(auto)]

mod laws;
mod looking;
mod next;
mod op;
mod refusing;
mod run;
mod turning;
mod turns;

pub use laws::{commit_law, look_law, names_law, own_files_law, read_law};
pub use looking::{Look, Looked, look_at_bucket};
pub use next::OpNext;
pub use op::Op;
pub use refusing::{call_refusal, section_refusal};
pub use run::{Served, call_op, run_op, step_op};
pub use turning::turn;
pub use turns::Turns;
