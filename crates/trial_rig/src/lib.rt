//! What a trial program over slots stands on: memory drives, slots over them, calls served step by
//! step, and outcomes in words.
//!
//! A [`Store`] has slots of a set over memory drives, each with its index, and the data drives. Its rows are steps: a life of
//! a slot begins, a section is done, drives are lost, hurt or fail after so many calls. A [`Caller`] does the steps of one op
//! on such a store, with a feed of its body and a teller that keeps what it is told. A [`Line`] is an answer that grows word
//! by word.
//!
//! It stands on `slot_core` for slots, on `op_steps` for ops and on `trial_base` for rows, and promises nothing but that it is safe: what it does is
//! shown by the rows.
#![tactic(auto)]

mod audit;
mod caller;
mod calling;
mod deeds;
mod feeding;
mod home;
mod homes;
mod line;
mod lives;
mod outcomes;
mod plans;
mod registers;
mod replies;
mod sections;
mod source;
mod store;
mod teller;
mod troubles;

pub use audit::FrailAudit;
pub use caller::Caller;
pub use calling::say_next;
pub use deeds::{deed_of, mode_of, moment_of, pick_of};
pub use home::Home;
pub use homes::{is_ready, open_home};
pub use line::Line;
pub use outcomes::{
    mode_word, say_audit_fault, say_change, say_entry, say_fault, say_id, say_pick, say_stub,
    say_version_name,
};
pub use plans::{is_one, plan_of};
pub use registers::{key_of, register_name, text_of};
pub use replies::{say_brief, say_cut, say_refusal, say_reply, say_version, say_whys};
pub use source::Source;
pub use store::Store;
pub use teller::RecordingTeller;
