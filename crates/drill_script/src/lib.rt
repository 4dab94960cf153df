//! The lines of a drill script, and their grammar.
//!
//! [`read_script`] reads bytes as the [`Line`]s of a script exactly where they spell one (`Spells` of the specs), and else
//! answers the number of the first line that is none (`IsFirstBad`). A [`ScriptReader`] does so with bytes that come in
//! pieces, and says exactly where no more need to come: a line is too long then, or there is one too many (`IsOver`).
//! [`script_laws`] says that bytes spell one script at most or have one first bad line, and never both.
//!
//! The section "Drill scripts" of `docs/FORMATS.md` has the grammar. Lines that it doesn't have are bad ones, as `heal`,
//! `sweep`, `expire`, `rput`, `swap` and `admit` are. A script is read whole before anything of it is done, so nothing is
//! done of one that has a bad line.
//!
//! The crate stands on `call_types`, `seal_file` and `stamp_id` for what lines name, and on `fault_base`. It says nothing of
//! what lines do.
#![tactic(auto)]

mod fault;
mod fields;
mod kind;
mod line;
mod next;
mod reading;
mod script;
mod standing;
mod words;

pub use fault::ScriptFault;
pub use line::Line;
pub use script::{ScriptReader, read_script, script_laws};
