//! What a slot writes down: one entry for each section that it did, in their order.
//!
//! An [`Audit`] takes entries. A place is made first, by `reserve`, which may find no memory or fail; the entry is then
//! put in it by `add`, which takes no memory and can't fail. So a section asks for its place before its first write,
//! and what it did is written down however it ends. [`MemAudit`] keeps its entries and tells them, [`LineAudit`] writes
//! a line for each to a sink, and [`NullAudit`] keeps nothing.
//!
//! An audit that tells its entries has after `add` those that it had and the new one, and `reserve` changes none.
//! `reserve` answers `Failed` only where the audit's count of faults rose. Each clone of an entry is equal to it.
//!
//! The crate stands on `call_types` for calls and replies as plain data, on `stamp_id` for changes, on `seal_file` for
//! texts, on `io_base` for sinks and on `fault_base` for counts.
#![tactic(auto)]

mod audit;
mod clones;
mod entry;
mod laws;
mod lines;
mod memory;
mod silent;

pub use audit::{Audit, AuditFault};
pub use entry::{Deed, Entry};
pub use laws::line_laws;
pub use lines::LineAudit;
pub use memory::MemAudit;
pub use silent::NullAudit;
