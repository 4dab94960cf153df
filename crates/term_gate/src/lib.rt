//! The format files of the data drives, and the term of a new life of the store.
//!
//! Each data drive keeps a format file: which drive of which set it is, and the term of the opening that wrote it last.
//! [`open_set`] reads these files, refuses drives that are not those of the set, and writes a new term, one above the
//! greatest that it read, on every drive that isn't out. Where enough drives took it, no life of the set had that term
//! before, and it is above every term that enough drives kept. [`survey`] reads the files and changes nothing.
//!
//! A term that enough drives keep is kept by as many after each opening, also one that is refused, and an opening that can
//! succeed is refused for want of memory alone ([`opening_laws`]).
//!
//! Each refusal has its cause, in a fixed order, and before the first write nothing is changed. Of a drive that tells
//! what it holds it is said what a write left there; nothing but the format file and its loose file is touched.
//!
//! The crate stands on `file_access` and `drive_base` for drives, on `sealed_record` for the codec of format files, and
//! on `call_types` for causes.
#![tactic(auto)]

mod codec;
mod deciding;
mod laws;
mod loose;
mod opening;
mod reading;
mod record;
mod refusal;
mod seen;
mod surveying;
mod writing;

pub use codec::{read, write};
pub use laws::opening_laws;
pub use opening::{Opened, open_set};
pub use record::Format;
pub use refusal::OpenRefusal;
pub use seen::{Seen, Seens, Survey};
pub use surveying::survey;
