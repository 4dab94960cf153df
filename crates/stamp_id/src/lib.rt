//! The numbers that order writes, and the ids of versions that are made of them.
//!
//! A [`Ballot`] is a term and a sequence number within it, and a [`ChangeId`] is the ballot under which a
//! change was first proposed. Ballots are ordered by their [`rank`]. A [`VersionId`] is a change and the slot of the
//! key's register, spelled as a UUID of version 8 (RFC 9562, section 5.8); [`take_id`] takes one as a field of a file.
//!
//! The crate stands on `uuid` for the text of a UUID, on `field_reader` for fields and on `fault_base`. It promises
//! that ids are one to one with their sixteen bytes and with their 36-byte text, that exactly the spellings of ids are
//! read, and that ranks are one to one with ballots and in their order.
#![tactic(auto)]

mod error;
mod field;
mod order;
mod spelling;
mod stamp;
mod version;
mod words;

pub use error::NotAnId;
pub use field::take_id;
pub use order::{rank, rank_laws};
pub use spelling::spelling_laws;
pub use stamp::{Ballot, ChangeId};
pub use version::VersionId;
