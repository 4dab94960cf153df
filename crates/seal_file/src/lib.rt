//! Sealed files, and the owned bytes that the records in them hold.
//!
//! A sealed file is a kind of four bytes, a body, and the SHA-256 (FIPS 180-4) of kind and body together.
//! [`seal`] makes one, and [`unseal`] gives the body or says which damage comes first. [`Bytes`] are bytes that a
//! record owns, and a [`Text`] is the same by another name: a contract sees the list of its bytes.
//!
//! The crate stands on `sha2` for the digest and on `fault_base` for its error. It promises that exactly
//! the bytes that `seal` gives for a kind and a body are opened as that body, that each damage is named
//! where it stands and nowhere else, and that one file has one body.
#![tactic(auto)]

mod damage;
mod octets;
mod sealing;

pub use damage::{Damage, RecordFault};
pub use octets::{Bytes, Text};
pub use sealing::{seal, sealing_laws, unseal};
