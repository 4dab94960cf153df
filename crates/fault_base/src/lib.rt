//! Want of memory, and counts of faults: what every layer of the store says of failing in the same words.
//!
//! [`NoMemory`] is the answer of a call that found no memory. A drive, a source, a sink and whatever else can fail
//! keeps a count of its faults, which stands still at the last value of a `u64`; the word `Rose` of `specs/Counts`
//! says that such a count rose, and [`count_after`] is the count after one fault more.
//!
//! The crate stands on the standard library alone.
#![tactic(auto)]

mod counts;
mod memory;

pub use counts::{count_after, count_laws};
pub use memory::NoMemory;
