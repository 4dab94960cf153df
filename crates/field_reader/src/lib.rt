//! Reading and writing binary fields: the vocabulary of every format of the store.
//!
//! A format is a table of big-endian fields, some of them counted, each with a rule. A content is a spelling of a
//! value, or it has a first fault: the start of the first field that breaks its rule, the end of the content where
//! bytes are missing, or the first byte too many. The crate stands on the standard library alone. `Fields` takes one
//! field after the other from a content and answers what the format of that field finds there, which takes no memory;
//! the `put` functions append fields to a buffer. A reader made of these calls gives what the table made of the same formats says.
#![tactic(auto)]

mod fault;
mod fields;
mod put;

pub use fault::{Misspelled, ReadFault, refuse_unless};
pub use fields::Fields;
pub use put::{put_bytes, put_short_text, put_u8, put_u16, put_u32, put_u64};
