//! The bytes of a body that a range of bytes asks for (RFC 9110, section 14.1.2).
//!
//! [`plan`] answers the span that a range gives in a body of a length, or refuses a range that no byte of the body
//! satisfies; it is exactly `Plans` of the specs. [`is_partial`] says whether a reply with that span is a part of the body
//! (206) or the body as without a range (200). Both take the length and the range alone and no memory, so the reader of a
//! body and the writer of its head come to the same. The crate stands on `call_types` for ranges and spans.
#![tactic(auto)]

mod ranges;

pub use ranges::{InvalidRange, is_partial, plan, span_laws};
