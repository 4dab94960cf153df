//! The call of the S3 API that a request head states.
//!
//! [`read_call`] reads the target, the query and the headers of a head, and answers the call, or the first refusal in the order of refusals. It
//! stands on `http_wire` for heads, on `percent_encoding`, `form_urlencoded`, `base64` and `hex` for what a target, a query, a Content-MD5 and a
//! token spell, on `bucket_book` and `stamp_id` for names of buckets and ids, and on `desk_base` for calls.
//!
//! It promises that the answer is the one that the definitions of `specs/` give of the head: its target (`Target`), its query (`Query`), its values
//! (`Arguments`, `Names`, `Pages`), the table of calls (`Routes`) and the order of refusals (`Reads`); and that a call which is read is a lawful one.
//! Want of memory may come at any time.
#![tactic(auto)]

mod arguments;
mod fault;
mod laws;
mod pages;
mod query;
mod range;
mod reading;
mod routes;
mod target;
mod unkept;

pub use fault::CallFault;
pub use laws::name_laws;
pub use reading::read_call;
