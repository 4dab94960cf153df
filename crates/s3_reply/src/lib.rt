//! The bytes of every reply of the S3 dialect: a status line, headers, and a document where the reply has one.
//!
//! [`head_text`] is the head of a reply, [`document`] its document, and [`reply_text`] both behind each other, so that a small reply goes out in
//! one write. Each is exactly the text of `specs/Replies.antt`: the status, the code and the message of a refusal stand in `specs/Statuses.antt`, the
//! headers in their order in `specs/Headers.antt`, the documents as trees in `specs/Documents.antt`, and their text in `specs/Xml.antt` and
//! `specs/Escaping.antt`. [`escaping_laws`] says that no text of a document ends its
//! element or begins another. [`reply_status`] is the status of a reply alone, and [`refusal_status`], [`code`] and [`push_message`] are the words of a
//! refusal, for who is told of them elsewhere.
//!
//! The crate stands on `call_types` and `desk_base` for replies and calls, `http_wire` for heads, `span_plan` for ranges, `stamp_id` for ids,
//! `seal_file` for texts, `header_values` for the text of a tag, and on the kit's `http` for phrases and `httpdate` for dates.
#![tactic(auto)]

mod bits;
mod dates;
mod documents;
mod escaping;
mod fields;
mod heading;
mod keys;
mod refusals;
mod room;
mod rows;
mod status;
mod text;
mod xml;

pub use escaping::escaping_laws;
pub use refusals::{code, push_message};
pub use status::{refusal_status, reply_status};
pub use text::{document, head_text, reply_text};
