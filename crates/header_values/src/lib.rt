//! What the values of headers name: for now the entity tags of an `If-Match` (RFC 9110, sections 5.6.1, 8.8.3 and 13.1.1).
//!
//! [`names_tag`] says whether a value names the entity tag of an MD5 and a number of parts; it is exactly `names_tag` of the
//! specs, for any bytes. A value is a list: commas part its members, but not within double quotes, and blanks around a member
//! are no part of it. A member names the tag bare or in double quotes, and a weak one (`W/"..."`) names none. `*` alone names
//! every tag. It takes no memory. The crate stands on `hex` and `itoa` for the text of a tag, which the heads and documents of
//! replies print too (`tag_text`).
#![tactic(auto)]

mod blanks;
mod entity_tag;
mod members;

pub use entity_tag::names_tag;
