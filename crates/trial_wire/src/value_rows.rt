//! Rows over `header_values`: which entity tags the value of a header names.

use crate::replies::etag;
use crate::texts::text;
use header_values::names_tag;
use std::alloc::Global;
use trial_base::{Names, NoAnswer, first, said};

/// `ETAG TEXT`: whether the text, as the value of an `If-Match`, names the entity tag.
fn named(alloc: Global, names: &Names, words: &str) -> Result<String, NoAnswer> {
    let (tag, spelled) = first(words);
    let tag = etag(alloc, tag)?;
    let value = text(alloc, names, spelled)?;
    if names_tag(value.as_slice(), &tag.md5, tag.parts) {
        return said(alloc, "named");
    }
    said(alloc, "not named")
}

pub fn answer(alloc: Global, names: &Names, words: &str) -> Result<String, NoAnswer> {
    let (call, rest) = first(words);
    match call {
        "names_tag" => named(alloc, names, rest),
        _ => said(alloc, "no such call"),
    }
}
