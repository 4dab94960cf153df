//! The range of bytes that a GET asks for (RFC 9110, section 14).

ghost use Rattle.std.specs.Prelude.{◌≡◌, codes};
ghost use Rattle.http_wire.specs.Names.{value_of};
ghost use Rattle.s3_request.specs.Arguments.{closed, open_end, range_at, range_between, range_in, range_of, suffix};

use crate::arguments::number_of;
use crate::target::{cut, separator_place};
use call_types::RangeAsk;
use http_wire::Head;

/// The range that a head asks for: all bytes where it has none, or none of the forms `bytes=a-b`, `bytes=a-` and `bytes=-n`, and where it has an If-Range,
/// which isn't compared.
pub fn range_of(head: &Head) -> RangeAsk
    ensures { result ≡ range_of (value_of head.now.lines (codes "if-range")) (value_of head.now.lines (codes "range")) }
{
    if head.value_of(b"if-range").is_some() {
        return RangeAsk::Whole;
    }
    match head.value_of(b"range") {
        Some(value) => range_in(value),
        None => RangeAsk::Whole,
    }
}

/// A range of bytes, and all of them where the value is none.
fn range_in(value: &[u8]) -> RangeAsk
    ensures { result ≡ range_in value.now }
{
    match value.strip_prefix(b"bytes=") {
        Some(places) => range_at(places),
        None => RangeAsk::Whole,
    }
}

/// The range of what stands behind the unit.
fn range_at(places: &[u8]) -> RangeAsk
    ensures { result ≡ range_at places.now }
{
    if separator_place(places, b'-') == places.len() {
        return RangeAsk::Whole;
    }
    let (first, last) = cut(places, b'-');
    range_between(first, last)
}

/// The range of what stands before and behind a hyphen.
fn range_between(first: &[u8], last: &[u8]) -> RangeAsk
    ensures { result ≡ range_between first.now last.now }
{
    if first.is_empty() {
        return suffix(number_of(last));
    }
    if last.is_empty() {
        return open_end(number_of(first));
    }
    closed(number_of(first), number_of(last))
}

/// The last bytes.
fn suffix(count: Option<u64>) -> RangeAsk
    ensures { result ≡ suffix count }
{
    match count {
        Some(count) => RangeAsk::Last(count),
        None => RangeAsk::Whole,
    }
}

/// From a place on.
fn open_end(first: Option<u64>) -> RangeAsk
    ensures { result ≡ open_end first }
{
    match first {
        Some(first) => RangeAsk::From(first),
        None => RangeAsk::Whole,
    }
}

/// From a place to another that isn't before it.
fn closed(first: Option<u64>, last: Option<u64>) -> RangeAsk
    ensures { result ≡ closed first last }
{
    let Some(first) = first else {
        return RangeAsk::Whole;
    };
    let Some(last) = last else {
        return RangeAsk::Whole;
    };
    if first <= last {
        RangeAsk::FromTo(first, last)
    } else {
        RangeAsk::Whole
    }
}
