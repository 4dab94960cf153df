//! What the header lines of a head say of its body: its length (RFC 9112, section 6.3), and whether it comes in chunks.

ghost use Rattle.std.specs.Prelude.{◌≡◌, ◌+◌, ◌-◌, ◌*◌, ◌^◌, ◌<◌, ◌≤◌, ◌⊎◌, ℕ, codes, length, IsTrue, ◌↔◌, MatchOption};
ghost use Rattle.http_wire.specs.Names.{IsFirst, IsNamed, NoneNamed, line};
ghost use Rattle.http_wire.specs.Framing.{HasAwsChunked, IsChunked, IsDigit, IsStreaming, ReadsLength, SaysLength, SaysNoLength, content_length};

use crate::head::Head;
use crate::names::{first_of, is_named};

/// The number that the lines of `Content-Length` say, or 0 without one. None where one says no number, or two say
/// different ones.
pub fn stated_length(head: &Head) -> Option<u64>
    ensures { MatchOption result (SaysNoLength head.now.lines) (SaysLength head.now.lines) }
{
    match first_of(head, b"content-length") {
        Some(first) => length_from(head, first),
        None => Some(0),
    }
}

/// The number that the first line of `Content-Length` says, if all of them do.
fn length_from(head: &Head, first: usize) -> Option<u64>
    requires { IsFirst content_length head.now.lines first }
    ensures { MatchOption result (SaysNoLength head.now.lines) (SaysLength head.now.lines) }
{
    match read_length(head.value(first)) {
        Some(number) => said_by_all(head, first, number),
        None => None,
    }
}

/// The number that the first line of `Content-Length` says, if all of them do.
fn said_by_all(head: &Head, first: usize, number: u64) -> Option<u64>
    requires first { IsFirst content_length head.now.lines first }
    requires reads { ReadsLength (line head.now.lines first).1 number }
    ensures { MatchOption result (SaysNoLength head.now.lines) (SaysLength head.now.lines) }
{
    for i in first..head.len() {
        if !agrees(head, i, number) {
            return None;
        }
    }
    Some(number)
}

/// Whether line `i` is none of `Content-Length`, or says this number.
fn agrees(head: &Head, i: usize, number: u64) -> bool
    requires { i < length head.now.lines }
    ensures { IsTrue result ↔ (IsNamed content_length (line head.now.lines i).0
        → ReadsLength (line head.now.lines i).1 number) }
{
    if is_named(head, i, b"content-length") {
        return reads(head.value(i), number);
    }
    true
}

/// Whether the body has a transfer coding, or chunks of the kind that S3 clients put inside a body.
pub fn is_chunked(head: &Head) -> bool
    ensures { IsTrue result ↔ IsChunked head.now.lines }
{
    if has_coding(head) {
        return true;
    }
    if has_aws_chunks(head) {
        return true;
    }
    is_streamed(head)
}

/// Whether there is a line of `Transfer-Encoding`.
fn has_coding(head: &Head) -> bool
    ensures { IsTrue result ↔ ((i : ℕ) × IsFirst (codes "transfer-encoding") head.now.lines i) }
{
    first_of(head, b"transfer-encoding").is_some()
}

/// Whether the first `Content-Encoding` has `aws-chunked`.
fn has_aws_chunks(head: &Head) -> bool
    ensures { IsTrue result ↔ ((i : ℕ) × IsFirst (codes "content-encoding") head.now.lines i
        × HasAwsChunked (line head.now.lines i).1) }
{
    match first_of(head, b"content-encoding") {
        Some(i) => has_aws_chunked(head.value(i)),
        None => false,
    }
}

/// Whether the first `x-amz-content-sha256` begins with `STREAMING-`.
fn is_streamed(head: &Head) -> bool
    ensures { IsTrue result ↔ ((i : ℕ) × IsFirst (codes "x-amz-content-sha256") head.now.lines i
        × IsStreaming (line head.now.lines i).1) }
{
    match first_of(head, b"x-amz-content-sha256") {
        Some(i) => is_streaming(head.value(i)),
        None => false,
    }
}

/// Whether `aws-chunked` stands in the value, without regard to case.
fn has_aws_chunked(value: &[u8]) -> bool
    ensures { IsTrue result ↔ HasAwsChunked value.now }
{
    if value.len() < 11 {
        return false;
    }
    for i in 0..value.len() - 10 {
        if value[i..i + 11].eq_ignore_ascii_case(b"aws-chunked") {
            return true;
        }
    }
    false
}

/// Whether the value begins with `STREAMING-`.
fn is_streaming(value: &[u8]) -> bool
    ensures { IsTrue result ↔ IsStreaming value.now }
{
    value.starts_with(b"STREAMING-")
}

/// Whether the value is this number.
fn reads(value: &[u8], number: u64) -> bool
    ensures { IsTrue result ↔ ReadsLength value.now number }
{
    match read_length(value) {
        Some(read) => read == number,
        None => false,
    }
}

/// The number that the value writes: one or more digits, and no sign.
fn read_length(value: &[u8]) -> Option<u64>
    ensures { MatchOption result ((n : ℕ) → ¬ (ReadsLength value.now n)) (ReadsLength value.now) }
{
    if value.is_empty() {
        return None;
    }
    let mut length = 0;
    for byte in value {
        match add_digit(length, *byte) {
            Some(number) => length = number,
            None => return None,
        }
    }
    Some(length)
}

/// The number with one digit more.
fn add_digit(number: u64, byte: u8) -> Option<u64>
    ensures { MatchOption result (IsDigit byte → 2 ^ 64 ≤ number * 10 + (byte - 48))
        (λ n. IsDigit byte × (n ≡ number * 10 + (byte - 48)) × (n < 2 ^ 64)) }
{
    if byte < b'0' || byte > b'9' {
        return None;
    }
    number.checked_mul(10)?.checked_add((byte - b'0') as u64)
}
