//! What the bytes at hand are: a whole head, the beginning of one, or neither.

ghost use Rattle.std.specs.Prelude.{◌≡◌, ◌≤◌, length, take};
ghost use Rattle.httparse.specs.Grammar.{HasNoRequest, MayBecomeRequest, NeverHasRequest};
ghost use Rattle.http_wire.specs.Heads.{HasLine65, IsJudged, IsParsed};
ghost use Rattle.http_wire.specs.Laws.{HeadsExclude, HeadsStay};

use crate::line_limit::has_line_65;
use httparse::spans::{HeaderSpan, RequestSpans, parse_request};
use httparse::{Error, Status};

/// How many bytes a head may have.
pub const MOST_BYTES: usize = 65_536;

/// How many header lines a head may have.
pub const MOST_LINES: usize = 64;

/// What the bytes at hand are.
#[derive(Clone, Copy, PartialEq, Eq)]
pub enum Judged {
    /// They begin with a whole head within the limits, whose parts are here.
    Whole(RequestSpans),
    /// They have no whole head, and one may begin with them.
    Open,
    /// No head begins with them.
    Bad,
    /// A limit was reached before a head was whole.
    Long,
}

/// What the parser answers of bytes.
#[derive(Clone, Copy, PartialEq, Eq)]
enum Parsed {
    /// They begin with a whole head.
    Whole(RequestSpans),
    /// They have no whole head, and one may begin with them.
    Open,
    /// No head begins with them.
    Refused,
    /// There are too many header lines.
    Crowded,
}

/// Judges what is at hand by as many of the bytes as a head may have. Where they are a whole head, the places of its
/// lines stand in `headers`.
pub fn judge_first(bytes: &[u8], headers: &mut [HeaderSpan]) -> Judged
    requires { length headers.old ≡ 64 }
    ensures { IsJudged (take MOST_BYTES bytes.now) headers.new result }
{
    judge(first_bytes(bytes), headers)
}

/// As many of the bytes as a head may have.
pub fn first_bytes(bytes: &[u8]) -> &[u8]
    ensures first { result.now ≡ take MOST_BYTES bytes.now }
    ensures most { length result.now ≤ MOST_BYTES }
{
    &bytes[..bytes.len().min(MOST_BYTES)]
}

/// Judges the first bytes at hand. Where they are a whole head, the places of its lines stand in `headers`.
#[tactic(auto, using(crate::proofs::LimitLemmas::exceeds_line_65))]
fn judge(bytes: &[u8], headers: &mut [HeaderSpan]) -> Judged
    requires short { length bytes.now ≤ MOST_BYTES }
    requires room { length headers.old ≡ 64 }
    ensures { IsJudged bytes.now headers.new result }
{
    match parse(bytes, headers) {
        Parsed::Whole(spans) => Judged::Whole(spans),
        Parsed::Open => judge_open(bytes, headers),
        Parsed::Refused => judge_refused(bytes, headers),
        Parsed::Crowded => Judged::Long,
    }
}

/// Parses bytes. Where they are a whole head, the places of its lines stand in `headers`.
fn parse(bytes: &[u8], headers: &mut [HeaderSpan]) -> Parsed
    requires { length headers.old ≡ 64 }
    ensures { IsParsed bytes.now headers.new result }
{
    match parse_request(bytes, headers) {
        Ok(Status::Complete(spans)) => Parsed::Whole(spans),
        Ok(Status::Partial) => Parsed::Open,
        Err(Error::TooManyHeaders) => Parsed::Crowded,
        Err(_) => Parsed::Refused,
    }
}

/// Judges bytes that hold no whole head and may go on to one.
fn judge_open(bytes: &[u8], headers: &mut [HeaderSpan]) -> Judged
    requires short { length bytes.now ≤ MOST_BYTES }
    requires room { length headers.old ≡ 64 }
    requires none { HasNoRequest bytes.now }
    requires goes_on { MayBecomeRequest bytes.now }
    ensures { IsJudged bytes.now headers.new result }
{
    if has_line_65(bytes, headers) {
        return Judged::Long;
    }
    if bytes.len() < MOST_BYTES {
        return Judged::Open;
    }
    judge_full(bytes, headers)
}

/// Judges bytes with which no head begins.
fn judge_refused(bytes: &[u8], headers: &mut [HeaderSpan]) -> Judged
    requires short { length bytes.now ≤ MOST_BYTES }
    requires room { length headers.old ≡ 64 }
    requires never { NeverHasRequest bytes.now }
    ensures { IsJudged bytes.now headers.new result }
{
    if has_line_65(bytes, headers) {
        return Judged::Long;
    }
    if bytes.len() < MOST_BYTES {
        return Judged::Bad;
    }
    judge_full(bytes, headers)
}

/// Judges as many bytes as a head may have, which hold none and no line too many: by what stands before the last.
fn judge_full(bytes: &[u8], headers: &mut [HeaderSpan]) -> Judged
    requires full { length bytes.now ≡ MOST_BYTES }
    requires room { length headers.old ≡ 64 }
    requires none { HasNoRequest bytes.now }
    requires lines { ¬ (HasLine65 bytes.now) }
    ensures { IsJudged bytes.now headers.new result }
{
    match parse(&bytes[..MOST_BYTES - 1], headers) {
        Parsed::Open => Judged::Long,
        Parsed::Refused => Judged::Bad,
        Parsed::Whole(_) => unreachable!(),
        Parsed::Crowded => unreachable!(),
    }
}

/// The laws that what decides of a text decides one way, whatever follows, for a caller's proof. It does nothing.
pub fn head_laws()
    ensures exclude { HeadsExclude }
    ensures stay { HeadsStay }
{}
