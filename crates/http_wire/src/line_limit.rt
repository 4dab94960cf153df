//! Whether a header line begins behind the last that a head may have.

ghost use Rattle.std.specs.Prelude.{◌≡◌, ◌+◌, ◌<◌, ◌≤◌, take, ◌++◌, length, slice_index, cond, false, true, MatchBool, ◌⊎◌, not, ◌&&◌, ◌||◌, ◌==◌, IsTrue, ◌↔◌, MatchOption};
ghost use Rattle.httparse.specs.Grammar.{lf, print_end};
ghost use Rattle.httparse.specs.Pieces.{is_newline};
ghost use Rattle.http_wire.specs.Heads.{HasLine65, IsFullHead};
ghost use Rattle.http_wire.specs.Lines.{NoLine65, Line65EndsAt};

use crate::judging::{MOST_BYTES, MOST_LINES};
use httparse::Status;
use httparse::spans::{HeaderSpan, RequestSpans, parse_request};

/// Whether the bytes are all lines of a head with as many header lines as it may have, and a byte that begins one more.
/// The parser says so only once that line is whole, or not at all where the line is none. It writes to `headers`.
pub fn has_line_65(bytes: &[u8], headers: &mut [HeaderSpan]) -> bool
    requires short { length bytes.now ≤ MOST_BYTES }
    requires room { length headers.old ≡ 64 }
    ensures { IsTrue result ↔ HasLine65 bytes.now }
{
    match line_65_end(bytes) {
        None => false,
        Some(end) => {
            if goes_on(bytes, end) {
                return ends_head(&bytes[..end], headers);
            }
            false
        }
    }
}

/// Whether a byte that is neither CR nor LF stands at the place.
fn goes_on(bytes: &[u8], end: usize) -> bool
    requires { end ≤ length bytes.now }
    ensures { MatchBool result ((end < length bytes.now) × (is_newline (slice_index bytes.now end) ≡ false))
        ((end ≡ length bytes.now) ⊎ (is_newline (slice_index bytes.now end) ≡ true)) }
{
    if end == bytes.len() {
        return false;
    }
    !is_newline(bytes[end])
}

/// Whether the lines, and an empty line of one line feed, are a head with as many header lines as it may have.
fn ends_head(lines: &[u8], headers: &mut [HeaderSpan]) -> bool
    requires short { length lines.now < MOST_BYTES }
    requires room { length headers.old ≡ 64 }
    ensures { IsTrue result ↔ IsFullHead (lines.now ++ print_end lf) }
{
    let mut text = [0; MOST_BYTES];
    close_lines(&mut text, lines);
    fills(&text[..lines.len() + 1], headers)
}

/// Whether the text is a head with as many header lines as it may have.
fn fills(text: &[u8], headers: &mut [HeaderSpan]) -> bool
    requires room { length headers.old ≡ 64 }
    ensures { IsTrue result ↔ IsFullHead text.now }
{
    match parse_request(text, headers) {
        Ok(Status::Complete(spans)) => is_full(spans, text.len()),
        _ => false,
    }
}

/// Whether a head has this length and as many header lines as it may have.
fn is_full(spans: RequestSpans, len: usize) -> bool
    ensures { result ≡ ((spans.len == len) && (spans.headers == 64)) }
{
    spans.len == len && spans.headers == MOST_LINES
}

/// Puts the lines and a line feed to the front.
fn close_lines(text: &mut [u8], lines: &[u8])
    requires { length lines.now < length text.old }
    ensures { take (length lines.now + 1) text.new ≡ lines.now ++ print_end lf }
{
    text[..lines.len()].copy_from_slice(lines);
    text[lines.len()] = b'\n';
}

/// Where the 65th line ends, the first being that of the first byte that is neither CR nor LF.
fn line_65_end(bytes: &[u8]) -> Option<usize>
    ensures { MatchOption result (NoLine65 bytes.now) (Line65EndsAt bytes.now) }
{
    let mut begun = false;
    let mut lines = 0;
    for (i, byte) in bytes.iter().enumerate() {
        lines += count_end(begun, *byte);
        if lines > MOST_LINES {
            return Some(i + 1);
        }
        begun = begins(begun, *byte);
    }
    None
}

/// How many lines a byte ends: one, if it is LF and a line has begun.
fn count_end(begun: bool, byte: u8) -> usize
    ensures { result ≡ cond (begun && (byte == 10)) 1 0 }
{
    if begun && byte == b'\n' { 1 } else { 0 }
}

/// Whether a line has begun after this byte.
fn begins(begun: bool, byte: u8) -> bool
    ensures { result ≡ (begun || not (is_newline byte)) }
{
    begun || !is_newline(byte)
}

/// Whether the byte is CR or LF.
fn is_newline(byte: u8) -> bool
    ensures { result ≡ is_newline byte }
{
    byte == b'\r' || byte == b'\n'
}
