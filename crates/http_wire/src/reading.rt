//! A head with the length of its body, out of what arrived.

ghost use Rattle.std.specs.Prelude.{◌≡◌, ◌<◌, ◌++◌, length, take, drop, min};
ghost use Rattle.http_wire.specs.Answers.{Brings, EndsAfter, IsHeadOf, ReadsNext, TakesHead, ahead};
ghost use Rattle.http_wire.specs.Heads.{IsJudged};
ghost use Rattle.http_wire.specs.Taking.{source_view};
ghost use Rattle.http_wire.specs.declared.judging.Judged.TheVariants as judged;

use crate::arrival::{Arrival, await_head};
use crate::fault::WireFault;
use crate::framing::{is_chunked, stated_length};
use crate::head::Head;
use crate::judging::first_bytes;
use crate::window::Window;
use httparse::spans::{HeaderSpan, RequestSpans};
use io_base::{IoFault, Source};
use std::alloc::Global;

/// What the reading of a head comes to.
#[derive(Drop)]
pub enum Reading {
    /// A head, and the stated length of its body.
    Whole(Head, u64),
    /// The source ended before any byte of a head.
    End,
    /// There is no head.
    Refused(WireFault),
}

/// Reads the next head, and leaves what is behind it.
pub fn read_head<S: Source>(
    window: &mut Window,
    headers: &mut [HeaderSpan],
    source: &mut S,
    alloc: Global,
) -> Reading
    requires { length headers.old ≡ 64 }
    ensures { ReadsNext result window.old window.new (source_view S.Source source.old) (source_view S.Source source.new)
        (S.faults source.old) (S.faults source.new) }
{
    match await_head(window, headers, source) {
        Arrival::Whole(spans) => take_head(window, headers, spans, alloc),
        Arrival::Bad => Reading::Refused(WireFault::BadHead),
        Arrival::Long => Reading::Refused(WireFault::HeadTooLong),
        Arrival::Ended => end_after(window.bytes()),
        Arrival::Failed => Reading::Refused(WireFault::ReadFault),
    }
}

/// What the end of a source comes to, where these bytes wait, which are no whole head.
fn end_after(waiting: &[u8]) -> Reading
    ensures { EndsAfter result (length waiting.now) }
{
    if waiting.is_empty() {
        return Reading::End;
    }
    Reading::Refused(WireFault::BodyCut {
        read: waiting.len() as u64,
        stated: 0,
    })
}

/// Takes the head that the parser found at the front of what waits, unless what it says of its body is refused.
fn take_head(
    window: &mut Window,
    headers: &[HeaderSpan],
    spans: RequestSpans,
    alloc: Global,
) -> Reading
    requires { IsJudged (ahead window.old) headers.now (judged.Whole spans) }
    ensures { TakesHead result window.old window.new }
{
    match Head::copy_of(alloc, first_bytes(window.bytes()), spans, headers) {
        Ok(head) => frame(window, head, spans.len),
        Err(_) => Reading::Refused(WireFault::NoMemory),
    }
}

/// Passes over a head of this many bytes at the front of what waits, unless what it says of its body is refused.
fn frame(window: &mut Window, head: Head, len: usize) -> Reading
    requires { IsHeadOf head window.old len }
    ensures { TakesHead result window.old window.new }
{
    match stated_length(&head) {
        None => Reading::Refused(WireFault::BadHead),
        Some(length) => {
            if is_chunked(&head) {
                return Reading::Refused(WireFault::ChunkedBody);
            }
            window.pass(len);
            Reading::Whole(head, length)
        }
    }
}

/// Brings the next bytes to the front of the buffer: of those that wait, or of the source where none does.
pub fn bring<S: Source>(
    window: &mut Window,
    source: &mut S,
    into: &mut [u8],
) -> Result<usize, IoFault>
    requires { 0 < length into.old }
    ensures { Brings result into.new window.old window.new (source_view S.Source source.old) (source_view S.Source source.new)
        (S.faults source.old) (S.faults source.new) }
{
    if window.bytes().is_empty() {
        return source.take(into);
    }
    let n = copy_front(window.bytes(), into);
    window.pass(n);
    Ok(n)
}

/// Copies as many bytes as both have room for, and answers how many.
fn copy_front(from: &[u8], into: &mut [u8]) -> usize
    ensures count { result ≡ min (length into.old) (length from.now) }
    ensures copied { into.new ≡ take result from.now ++ drop result into.old }
{
    let n = into.len().min(from.len());
    into[..n].copy_from_slice(&from[..n]);
    n
}
