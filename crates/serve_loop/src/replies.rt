//! How replies go out: texts that are given to the sink, what a desk tells its reply to, and what the operator is told.

ghost use Rattle.std.specs.Prelude.{◌≡◌, ◌++◌, [], IfOk, None};
ghost use Rattle.call_types.specs.declared.reply.Reply.TheVariants.{Refused};
ghost use Rattle.desk_base.specs.Answering.{bytes_after};
ghost use Rattle.desk_base.specs.Telling.{Telling};
ghost use Rattle.s3_reply.specs.Asked.{asked_of};
ghost use Rattle.s3_reply.specs.Replies.{reply_bytes};
ghost use Rattle.serve_loop.specs.Exchanges.{expects_continue, greeting};
ghost use Rattle.serve_loop.specs.Replies.{BreaksText, FlushesText, GivesText, MakesText, TakesText, text_in};
ghost use Rattle.serve_loop.specs.Seen.{told_of};
ghost use Rattle.serve_loop.specs.Sending.{sink_view};

use crate::manner::expects_continue;
use call_types::{Cut, Refusal, Reply};
use desk_base::{Call, Teller};
use fault_base::NoMemory;
use http_wire::Head;
use io_base::Sink;
use s3_reply::{code, push_message, refusal_status, reply_text};
use std::alloc::Global;
use std::io::Eprint;
use std::str;

/// Gives a text.
pub(crate) fn give<T: Sink>(sink: &mut T, text: &[u8]) -> Result<(), Cut>
    ensures { GivesText result text.now (sink_view T.Sink sink.old) (sink_view T.Sink sink.new) (T.faults sink.old) (T.faults sink.new) }
{
    match sink.give(text) {
        Ok(()) => Ok(()),
        Err(_) => Err(Cut::WriteFault),
    }
}

/// Says that the body is awaited, where the head asks for that; the body has so many bytes.
pub(crate) fn greet<T: Sink>(sink: &mut T, head: &Head, size: u64) -> Result<(), Cut>
    ensures { GivesText result (greeting (expects_continue head.now size)) (sink_view T.Sink sink.old) (sink_view T.Sink sink.new)
        (T.faults sink.old) (T.faults sink.new) }
{
    if expects_continue(head, size) {
        return give(sink, b"HTTP/1.1 100 Continue\r\n\r\n");
    }
    Ok(())
}

/// Gives a refusal of the server's own; `head` is none where the request's head was refused.
pub(crate) fn give_refusal<R: Eprint, T: Sink>(
    rt: &R,
    alloc: Global,
    sink: &mut T,
    head: Option<&Head>,
    why: Refusal,
    now: u64,
    close: bool,
) -> Result<(), Cut>
    ensures { MakesText result (reply_bytes (asked_of head.entry None (Refused why)) now close) (sink_view T.Sink sink.old) (sink_view T.Sink sink.new)
        (T.faults sink.old) (T.faults sink.new) }
{
    tell_refused(rt, alloc, None, &why);
    let Ok(text) = reply_text(alloc, head, None, &Reply::Refused(why), now, close) else {
        return Err(Cut::NoMemory);
    };
    give(sink, &text)
}

/// The most bytes of a piece that goes out in one write with the head before it.
const SMALL: usize = 65_536;

/// Makes the text of a reply of what it is told, and gives it to a sink. A head waits for the first piece of its body, and all waits where the
/// request's body isn't read yet. A refusal that is the store's trouble is said on standard error too.
#[derive(Drop)]
pub(crate) struct ReplyTeller<'a, R, T> {
    pub(crate) rt: &'a R,
    pub(crate) alloc: Global,
    pub(crate) sink: &'a mut T,
    pub(crate) head: &'a Head,
    pub(crate) call: &'a Call,
    pub(crate) now: u64,
    pub(crate) close: bool,
    /// Whether all waits.
    pub(crate) waits: bool,
    /// What was told and not given yet.
    pub(crate) held: &'a mut Vec<u8>,
}

impl<R, T: Sink> ReplyTeller<'_, R, T> {
    /// Gives what is held.
    pub(crate) fn flush(&mut self) -> Result<(), Cut>
        ensures name { self.new.sink.ghost_name ≡ self.old.sink.ghost_name }
        ensures gives { FlushesText result (told_of T.Sink self.old) (told_of T.Sink self.new)
            (T.faults self.old.sink.now) (T.faults self.new.sink.now) }
    {
        if self.held.is_empty() {
            return Ok(());
        }
        give(self.sink, self.held)?;
        self.held.clear();
        Ok(())
    }

    /// Whether a piece goes out in one write with what is held.
    fn joins(&self, bytes: &[u8]) -> bool {
        !self.held.is_empty() && bytes.len() <= SMALL
    }
}

impl<R: Eprint, T: Sink> Teller for ReplyTeller<'_, R, T> {
    ghost takes = { λ old telling new. (new.sink.ghost_name ≡ old.sink.ghost_name)
        × TakesText (text_in (told_of T.Sink old).reply telling) (told_of T.Sink old) (told_of T.Sink new) };

    ghost breaks = { λ old telling new. (new.sink.ghost_name ≡ old.sink.ghost_name)
        × BreaksText (text_in (told_of T.Sink old).reply telling) (told_of T.Sink old) (told_of T.Sink new) };

    ghost faults = { λ t. T.faults t.sink.now };

    fn head(&mut self, reply: &Reply) -> Result<(), Cut> {
        tell_reply(self.rt, self.alloc, self.call, reply);
        let made = reply_text(
            self.alloc,
            Some(self.head),
            Some(self.call),
            reply,
            self.now,
            self.close,
        );
        let Ok(text) = made else {
            return Err(Cut::NoMemory);
        };
        let Ok(held) = behind(self.alloc, self.held, text) else {
            return Err(Cut::NoMemory);
        };
        *self.held = held;
        if self.waits || is_followed(self.call, reply) {
            return Ok(());
        }
        self.flush()
    }

    fn piece(&mut self, bytes: &[u8]) -> Result<(), Cut> {
        if self.waits || self.joins(bytes) {
            let Ok(held) = joined(self.alloc, self.held, bytes) else {
                return Err(Cut::NoMemory);
            };
            *self.held = held;
            if self.waits {
                return Ok(());
            }
            return self.flush();
        }
        self.flush()?;
        give(self.sink, bytes)
    }
}

/// A text behind what is held.
fn behind(alloc: Global, held: &[u8], text: Vec<u8>) -> Result<Vec<u8>, NoMemory>
    ensures { IfOk result (λ both. both.items ≡ held.now ++ text.items) }
{
    if held.is_empty() {
        return Ok(text);
    }
    joined(alloc, held, &text)
}

/// Two texts, one behind the other.
fn joined(alloc: Global, first: &[u8], second: &[u8]) -> Result<Vec<u8>, NoMemory>
    ensures { IfOk result (λ both. both.items ≡ first.now ++ second.now) }
{
    let mut both = Vec::with_capacity(alloc, first.len().saturating_add(second.len()))?;
    both.extend_from_slice(first)?;
    both.extend_from_slice(second)?;
    Ok(both)
}

/// Whether bytes of a version follow the head of a reply.
fn is_followed(call: &Call, reply: &Reply) -> bool {
    match (call, reply) {
        (Call::Get { .. }, Reply::Found { span, .. }) => span.length > 0,
        _ => false,
    }
}

/// Tells of a reply to a call where that is a refusal of which the operator is told.
pub(crate) fn tell_reply<R: Eprint>(rt: &R, alloc: Global, call: &Call, reply: &Reply) {
    if let Reply::Refused(why) = reply {
        tell_refused(rt, alloc, Some(call), why);
    }
}

/// Says a refusal that is the store's trouble, in one line: its status, its code, the call where one was read, and its message, with the
/// letters of the drives. Such a refusal has a status of 500 or above, except 501, where a client asked for what isn't served.
/// The line has nothing that a client chose, so the bytes of a key can't break it. A line that can't be said is left out.
pub(crate) fn tell_refused<R: Eprint>(rt: &R, alloc: Global, call: Option<&Call>, why: &Refusal) {
    let status = refusal_status(why).as_u16();
    if status < 500 || status == 501 {
        return;
    }
    let mut message = Vec::new(alloc);
    if push_message(&mut message, why).is_err() {
        return;
    }
    let (name, reason) = (text(code(why)), text(&message));
    let _ = match call {
        Some(call) => eprintln!(rt; "ostore: {status} {name} for {}: {reason}", name_of(call)),
        None => eprintln!(rt; "ostore: {status} {name}: {reason}"),
    };
}

/// Bytes as a text, which is empty where they are no UTF-8.
fn text(bytes: &[u8]) -> &str {
    match str::from_utf8(bytes) {
        Ok(text) => text,
        Err(_) => "",
    }
}

/// The name that S3 has for a call.
fn name_of(call: &Call) -> &'static str {
    match call {
        Call::ListBuckets => "ListBuckets",
        Call::CreateBucket { .. } => "CreateBucket",
        Call::HeadBucket { .. } => "HeadBucket",
        Call::GetVersioning { .. } => "GetBucketVersioning",
        Call::PutVersioning { .. } => "PutBucketVersioning",
        Call::Put { .. } => "PutObject",
        Call::Get { .. } => "GetObject",
        Call::Head { .. } => "HeadObject",
        Call::Delete { .. } => "DeleteObject",
        Call::List2 { .. } => "ListObjectsV2",
        Call::ListVersions { .. } => "ListObjectVersions",
        Call::Create { .. } => "CreateMultipartUpload",
        Call::Part { .. } => "UploadPart",
        Call::Complete { .. } => "CompleteMultipartUpload",
        Call::Abort { .. } => "AbortMultipartUpload",
    }
}
