//! A reply as one text, its head and its document.

ghost use Rattle.std.specs.Prelude.{◌≡◌, IfOk};
ghost use Rattle.s3_reply.specs.Asked.{asked_of};
ghost use Rattle.s3_reply.specs.Documents.{document_bytes};
ghost use Rattle.s3_reply.specs.Replies.{head_bytes, reply_bytes};

use crate::documents::push_document;
use crate::heading::{is_silent, path, push_head};
use crate::room::{HEAD_ROOM, document_room};
use call_types::Reply;
use desk_base::Call;
use fault_base::NoMemory;
use http_wire::Head;
use std::alloc::Global;

/// The head of a reply to a call at a moment, in Unix seconds; it says that the connection closes where `close` holds. `head` is none where the
/// request's head was refused, and `call` where no call was read. The body of a version that is found follows it.
///
/// The document of the reply is made for its length; [`reply_text`] gives both.
pub fn head_text(
    alloc: Global,
    head: Option<&Head>,
    call: Option<&Call>,
    reply: &Reply,
    now: u64,
    close: bool,
) -> Result<Vec<u8>, NoMemory>
    ensures { IfOk result (λ text. text.items ≡ head_bytes (asked_of head.entry call.entry reply.now) now close) }
{
    let document = document(alloc, head, call, reply)?;
    let mut text = Vec::with_capacity(alloc, HEAD_ROOM)?;
    push_head(&mut text, head, call, reply, &document, now, close)?;
    Ok(text)
}

/// The document of a reply to a call, of no bytes where it has none.
pub fn document(
    alloc: Global,
    head: Option<&Head>,
    call: Option<&Call>,
    reply: &Reply,
) -> Result<Vec<u8>, NoMemory>
    ensures { IfOk result (λ text. text.items ≡ document_bytes (asked_of head.entry call.entry reply.now)) }
{
    if is_silent(head) {
        return Ok(Vec::new(alloc));
    }
    let path = path(head);
    let mut text = Vec::with_capacity(alloc, document_room(call, path, reply))?;
    push_document(&mut text, call, path, reply)?;
    Ok(text)
}

/// The head of a reply to a call at a moment, with the document behind it, as [`head_text`] and [`document`] say.
pub fn reply_text(
    alloc: Global,
    head: Option<&Head>,
    call: Option<&Call>,
    reply: &Reply,
    now: u64,
    close: bool,
) -> Result<Vec<u8>, NoMemory>
    ensures { IfOk result (λ text. text.items ≡ reply_bytes (asked_of head.entry call.entry reply.now) now close) }
{
    let document = document(alloc, head, call, reply)?;
    let mut text = Vec::with_capacity(alloc, document.len().saturating_add(HEAD_ROOM))?;
    push_head(&mut text, head, call, reply, &document, now, close)?;
    text.extend_from_slice(&document)?;
    Ok(text)
}
