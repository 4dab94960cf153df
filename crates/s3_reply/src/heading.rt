//! The head of a reply.

ghost use Rattle.std.specs.Prelude.{◌≡◌, ◌++◌, ◌==◌, length, OnOk};
ghost use Rattle.s3_reply.specs.Asked.{asked_of, is_silent, path_of, path_part, seen_call, seen_head};
ghost use Rattle.s3_reply.specs.Documents.{document_bytes};
ghost use Rattle.s3_reply.specs.Replies.{head_bytes};

use crate::bits::push_bytes;
use crate::fields;
use crate::status::{push_status_line, reply_status};
use call_types::Reply;
use desk_base::Call;
use fault_base::NoMemory;
use http_wire::Head;

/// Whether the reply has no body: the method is HEAD, and the head was not refused.
pub(crate) fn is_silent(head: Option<&Head>) -> bool
    ensures { result ≡ is_silent (seen_head head.entry) }
{
    match head {
        None => false,
        Some(head) => head.method() == b"HEAD".as_slice(),
    }
}

/// The path as received, empty where the head was refused.
pub(crate) fn path(head: Option<&Head>) -> &[u8]
    ensures { result.now ≡ path_of (seen_head head.entry) }
{
    match head {
        None => b"",
        Some(head) => without_query(head.target()),
    }
}

/// A target without its query.
fn without_query(target: &[u8]) -> &[u8]
    ensures { result.now ≡ path_part target.now }
{
    for k in 0..target.len() {
        if target[k] == b'?' {
            return &target[..k];
        }
    }
    target
}

/// Appends the head of a reply with this document.
pub(crate) fn push_head(
    out: &mut Vec<u8>,
    head: Option<&Head>,
    call: Option<&Call>,
    reply: &Reply,
    document: &[u8],
    now: u64,
    close: bool,
) -> Result<(), NoMemory>
    requires { document.now ≡ document_bytes (asked_of head call reply.now) }
    ensures { OnOk result (out.new.items ≡ out.old.items ++ head_bytes (asked_of head.entry call.entry reply.now) now close) }
{
    let status = reply_status(call, reply);
    push_status_line(out, status)?;
    fields::push_date(out, now)?;
    fields::push_connection(out, close)?;
    fields::push_content_length(out, is_silent(head), status.as_u16(), reply, document.len())?;
    fields::push_content_type(out, reply, document.len())?;
    fields::push_content_range(out, call, reply)?;
    fields::push_allow(out, reply)?;
    fields::push_location(out, call, reply)?;
    fields::push_last_modified(out, reply)?;
    fields::push_etag(out, reply)?;
    fields::push_accept_ranges(out, reply)?;
    fields::push_delete_marker(out, reply)?;
    fields::push_version_id(out, reply)?;
    push_bytes(out, b"\r\n")?;
    Ok(())
}
