//! Rows over `s3_reply`: a request, ` | ` and a reply, and the text of that reply to that request.

use crate::refusals::{refusal, said_refusal};
use crate::replies::reply;
use crate::requests::{call_of, head_of};
use crate::texts::said_text;
use call_types::Reply;
use desk_base::Call;
use http_wire::Head;
use s3_reply::{document, escaping_laws, head_text, reply_text};
use std::alloc::Global;
use trial_base::{Names, NoAnswer, first, number, said};

/// 6 November 1994, 08:49:37 (RFC 9110, section 5.6.7).
const NOW: u64 = 784_111_777;

/// How a reply is told.
#[derive(Clone, Copy)]
struct Telling {
    /// The moment, in Unix seconds.
    now: u64,
    /// Whether the connection closes.
    close: bool,
    /// Whether the head of the request is shown, beside its call.
    head: bool,
}

/// The head of a reply and its document, each written alone.
fn in_parts(
    alloc: Global,
    telling: Telling,
    head: Option<&Head>,
    call: Option<&Call>,
    reply: &Reply,
) -> Result<Vec<u8>, NoAnswer> {
    let mut parts = head_text(alloc, head, call, reply, telling.now, telling.close)?;
    let document = document(alloc, head, call, reply)?;
    parts.extend_from_slice(document.as_slice())?;
    Ok(parts)
}

/// The text of a reply, and that of its parts where it is another.
fn written(
    alloc: Global,
    telling: Telling,
    head: Option<&Head>,
    call: Option<&Call>,
    reply: &Reply,
) -> Result<String, NoAnswer> {
    let whole = reply_text(alloc, head, call, reply, telling.now, telling.close)?;
    let parts = in_parts(alloc, telling, head, call, reply)?;
    let whole = said_text(alloc, whole.as_slice())?;
    let parts = said_text(alloc, parts.as_slice())?;
    if whole == parts {
        return Ok(whole);
    }
    Ok(format!(in alloc; "{whole}, in parts {parts}")?)
}

/// What a head is told of a reply.
fn told(
    alloc: Global,
    telling: Telling,
    head: Option<&Head>,
    reply: &Reply,
) -> Result<String, NoAnswer> {
    let shown = if telling.head { head } else { None };
    let call = call_of(alloc, head)?;
    let told = written(alloc, telling, shown, call.as_ref(), reply);
    drop(call);
    told
}

/// `REQUEST | REPLY`
fn row(alloc: Global, names: &Names, telling: Telling, row: &str) -> Result<String, NoAnswer> {
    let Some((request, words)) = row.split_once(" | ") else {
        return said(alloc, "no reply");
    };
    let head = head_of(alloc, names, request)?;
    let reply = reply(alloc, names, words)?;
    let told = told(alloc, telling, head.as_ref(), &reply);
    drop(reply);
    told
}

/// `REFUSAL`: what a client is told of it.
fn refused(alloc: Global, names: &Names, words: &str) -> Result<String, NoAnswer> {
    let refusal = refusal(alloc, names, words)?;
    let said = said_refusal(alloc, &refusal);
    drop(refusal);
    said
}

pub fn answer(alloc: Global, names: &Names, words: &str) -> Result<String, NoAnswer> {
    let (call, rest) = first(words);
    let telling = Telling {
        now: NOW,
        close: false,
        head: true,
    };
    match call {
        "text" => row(alloc, names, telling, rest),
        "last" => row(
            alloc,
            names,
            Telling {
                close: true,
                ..telling
            },
            rest,
        ),
        "headless" => row(
            alloc,
            names,
            Telling {
                head: false,
                ..telling
            },
            rest,
        ),
        "at" => {
            let (second, rest) = first(rest);
            let now = number(second);
            row(alloc, names, Telling { now, ..telling }, rest)
        }
        "refusal" => refused(alloc, names, rest),
        "laws" => {
            escaping_laws();
            said(alloc, "done")
        }
        _ => said(alloc, "no such call"),
    }
}
