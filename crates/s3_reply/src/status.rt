//! The status of a reply.

ghost use Rattle.std.specs.Prelude.{◌≡◌, ◌++◌, [], unwrap_or, OnOk};
ghost use Rattle.http.specs.StatusCode.{code_digits, reason_phrase};
ghost use Rattle.s3_reply.specs.Asked.{seen_call};
ghost use Rattle.s3_reply.specs.Statuses.{body_length, gives_part, is_part, removes, status_line, status_of, words_of};

use crate::bits::push_bytes;
use call_types::{RangeAsk, Refusal, Reply, What};
use desk_base::Call;
use fault_base::NoMemory;
use http::StatusCode;

/// The status of a reply to a call.
pub fn reply_status(call: Option<&Call>, reply: &Reply) -> StatusCode
    ensures { result ≡ status_of (seen_call call.entry) reply.now }
{
    match reply {
        Reply::Plain => {
            if removes(call) {
                StatusCode::NO_CONTENT
            } else {
                StatusCode::OK
            }
        }
        Reply::Deleted { .. } => StatusCode::NO_CONTENT,
        Reply::Found { version, .. } => {
            if gives_part(call, body_length(&version.what)) {
                StatusCode::PARTIAL_CONTENT
            } else {
                StatusCode::OK
            }
        }
        Reply::Refused(why) => refusal_status(why),
        _ => StatusCode::OK,
    }
}

/// Whether a call has nothing to tell once it is done.
fn removes(call: Option<&Call>) -> bool
    ensures { result ≡ removes (seen_call call.entry) }
{
    match call {
        Some(Call::Delete { .. }) => true,
        Some(Call::Abort { .. }) => true,
        _ => false,
    }
}

/// Whether the answer to a call is a part of a body of this length.
pub(crate) fn gives_part(call: Option<&Call>, length: u64) -> bool
    ensures { result ≡ gives_part (seen_call call.entry) length }
{
    match call {
        Some(Call::Get { ask, .. }) => is_part(length, ask),
        _ => false,
    }
}

/// Whether the answer to a range is a part of a body of this length.
fn is_part(length: u64, ask: &RangeAsk) -> bool
    ensures { result ≡ is_part length ask.now }
{
    span_plan::is_partial(length, ask)
}

/// The length of the body of a version.
pub(crate) fn body_length(what: &What) -> u64
    ensures { result ≡ body_length what.now }
{
    match what {
        What::Marker => 0,
        What::Object { length, .. } => *length,
    }
}

/// The status of a refusal.
pub fn refusal_status(why: &Refusal) -> StatusCode
    ensures { result ≡ (words_of why.now).status }
{
    match why {
        Refusal::NoLength => StatusCode::LENGTH_REQUIRED,
        Refusal::ChunkedBody | Refusal::NotImplemented => StatusCode::NOT_IMPLEMENTED,
        Refusal::NoSuchBucket
        | Refusal::NoSuchKey { .. }
        | Refusal::NoSuchVersion
        | Refusal::NoSuchUpload => StatusCode::NOT_FOUND,
        Refusal::MarkerNamed { .. } => StatusCode::METHOD_NOT_ALLOWED,
        Refusal::BucketThere => StatusCode::CONFLICT,
        Refusal::PreconditionFailed => StatusCode::PRECONDITION_FAILED,
        Refusal::InvalidRange(_) => StatusCode::RANGE_NOT_SATISFIABLE,
        Refusal::ReadQuorum(_)
        | Refusal::WriteQuorum(_)
        | Refusal::Undecided { .. }
        | Refusal::ShardQuorum(_)
        | Refusal::SeqSpent
        | Refusal::NotInFlight(_)
        | Refusal::AuditFailed { .. } => StatusCode::SERVICE_UNAVAILABLE,
        _ => StatusCode::BAD_REQUEST,
    }
}

/// The phrase of a status.
fn phrase(status: StatusCode) -> &'static str
    ensures { result.now ≡ unwrap_or (reason_phrase status) [] }
{
    match status.canonical_reason() {
        Some(phrase) => phrase,
        None => "",
    }
}

/// Appends the three digits of a status.
fn push_digits(out: &mut Vec<u8>, status: StatusCode) -> Result<(), NoMemory>
    ensures { OnOk result (out.new.items ≡ out.old.items ++ code_digits status) }
{
    push_bytes(out, status.as_str().as_bytes())?;
    Ok(())
}

/// Appends the phrase of a status.
fn push_phrase(out: &mut Vec<u8>, status: StatusCode) -> Result<(), NoMemory>
    ensures { OnOk result (out.new.items ≡ out.old.items ++ unwrap_or (reason_phrase status) []) }
{
    push_bytes(out, phrase(status).as_bytes())?;
    Ok(())
}

/// Appends the first line of a head.
pub(crate) fn push_status_line(out: &mut Vec<u8>, status: StatusCode) -> Result<(), NoMemory>
    ensures { OnOk result (out.new.items ≡ out.old.items ++ status_line status) }
{
    push_bytes(out, b"HTTP/1.1 ")?;
    push_digits(out, status)?;
    push_bytes(out, b" ")?;
    push_phrase(out, status)?;
    push_bytes(out, b"\r\n")?;
    Ok(())
}
