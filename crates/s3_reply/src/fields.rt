//! The headers of a reply: each function appends the line of one where the reply has it.

ghost use Rattle.std.specs.Prelude.{◌≡◌, ◌++◌, ◌+◌, ◌-◌, codes, decimal, length, Some, OnOk};
ghost use Rattle.s3_reply.specs.Asked.{seen_call};
ghost use Rattle.s3_reply.specs.Dates.{http_date};
ghost use Rattle.s3_reply.specs.Headers.{value_line, where_true, length_of_rest, content_length_of, content_type_of, content_range_of, range_text, allow_of, location_of, place_of_bucket, last_modified_of, etag_of, accept_ranges_of, delete_marker_of, version_id_of, told_name, marker_of, kind_of, type_of_document, tag_of_version};
ghost use Rattle.s3_reply.specs.Words.{quoted_tag, name_text};

use crate::bits::{hyphenated, push_bytes, push_parts, tag_digits};
use crate::dates::http_date;
use crate::status::{body_length, gives_part};
use call_types::{Etag, Refusal, Reply, Span, VersionName, What};
use desk_base::Call;
use fault_base::NoMemory;
use itoa::Buffer;

/// Appends the start of a header's line.
fn push_start(out: &mut Vec<u8>, name: &[u8]) -> Result<(), NoMemory>
    ensures { OnOk result (out.new.items ≡ out.old.items ++ (name.now ++ codes ": ")) }
{
    push_bytes(out, name)?;
    push_bytes(out, b": ")?;
    Ok(())
}

/// Appends the line of a header with this value.
fn push_line(out: &mut Vec<u8>, name: &[u8], value: &[u8]) -> Result<(), NoMemory>
    ensures { OnOk result (out.new.items ≡ out.old.items ++ value_line name.now (Some value.now)) }
{
    push_start(out, name)?;
    push_bytes(out, value)?;
    push_bytes(out, b"\r\n")?;
    Ok(())
}

/// Appends `Date`.
pub(crate) fn push_date(out: &mut Vec<u8>, now: u64) -> Result<(), NoMemory>
    ensures { OnOk result (out.new.items ≡ out.old.items ++ value_line (codes "Date") (Some (http_date now))) }
{
    push_line(out, b"Date", &http_date(now))
}

/// Appends `Connection`.
pub(crate) fn push_connection(out: &mut Vec<u8>, close: bool) -> Result<(), NoMemory>
    ensures { OnOk result (out.new.items ≡ out.old.items ++ value_line (codes "Connection") (where_true close (codes "close"))) }
{
    if close {
        push_line(out, b"Connection", b"close")?;
    }
    Ok(())
}

/// Appends `Content-Length` of a reply of this status with a document of so many bytes. A silent reply is one to a HEAD.
pub(crate) fn push_content_length(
    out: &mut Vec<u8>,
    silent: bool,
    status: u16,
    reply: &Reply,
    document: usize,
) -> Result<(), NoMemory>
    ensures { OnOk result (out.new.items ≡ out.old.items ++ value_line (codes "Content-Length") (content_length_of silent status document reply.now)) }
{
    match reply {
        Reply::Found { version, span, .. } => {
            if silent {
                push_length(out, body_length(&version.what))
            } else {
                push_length(out, span.length)
            }
        }
        _ => push_length_of_rest(out, silent, status, document),
    }
}

/// Appends `Content-Length` of a reply that gives no version.
fn push_length_of_rest(
    out: &mut Vec<u8>,
    silent: bool,
    status: u16,
    document: usize,
) -> Result<(), NoMemory>
    ensures { OnOk result (out.new.items ≡ out.old.items ++ value_line (codes "Content-Length") (length_of_rest silent status document)) }
{
    if silent || status == 204 {
        return Ok(());
    }
    push_length(out, document as u64)
}

/// Appends `Content-Length` of this number.
fn push_length(out: &mut Vec<u8>, length: u64) -> Result<(), NoMemory>
    ensures { OnOk result (out.new.items ≡ out.old.items ++ value_line (codes "Content-Length") (Some (decimal length))) }
{
    let mut buffer = Buffer::new();
    push_line(out, b"Content-Length", buffer.format(length).as_bytes())
}

/// Appends `Content-Type` of a reply with a document of so many bytes.
pub(crate) fn push_content_type(
    out: &mut Vec<u8>,
    reply: &Reply,
    document: usize,
) -> Result<(), NoMemory>
    ensures { OnOk result (out.new.items ≡ out.old.items ++ value_line (codes "Content-Type") (content_type_of document reply.now)) }
{
    match reply {
        Reply::Found { version, .. } => push_kind(out, &version.what),
        _ => push_document_type(out, document),
    }
}

/// Appends `Content-Type` of a version.
fn push_kind(out: &mut Vec<u8>, what: &What) -> Result<(), NoMemory>
    ensures { OnOk result (out.new.items ≡ out.old.items ++ value_line (codes "Content-Type") (kind_of what.now)) }
{
    match what {
        What::Marker => Ok(()),
        What::Object { kind, .. } => push_line(out, b"Content-Type", kind.as_slice()),
    }
}

/// Appends `Content-Type` of a document, where it has bytes.
fn push_document_type(out: &mut Vec<u8>, document: usize) -> Result<(), NoMemory>
    ensures { OnOk result (out.new.items ≡ out.old.items ++ value_line (codes "Content-Type") (type_of_document document)) }
{
    if document == 0 {
        return Ok(());
    }
    push_line(out, b"Content-Type", b"application/xml")
}

/// Appends `Content-Range`.
pub(crate) fn push_content_range(
    out: &mut Vec<u8>,
    call: Option<&Call>,
    reply: &Reply,
) -> Result<(), NoMemory>
    ensures { OnOk result (out.new.items ≡ out.old.items ++ value_line (codes "Content-Range") (content_range_of (seen_call call.entry) reply.now)) }
{
    match reply {
        Reply::Found { version, span, .. } => {
            let length = body_length(&version.what);
            if gives_part(call, length) {
                push_range(out, *span, length)?;
            }
            Ok(())
        }
        Reply::Refused(Refusal::InvalidRange(length)) => push_no_range(out, *length),
        _ => Ok(()),
    }
}

/// Appends `Content-Range` of a span of a body of this length.
fn push_range(out: &mut Vec<u8>, span: Span, length: u64) -> Result<(), NoMemory>
    ensures { OnOk result (out.new.items ≡ out.old.items ++ value_line (codes "Content-Range") (Some (range_text span length))) }
{
    push_start(out, b"Content-Range")?;
    push_bytes(out, b"bytes ")?;
    push_decimal(out, span.at as u128)?;
    push_bytes(out, b"-")?;
    push_last(out, span)?;
    push_bytes(out, b"/")?;
    push_decimal(out, length as u128)?;
    push_bytes(out, b"\r\n")?;
    Ok(())
}

/// Appends the place of the last byte of a span. The end of a span may be above the greatest u64.
fn push_last(out: &mut Vec<u8>, span: Span) -> Result<(), NoMemory>
    ensures { OnOk result (out.new.items ≡ out.old.items ++ decimal (span.at + span.length - 1)) }
{
    let end = span.at as u128 + span.length as u128;
    push_decimal(out, end.saturating_sub(1))
}

/// Appends a number.
fn push_decimal(out: &mut Vec<u8>, number: u128) -> Result<(), NoMemory>
    ensures { OnOk result (out.new.items ≡ out.old.items ++ decimal number) }
{
    let mut buffer = Buffer::new();
    push_bytes(out, buffer.format(number).as_bytes())?;
    Ok(())
}

/// Appends `Content-Range` of a body of this length that has no such range.
fn push_no_range(out: &mut Vec<u8>, length: u64) -> Result<(), NoMemory>
    ensures { OnOk result (out.new.items ≡ out.old.items ++ value_line (codes "Content-Range") (Some (codes "bytes */" ++ decimal length))) }
{
    push_start(out, b"Content-Range")?;
    push_bytes(out, b"bytes */")?;
    push_decimal(out, length as u128)?;
    push_bytes(out, b"\r\n")?;
    Ok(())
}

/// Appends `Allow`.
pub(crate) fn push_allow(out: &mut Vec<u8>, reply: &Reply) -> Result<(), NoMemory>
    ensures { OnOk result (out.new.items ≡ out.old.items ++ value_line (codes "Allow") (allow_of reply.now)) }
{
    match reply {
        Reply::Refused(Refusal::MarkerNamed { .. }) => push_line(out, b"Allow", b"DELETE"),
        _ => Ok(()),
    }
}

/// Appends `Location`.
pub(crate) fn push_location(
    out: &mut Vec<u8>,
    call: Option<&Call>,
    reply: &Reply,
) -> Result<(), NoMemory>
    ensures { OnOk result (out.new.items ≡ out.old.items ++ value_line (codes "Location") (location_of (seen_call call.entry) reply.now)) }
{
    match reply {
        Reply::Plain => push_place(out, call),
        _ => Ok(()),
    }
}

/// Appends `Location` of the bucket that a call makes.
fn push_place(out: &mut Vec<u8>, call: Option<&Call>) -> Result<(), NoMemory>
    ensures { OnOk result (out.new.items ≡ out.old.items ++ value_line (codes "Location") (place_of_bucket (seen_call call.entry))) }
{
    match call {
        Some(Call::CreateBucket { bucket }) => {
            push_start(out, b"Location")?;
            push_bytes(out, b"/")?;
            push_bytes(out, bucket.as_slice())?;
            push_bytes(out, b"\r\n")?;
            Ok(())
        }
        _ => Ok(()),
    }
}

/// Appends `Last-Modified`.
pub(crate) fn push_last_modified(out: &mut Vec<u8>, reply: &Reply) -> Result<(), NoMemory>
    ensures { OnOk result (out.new.items ≡ out.old.items ++ value_line (codes "Last-Modified") (last_modified_of reply.now)) }
{
    match reply {
        Reply::Found { version, .. } => {
            push_line(out, b"Last-Modified", &http_date(version.modified))
        }
        Reply::Refused(Refusal::MarkerNamed { modified, .. }) => {
            push_line(out, b"Last-Modified", &http_date(*modified))
        }
        _ => Ok(()),
    }
}

/// Appends `ETag`.
pub(crate) fn push_etag(out: &mut Vec<u8>, reply: &Reply) -> Result<(), NoMemory>
    ensures { OnOk result (out.new.items ≡ out.old.items ++ value_line (codes "ETag") (etag_of reply.now)) }
{
    match reply {
        Reply::Stored { etag, .. } => push_tag(out, *etag),
        Reply::Found { version, .. } => push_version_tag(out, &version.what),
        _ => Ok(()),
    }
}

/// Appends `ETag` of a version.
fn push_version_tag(out: &mut Vec<u8>, what: &What) -> Result<(), NoMemory>
    ensures { OnOk result (out.new.items ≡ out.old.items ++ value_line (codes "ETag") (tag_of_version what.now)) }
{
    match what {
        What::Marker => Ok(()),
        What::Object { md5, parts, .. } => {
            let (md5, parts) = (*md5, *parts);
            push_tag(out, Etag { md5, parts })
        }
    }
}

/// Appends `ETag` of this tag.
fn push_tag(out: &mut Vec<u8>, etag: Etag) -> Result<(), NoMemory>
    ensures { OnOk result (out.new.items ≡ out.old.items ++ value_line (codes "ETag") (Some (quoted_tag etag))) }
{
    push_start(out, b"ETag")?;
    push_bytes(out, b"\"")?;
    push_bytes(out, &tag_digits(&etag.md5))?;
    push_parts(out, etag.parts)?;
    push_bytes(out, b"\"")?;
    push_bytes(out, b"\r\n")?;
    Ok(())
}

/// Appends `Accept-Ranges`.
pub(crate) fn push_accept_ranges(out: &mut Vec<u8>, reply: &Reply) -> Result<(), NoMemory>
    ensures { OnOk result (out.new.items ≡ out.old.items ++ value_line (codes "Accept-Ranges") (accept_ranges_of reply.now)) }
{
    match reply {
        Reply::Found { .. } => push_line(out, b"Accept-Ranges", b"bytes"),
        _ => Ok(()),
    }
}

/// Appends `x-amz-delete-marker`.
pub(crate) fn push_delete_marker(out: &mut Vec<u8>, reply: &Reply) -> Result<(), NoMemory>
    ensures { OnOk result (out.new.items ≡ out.old.items ++ value_line (codes "x-amz-delete-marker") (delete_marker_of reply.now)) }
{
    match reply {
        Reply::Deleted { marker: true, .. } => push_line(out, b"x-amz-delete-marker", b"true"),
        Reply::Refused(why) => match marker(why) {
            None => Ok(()),
            Some(_) => push_line(out, b"x-amz-delete-marker", b"true"),
        },
        _ => Ok(()),
    }
}

/// The delete marker that a refusal names.
fn marker(why: &Refusal) -> Option<VersionName>
    ensures { result ≡ marker_of why.now }
{
    match why {
        Refusal::NoSuchKey { marker } => *marker,
        Refusal::MarkerNamed { id, .. } => Some(*id),
        _ => None,
    }
}

/// The version that a reply names.
fn told(reply: &Reply) -> Option<VersionName>
    ensures { result ≡ told_name reply.now }
{
    match reply {
        Reply::Stored { id, .. } => *id,
        Reply::Found { id, .. } => *id,
        Reply::Deleted { id, .. } => *id,
        Reply::Completed { id, .. } => *id,
        Reply::Refused(why) => marker(why),
        _ => None,
    }
}

/// Appends `x-amz-version-id`.
pub(crate) fn push_version_id(out: &mut Vec<u8>, reply: &Reply) -> Result<(), NoMemory>
    ensures { OnOk result (out.new.items ≡ out.old.items ++ value_line (codes "x-amz-version-id") (version_id_of reply.now)) }
{
    match told(reply) {
        None => Ok(()),
        Some(name) => push_name(out, name),
    }
}

/// Appends `x-amz-version-id` of this version.
fn push_name(out: &mut Vec<u8>, name: VersionName) -> Result<(), NoMemory>
    ensures { OnOk result (out.new.items ≡ out.old.items ++ value_line (codes "x-amz-version-id") (Some (name_text name))) }
{
    match name {
        VersionName::Null => push_line(out, b"x-amz-version-id", b"null"),
        VersionName::Id(id) => {
            let mut buffer = [0; 36];
            push_line(out, b"x-amz-version-id", hyphenated(&id, &mut buffer))
        }
    }
}
