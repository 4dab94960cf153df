//! What the values of headers and arguments say.

ghost use Rattle.std.specs.Prelude.{◌≡◌, ◌≢◌, ◌↔◌, length, codes, IfOk, IsTrue, true, MatchOption, Some};
ghost use Rattle.std.specs.Int.{IsInRange};
ghost use Rattle.std.specs.Str.{all_ascii_digits};
ghost use Rattle.http_wire.specs.Names.{value_of};
ghost use Rattle.s3_request.specs.Names.{id_of, is_bucket_name};
ghost use Rattle.s3_request.specs.Refusing.{Gives};
ghost use Rattle.s3_request.specs.Query.{value_of as value_in};
ghost use Rattle.s3_request.specs.Arguments.{number_in, number_of, kind_of, kept_kind, md5_of, stated_digest, length_of, within, part_number_in, part_number_of, part_within, id_in, pick_of, version_name_of};

use crate::fault::{CallFault, invalid_argument};
use crate::query::Query;
use base64::DecodeAllocError;
use base64::engine::general_purpose::STANDARD;
use bucket_book::check_name;
use call_types::{Pick, Refusal, VersionName};
use fault_base::NoMemory;
use http_wire::Head;
use seal_file::Text;
use stamp_id::VersionId;
use std::alloc::Global;

/// The most bytes of a content type that are kept.
const MOST_KIND: usize = 255;

/// Whether these bytes are the name of a bucket.
pub fn is_bucket_name(name: &[u8]) -> bool
    ensures { result ≡ is_bucket_name name.now }
{
    match str::from_utf8(name) {
        Ok(name) => check_name(name),
        Err(_) => false,
    }
}

/// Whether a byte is a decimal digit.
fn is_digit(byte: u8) -> bool
    ensures { IsTrue result ↔ IsInRange 48 57 byte }
{
    matches!(byte, b'0'..=b'9')
}

/// Whether all bytes are decimal digits.
fn are_digits(text: &[u8]) -> bool
    ensures { result ≡ all_ascii_digits text.now }
{
    for byte in text {
        if !is_digit(*byte) {
            return false;
        }
    }
    true
}

/// The number that the digits of a text write.
fn parsed(digits: &str) -> Option<u64>
    requires { all_ascii_digits digits.now ≡ true }
    ensures { result ≡ number_in digits.now }
{
    match digits.parse::<u64>() {
        Ok(number) => Some(number),
        Err(_) => None,
    }
}

/// The number that digits write, where there is one that fits 64 bits.
fn number_in(digits: &[u8]) -> Option<u64>
    requires { all_ascii_digits digits.now ≡ true }
    ensures { result ≡ number_in digits.now }
{
    match str::from_utf8(digits) {
        Ok(text) => parsed(text),
        Err(_) => None,
    }
}

/// The number that one digit or more write, where it fits 64 bits.
#[tactic(auto, unfolding(crate::specs::Arguments::number_of))]
pub fn number_of(text: &[u8]) -> Option<u64>
    ensures { result ≡ number_of text.now }
{
    if are_digits(text) {
        number_in(text)
    } else {
        None
    }
}

/// The content type of an object: that of the header, or that of bytes of no known type (RFC 9110, section 8.3). A longer one than 255 bytes is refused.
pub fn kind_of(alloc: Global, head: &Head) -> Result<Text, CallFault>
    ensures { Gives (kind_of (value_of head.now.lines (codes "content-type"))) result }
{
    match head.value_of(b"content-type") {
        Some(kind) => kept_kind(alloc, kind),
        None => kept_kind(alloc, b"binary/octet-stream"),
    }
}

/// A content type of at most 255 bytes.
fn kept_kind(alloc: Global, kind: &[u8]) -> Result<Text, CallFault>
    ensures { Gives (kept_kind kind.now) result }
{
    if kind.len() > MOST_KIND {
        return Err(invalid_argument(alloc, "Content-Type"));
    }
    Ok(Text::from_slice(alloc, kind)?)
}

/// The sixteen bytes of an MD5.
fn digest_in(bytes: &[u8]) -> Option<[u8; 16]>
    ensures { MatchOption result (length bytes.now ≢ 16) (λ digest. (length bytes.now ≡ 16) × (digest ≡ bytes.now)) }
{
    if bytes.len() != 16 {
        return None;
    }
    let mut digest = [0; 16];
    digest.copy_from_slice(bytes);
    Some(digest)
}

/// The MD5 that a value spells: standard base64 with padding of sixteen bytes (RFC 1864).
fn stated_digest(alloc: Global, value: &[u8]) -> Result<[u8; 16], CallFault>
    ensures { Gives (stated_digest value.now) result }
{
    match STANDARD.decode(alloc, value) {
        Ok(bytes) => match digest_in(&bytes) {
            Some(digest) => Ok(digest),
            None => Err(CallFault::Refused(Refusal::InvalidDigest)),
        },
        Err(DecodeAllocError::OutOfMemory) => Err(CallFault::NoMemory),
        Err(DecodeAllocError::DecodeError(_)) => Err(CallFault::Refused(Refusal::InvalidDigest)),
    }
}

/// The stated MD5 of a body.
pub fn md5_of(alloc: Global, head: &Head) -> Result<Option<[u8; 16]>, CallFault>
    ensures { Gives (md5_of (value_of head.now.lines (codes "content-md5"))) result }
{
    match head.value_of(b"content-md5") {
        Some(value) => Ok(Some(stated_digest(alloc, value)?)),
        None => Ok(None),
    }
}

/// The value of the `If-Match`, where there is one. The only error is want of memory.
pub fn match_of(alloc: Global, head: &Head) -> Result<Option<Text>, NoMemory>
    ensures { IfOk result (λ matches. matches ≡ value_of head.now.lines (codes "if-match")) }
{
    match head.value_of(b"if-match") {
        Some(value) => Ok(Some(Text::from_slice(alloc, value)?)),
        None => Ok(None),
    }
}

/// The stated length of a body, which is stated and within the limit.
pub fn length_of(head: &Head, limit: u64) -> Result<u64, CallFault>
    ensures { Gives (length_of limit (value_of head.now.lines (codes "content-length"))) result }
{
    match head.value_of(b"content-length") {
        Some(value) => within(limit, number_of(value)),
        None => Err(CallFault::Refused(Refusal::NoLength)),
    }
}

/// A stated length that is within the limit.
fn within(limit: u64, stated: Option<u64>) -> Result<u64, CallFault>
    ensures { Gives (within limit stated) result }
{
    match stated {
        Some(length) if length <= limit => Ok(length),
        Some(_) => Err(CallFault::Refused(Refusal::EntityTooLarge)),
        None => Err(CallFault::Refused(Refusal::NoLength)),
    }
}

/// The number of the part that `partNumber` says.
pub fn part_number_in(query: &Query) -> Option<u16>
    ensures { result ≡ part_number_in (value_in query.now (codes "partNumber")) }
{
    match query.value_of("partNumber") {
        Some(text) => part_number_of(text.as_bytes()),
        None => None,
    }
}

/// The number of a part, from 1 to 10,000, without a sign and without a zero at its front.
fn part_number_of(text: &[u8]) -> Option<u16>
    ensures { result ≡ part_number_of text.now }
{
    if text.is_empty() {
        return None;
    }
    if text[0] == b'0' {
        return None;
    }
    part_within(number_of(text))
}

/// The number of a part, up to 10,000.
fn part_within(number: Option<u64>) -> Option<u16>
    ensures { result ≡ part_within number }
{
    match number {
        Some(number) if number <= 10_000 => Some(number as u16),
        _ => None,
    }
}

/// The id that a text spells.
pub fn id_of(text: &str) -> Option<VersionId>
    ensures { result ≡ id_of text.now }
{
    match VersionId::parse(text) {
        Ok(id) => Some(id),
        Err(_) => None,
    }
}

/// The name of a version: `null`, or an id.
pub fn version_name_of(text: &str) -> Option<VersionName>
    ensures { result ≡ version_name_of text.now }
{
    if text == "null" {
        return Some(VersionName::Null);
    }
    match id_of(text) {
        Some(id) => Some(VersionName::Id(id)),
        None => None,
    }
}

/// The version that `versionId` names: the current one without it.
pub fn pick_of(query: &Query) -> Option<Pick>
    ensures { result ≡ pick_of (value_in query.now (codes "versionId")) }
{
    match query.value_of("versionId") {
        Some(text) => version_pick(text),
        None => Some(Pick::Current),
    }
}

/// The version of this name.
fn version_pick(text: &str) -> Option<Pick>
    ensures { result ≡ pick_of (Some text.now) }
{
    if text == "null" {
        return Some(Pick::Null);
    }
    match id_of(text) {
        Some(id) => Some(Pick::Id(id)),
        None => None,
    }
}

/// The upload that a call names, none where its text is no id.
pub fn upload_of(query: &Query) -> Option<VersionId>
    ensures { result ≡ id_in (value_in query.now (codes "uploadId")) }
{
    match query.value_of("uploadId") {
        Some(text) => id_of(text),
        None => None,
    }
}
