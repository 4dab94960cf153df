//! The target of a request: its path, its query, and the place that the path names.

ghost use Rattle.std.specs.Prelude.{◌≡◌, ◌==◌, ◌≤◌, length, drop, Some, None, Ok};
ghost use Rattle.std.specs.List.{position_or_len};
ghost use Rattle.form_urlencoded.specs.Form.{split_once};
ghost use Rattle.s3_request.specs.Refusing.{Gives};
ghost use Rattle.s3_request.specs.Target.{begins_with_slash, path_of, query_of, place_in, place_of};

use crate::fault::CallFault;
use call_types::{Key, Refusal};
use percent_encoding::{DecodeError, percent_decode};
use seal_file::Text;
use std::alloc::Global;

/// What a path names.
#[derive(Drop)]
pub enum Place {
    /// The service.
    Service,
    /// A bucket, which need not be lawful.
    Bucket(Text),
    /// A key of a bucket, which need not be lawful.
    Object(Key),
}

/// The place of the first separator, or the length where there is none.
pub fn separator_place(text: &[u8], separator: u8) -> usize
    ensures place { result ≡ position_or_len (λ b. b == separator) text.now }
    ensures within { result ≤ length text.now }
{
    match text.iter().position(|byte| *byte == separator) {
        Some(at) => at,
        None => text.len(),
    }
}

/// The bytes before the first separator, or all of them, and those behind it.
pub fn cut(text: &[u8], separator: u8) -> (&[u8], &[u8])
    ensures before { result.0.now ≡ (split_once separator text.now).0 }
    ensures behind { result.1.now ≡ (split_once separator text.now).1 }
{
    let at = separator_place(text, separator);
    if at == text.len() {
        return (text, &[]);
    }
    (&text[..at], &text[at + 1..])
}

/// Whether a target begins with a slash.
fn begins_with_slash(target: &[u8]) -> bool
    ensures { result ≡ begins_with_slash target.now }
{
    !target.is_empty() && target[0] == b'/'
}

/// What stands behind the first byte.
fn behind_slash(target: &[u8]) -> &[u8]
    ensures { result.now ≡ drop 1 target.now }
{
    if target.is_empty() {
        return target;
    }
    &target[1..]
}

/// The query of a target, still encoded.
pub fn query_of(target: &[u8]) -> &[u8]
    ensures { result.now ≡ query_of target.now }
{
    let (_, query) = cut(behind_slash(target), b'?');
    query
}

/// What a decoded path names behind its first slash.
fn place_in(alloc: Global, path: &[u8]) -> Result<Place, CallFault>
    ensures { Gives (Ok (place_in path.now)) result }
{
    if path.is_empty() {
        return Ok(Place::Service);
    }
    let (bucket, key) = cut(path, b'/');
    let bucket = Text::from_slice(alloc, bucket)?;
    if key.is_empty() {
        return Ok(Place::Bucket(bucket));
    }
    let key = Text::from_slice(alloc, key)?;
    Ok(Place::Object(Key { bucket, key }))
}

/// The place that a target names. It is refused where it doesn't begin with a slash, or where its decoded path is no UTF-8.
pub fn place_of(alloc: Global, target: &[u8]) -> Result<Place, CallFault>
    ensures { Gives (place_of target.now) result }
{
    if !begins_with_slash(target) {
        return Err(CallFault::Refused(Refusal::InvalidURI));
    }
    let (path, _) = cut(behind_slash(target), b'?');
    match percent_decode(path).decode_utf8(alloc) {
        Ok(path) => place_in(alloc, path.as_str().as_bytes()),
        Err(DecodeError::OutOfMemory) => Err(CallFault::NoMemory),
        Err(DecodeError::Utf8(_)) => Err(CallFault::Refused(Refusal::InvalidURI)),
    }
}
