//! What a listing asks for.

ghost use Rattle.std.specs.Prelude.{◌≡◌, Some, None, IfOk, MatchOption, codes};
ghost use Rattle.std.specs.Str.{is_utf8};
ghost use Rattle.s3_request.specs.Query.{value_of};
ghost use Rattle.s3_request.specs.Refusing.{Gives, IsRefusal};
ghost use Rattle.s3_request.specs.Pages.{encoded_of, first_name, id_marker_of, is_wrong, list_ask, list_page, most_of, refuse_first, rows_within, text_or_empty, token_of, versions_ask, versions_page};

use crate::arguments::{number_of, version_name_of};
use crate::fault::{CallFault, invalid_argument};
use crate::query::Query;
use call_types::VersionName;
use desk_base::{ListAsk, VersionsAsk};
use fault_base::NoMemory;
use hex::FromHexError;
use seal_file::Text;
use std::alloc::Global;

/// The greatest `max-keys`.
const MOST_KEYS: u64 = 2_147_483_647;

/// The most rows of a page.
const MOST_ROWS: u64 = 1_000;

/// What a listing of keys asks for. Of two wrong arguments the first in the query is refused.
pub fn list_ask(alloc: Global, query: &Query) -> Result<ListAsk, CallFault>
    ensures { Gives (list_ask query.now) result }
{
    let most = most_of(query);
    let encoded = encoded_of(query);
    match token_of(alloc, query) {
        Ok(token) => list_page(alloc, query, most, encoded, token),
        Err(NoMemory) => Err(CallFault::NoMemory),
    }
}

/// What a listing of keys asks for, by its arguments, of which none is for a wrong one.
fn list_page(
    alloc: Global,
    query: &Query,
    most: Option<u16>,
    encoded: Option<bool>,
    token: Option<Option<Text>>,
) -> Result<ListAsk, CallFault>
    ensures { Gives (list_page query.now most encoded token) result }
{
    let wrong = Wrong {
        most: most.is_none(),
        encoded: encoded.is_none(),
        third: "continuation-token",
        other: token.is_none(),
    };
    let (Some(most), Some(encoded), Some(token)) = (most, encoded, token) else {
        return Err(refuse_first(alloc, query, wrong));
    };
    let prefix = text_or_empty(alloc, query, "prefix")?;
    let delimiter = text_or_empty(alloc, query, "delimiter")?;
    let start_after = text_of(alloc, query, "start-after")?;
    Ok(ListAsk {
        prefix,
        delimiter,
        most,
        encoded,
        start_after,
        token,
    })
}

/// What a listing of versions asks for. Of two wrong arguments the first in the query is refused.
pub fn versions_ask(alloc: Global, query: &Query) -> Result<VersionsAsk, CallFault>
    ensures { Gives (versions_ask query.now) result }
{
    versions_page(
        alloc,
        query,
        most_of(query),
        encoded_of(query),
        id_marker_of(query),
    )
}

/// What a listing of versions asks for, by its arguments, of which none is for a wrong one.
fn versions_page(
    alloc: Global,
    query: &Query,
    most: Option<u16>,
    encoded: Option<bool>,
    marker: Option<Option<VersionName>>,
) -> Result<VersionsAsk, CallFault>
    ensures { Gives (versions_page query.now most encoded marker) result }
{
    let wrong = Wrong {
        most: most.is_none(),
        encoded: encoded.is_none(),
        third: "version-id-marker",
        other: marker.is_none(),
    };
    let (Some(most), Some(encoded), Some(id_marker)) = (most, encoded, marker) else {
        return Err(refuse_first(alloc, query, wrong));
    };
    let prefix = text_or_empty(alloc, query, "prefix")?;
    let delimiter = text_or_empty(alloc, query, "delimiter")?;
    let key_marker = text_of(alloc, query, "key-marker")?;
    Ok(VersionsAsk {
        prefix,
        delimiter,
        most,
        encoded,
        key_marker,
        id_marker,
    })
}

/// Which arguments are wrong, of `max-keys`, `encoding-type` and a third.
#[derive(Clone, Copy)]
struct Wrong<'a> {
    most: bool,
    encoded: bool,
    third: &'a str,
    other: bool,
}

/// The refusal of the wrong argument that stands first in the query.
fn refuse_first(alloc: Global, query: &Query, wrong: Wrong<'_>) -> CallFault
    ensures { IsRefusal (refuse_first query.now wrong.entry.most wrong.entry.encoded wrong.entry.third.now wrong.entry.other) result }
{
    invalid_argument(alloc, first_name(query, wrong))
}

/// Whether a name is that of a wrong argument.
fn is_wrong(wrong: Wrong<'_>, name: &str) -> bool
    ensures { result ≡ is_wrong wrong.entry.most wrong.entry.encoded wrong.entry.third.now wrong.entry.other name.now }
{
    name == "max-keys" && wrong.most
        || name == "encoding-type" && wrong.encoded
        || name == wrong.third && wrong.other
}

/// The wrong argument that stands first in the query.
fn first_name<'a>(query: &'a Query, wrong: Wrong<'_>) -> &'a str
    ensures { result.now ≡ first_name (is_wrong wrong.entry.most wrong.entry.encoded wrong.entry.third.now wrong.entry.other) query.now }
{
    for i in 0..query.len() {
        if is_wrong(wrong, query.name(i)) {
            return query.name(i);
        }
    }
    ""
}

/// A copy of the first value of a name.
fn text_of(alloc: Global, query: &Query, name: &str) -> Result<Option<Text>, NoMemory>
    ensures { IfOk result (λ text. text ≡ value_of query.now name.now) }
{
    match query.value_of(name) {
        Some(text) => Ok(Some(Text::from_slice(alloc, text.as_bytes())?)),
        None => Ok(None),
    }
}

/// A copy of the first value of a name, or the empty text.
fn text_or_empty(alloc: Global, query: &Query, name: &str) -> Result<Text, NoMemory>
    ensures { IfOk result (λ text. text ≡ text_or_empty (value_of query.now name.now)) }
{
    match query.value_of(name) {
        Some(text) => Text::from_slice(alloc, text.as_bytes()),
        None => Ok(Text::empty(alloc)),
    }
}

/// `max-keys`: how many rows at most, and none where it is wrong.
fn most_of(query: &Query) -> Option<u16>
    ensures { result ≡ most_of (value_of query.now (codes "max-keys")) }
{
    match query.value_of("max-keys") {
        Some(text) => rows_within(number_of(text.as_bytes())),
        None => Some(1_000),
    }
}

/// At most 1,000 rows of a number of 31 bits.
fn rows_within(number: Option<u64>) -> Option<u16>
    ensures { result ≡ rows_within number }
{
    match number {
        Some(number) if number <= MOST_KEYS => Some(number.min(MOST_ROWS) as u16),
        _ => None,
    }
}

/// `encoding-type`: whether names are percent-encoded, and none where it is wrong.
fn encoded_of(query: &Query) -> Option<bool>
    ensures { result ≡ encoded_of (value_of query.now (codes "encoding-type")) }
{
    match query.value_of("encoding-type") {
        Some(text) if text == "url" => Some(true),
        Some(_) => None,
        None => Some(false),
    }
}

/// `continuation-token`: the text of which it is the hex, and none where it is wrong.
fn token_of(alloc: Global, query: &Query) -> Result<Option<Option<Text>>, NoMemory>
    ensures { IfOk result (λ token. token ≡ token_of (value_of query.now (codes "continuation-token"))) }
{
    match query.value_of("continuation-token") {
        Some(text) => decoded_token(alloc, text),
        None => Ok(Some(None)),
    }
}

/// Whether bytes are UTF-8.
fn is_utf8(bytes: &[u8]) -> bool
    ensures { result ≡ is_utf8 bytes.now }
{
    match str::from_utf8(bytes) {
        Ok(_) => true,
        Err(_) => false,
    }
}

/// The text of which a token is the hex.
fn decoded_token(alloc: Global, text: &str) -> Result<Option<Option<Text>>, NoMemory>
    ensures { IfOk result (λ token. token ≡ token_of (Some text.now)) }
{
    match hex::decode(alloc, text) {
        Ok(bytes) => {
            if is_utf8(&bytes) {
                return Ok(Some(Some(Text::from_vec(bytes))));
            }
            Ok(None)
        }
        Err(FromHexError::OutOfMemory) => Err(NoMemory),
        Err(_) => Ok(None),
    }
}

/// `version-id-marker`, which comes only with a `key-marker`, and none where it is wrong.
fn id_marker_of(query: &Query) -> Option<Option<VersionName>>
    ensures { result ≡ id_marker_of (value_of query.now (codes "key-marker")) (value_of query.now (codes "version-id-marker")) }
{
    let Some(text) = query.value_of("version-id-marker") else {
        return Some(None);
    };
    if !query.has("key-marker") {
        return None;
    }
    match version_name_of(text) {
        Some(name) => Some(Some(name)),
        None => None,
    }
}
