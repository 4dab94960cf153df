//! A Part of a CompleteMultipartUpload: its number and its ETag, in any order, among elements that are passed over.

ghost use Rattle.std.specs.Prelude.{◌≡◌, ◌+◌, ◌<◌, ◌≤◌, List, ℕ, [], ◌∷◌, ◌++◌, codes, length, IfOk, IfErr, None};
ghost use Rattle.call_types.specs.declared.version.PartRef.{PartRef};
ghost use Rattle.s3_docs.specs.Machine.{Part, Inner, Inside, Name, Between};
ghost use Rattle.s3_docs.specs.Reads.{Reads, Stops, NoNameByte, BeginsWithLetter};

use crate::elements::{inner_tag, is_letter, name_of, other};
use crate::pieces::expect;
use crate::values::{Found, etag, part_number};
use call_types::PartRef;

/// What the fields of a Part have said.
#[derive(Clone, Copy)]
struct Fields {
    /// The part's number.
    number: Option<u16>,
    /// The MD5 of its ETag.
    md5: Option<[u8; 16]>,
}

/// A PartNumber, from behind its name in the start tag on.
fn number_field(text: &[u8], fields: Fields) -> Result<Found<'_, Fields>, usize>
    requires { NoNameByte text.now }
    ensures shorter { IfOk result (λ found. length found.rest.now ≤ length text.now) }
    ensures reads { IfOk result (λ found. (parts : List PartRef)
        → Reads (Name (Part parts fields.number fields.md5) (codes "PartNumber")) text.now
        (Inside (Part parts found.value.number found.value.md5)) found.rest.now) }
    ensures stops { IfErr result (λ left. (parts : List PartRef)
        → Stops (Name (Part parts fields.number fields.md5) (codes "PartNumber")) text.now left) }
{
    match (text, fields.number) {
        ([b'>', value @ ..], None) => {
            let found = part_number(value)?;
            let number = Some(found.value);
            Ok(Found {
                value: Fields { number, ..fields },
                rest: found.rest,
            })
        }
        _ => Err(text.len()),
    }
}

/// An ETag, from behind its name in the start tag on.
fn etag_field(text: &[u8], fields: Fields) -> Result<Found<'_, Fields>, usize>
    requires { NoNameByte text.now }
    ensures shorter { IfOk result (λ found. length found.rest.now ≤ length text.now) }
    ensures reads { IfOk result (λ found. (parts : List PartRef)
        → Reads (Name (Part parts fields.number fields.md5) (codes "ETag")) text.now
        (Inside (Part parts found.value.number found.value.md5)) found.rest.now) }
    ensures stops { IfErr result (λ left. (parts : List PartRef)
        → Stops (Name (Part parts fields.number fields.md5) (codes "ETag")) text.now left) }
{
    match (text, fields.md5) {
        ([b'>', value @ ..], None) => {
            let found = etag(value)?;
            let md5 = Some(found.value);
            Ok(Found {
                value: Fields { md5, ..fields },
                rest: found.rest,
            })
        }
        _ => Err(text.len()),
    }
}

/// An element of a Part, from behind its `<` on.
fn part_field(text: &[u8], fields: Fields) -> Result<Found<'_, Fields>, usize>
    requires { BeginsWithLetter text.now }
    ensures shorter { IfOk result (λ found. length found.rest.now < length text.now) }
    ensures reads { IfOk result (λ found. (parts : List PartRef)
        → Reads (Inner (Part parts fields.number fields.md5)) text.now
        (Inside (Part parts found.value.number found.value.md5)) found.rest.now) }
    ensures stops { IfErr result (λ left. (parts : List PartRef)
        → Stops (Inner (Part parts fields.number fields.md5)) text.now left) }
{
    let named = name_of(text);
    if named.name == b"PartNumber".as_slice() {
        return number_field(named.rest, fields);
    }
    if named.name == b"ETag".as_slice() {
        return etag_field(named.rest, fields);
    }
    let rest = other(&named)?;
    Ok(Found {
        value: fields,
        rest,
    })
}

/// The end of a Part, from behind the `/` of its end tag on.
fn part_end(text: &[u8], fields: Fields) -> Result<Found<'_, PartRef>, usize>
    ensures shorter { IfOk result (λ found. length found.rest.now ≤ length text.now) }
    ensures reads { IfOk result (λ found. (parts : List PartRef)
        → Reads (Inner (Part parts fields.number fields.md5)) (47 ∷ text.now) (Between (parts ++ found.value ∷ [])) found.rest.now) }
    ensures stops { IfErr result (λ left. (parts : List PartRef)
        → Stops (Inner (Part parts fields.number fields.md5)) (47 ∷ text.now) left) }
{
    match (fields.number, fields.md5) {
        (Some(number), Some(md5)) => {
            let rest = expect(text, b"Part>")?;
            Ok(Found {
                value: PartRef { number, md5 },
                rest,
            })
        }
        _ => Err(text.len() + 1),
    }
}

/// A Part, from behind its start tag on.
pub fn part(text: &[u8]) -> Result<Found<'_, PartRef>, usize>
    ensures shorter { IfOk result (λ found. length found.rest.now < length text.now) }
    ensures reads { IfOk result (λ found. (parts : List PartRef)
        → Reads (Inside (Part parts None None)) text.now (Between (parts ++ found.value ∷ [])) found.rest.now) }
    ensures stops { IfErr result (λ left. (parts : List PartRef) → Stops (Inside (Part parts None None)) text.now left) }
{
    let mut fields = Fields {
        number: None,
        md5: None,
    };
    let mut rest = text;
    loop {
        let tag = inner_tag(rest)?;
        match tag {
            [b'/', after @ ..] => return part_end(after, fields),
            [first, ..] if is_letter(*first) => {
                let found = part_field(tag, fields)?;
                fields = found.value;
                rest = found.rest;
            }
            _ => return Err(tag.len()),
        }
    }
}
