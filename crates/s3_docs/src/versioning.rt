//! The content of a VersioningConfiguration: its Status, among elements that are passed over.

ghost use Rattle.std.specs.Prelude.{◌≡◌, ◌<◌, ◌≤◌, ◌∷◌, codes, length, IfOk, IfErr, None};
ghost use Rattle.s3_docs.specs.Machine.{Configuration, Inner, Inside, Name, After, Versioning};
ghost use Rattle.s3_docs.specs.Reads.{Reads, Stops, NoNameByte, BeginsWithLetter};

use crate::elements::{inner_tag, is_letter, name_of, other};
use crate::pieces::expect;
use crate::values::{Found, mode};
use call_types::Mode;

/// A Status, from behind its name in the start tag on.
fn status_field(text: &[u8], known: Option<Mode>) -> Result<Found<'_, Option<Mode>>, usize>
    requires { NoNameByte text.now }
    ensures shorter { IfOk result (λ found. length found.rest.now ≤ length text.now) }
    ensures reads { IfOk result (λ found.
        Reads (Name (Configuration known) (codes "Status")) text.now (Inside (Configuration found.value)) found.rest.now) }
    ensures stops { IfErr result (λ left. Stops (Name (Configuration known) (codes "Status")) text.now left) }
{
    match (text, known) {
        ([b'>', value @ ..], None) => {
            let found = mode(value)?;
            Ok(Found {
                value: Some(found.value),
                rest: found.rest,
            })
        }
        _ => Err(text.len()),
    }
}

/// An element of a VersioningConfiguration, from behind its `<` on.
fn configuration_field(text: &[u8], known: Option<Mode>) -> Result<Found<'_, Option<Mode>>, usize>
    requires { BeginsWithLetter text.now }
    ensures shorter { IfOk result (λ found. length found.rest.now < length text.now) }
    ensures reads { IfOk result (λ found.
        Reads (Inner (Configuration known)) text.now (Inside (Configuration found.value)) found.rest.now) }
    ensures stops { IfErr result (λ left. Stops (Inner (Configuration known)) text.now left) }
{
    let named = name_of(text);
    if named.name == b"Status".as_slice() {
        return status_field(named.rest, known);
    }
    let rest = other(&named)?;
    Ok(Found { value: known, rest })
}

/// The end of a VersioningConfiguration, from behind the `/` of its end tag on.
fn configuration_end(text: &[u8], known: Option<Mode>) -> Result<Found<'_, Mode>, usize>
    ensures reads { IfOk result (λ found.
        Reads (Inner (Configuration known)) (47 ∷ text.now) (After (Versioning found.value)) found.rest.now) }
    ensures stops { IfErr result (λ left. Stops (Inner (Configuration known)) (47 ∷ text.now) left) }
{
    match known {
        Some(value) => {
            let rest = expect(text, b"VersioningConfiguration>")?;
            Ok(Found { value, rest })
        }
        None => Err(text.len() + 1),
    }
}

/// The content of a VersioningConfiguration and its end tag.
pub fn configuration(text: &[u8]) -> Result<Found<'_, Mode>, usize>
    ensures reads { IfOk result (λ found.
        Reads (Inside (Configuration None)) text.now (After (Versioning found.value)) found.rest.now) }
    ensures stops { IfErr result (λ left. Stops (Inside (Configuration None)) text.now left) }
{
    let mut known = None;
    let mut rest = text;
    loop {
        let tag = inner_tag(rest)?;
        match tag {
            [b'/', after @ ..] => return configuration_end(after, known),
            [first, ..] if is_letter(*first) => {
                let found = configuration_field(tag, known)?;
                known = found.value;
                rest = found.rest;
            }
            _ => return Err(tag.len()),
        }
    }
}
