//! The content of a CompleteMultipartUpload: its parts.

ghost use Rattle.std.specs.Prelude.{◌≡◌, ◌<◌, ◌≤◌, List, [], ◌∷◌, ◌++◌, length, IfOk, IfErr, Ok, Err};
ghost use Rattle.call_types.specs.declared.version.PartRef.{PartRef};
ghost use Rattle.s3_docs.specs.Machine.{Between, Tag, After, Parts};
ghost use Rattle.s3_docs.specs.declared.complete.PartsFault.TheVariants.{Left, NoMemory};
ghost use Rattle.s3_docs.specs.Reads.{Reads, Stops};
ghost use Rattle.s3_docs.specs.Answers.{behind_part, StopsParts};

use crate::part::part;
use crate::pieces::{expect, open_tag};
use crate::values::Found;
use call_types::PartRef;
use std::alloc::{AllocFailed, Global};

/// Why the parts were not read.
#[derive(Clone, Copy)]
pub enum PartsFault {
    /// So many bytes are left where no document goes on.
    Left(usize),
    /// There was not enough memory.
    NoMemory,
}

impl From<usize> for PartsFault {
    ghost from_gives = { λ left fault. fault ≡ Left left };

    fn from(left: usize) -> PartsFault {
        PartsFault::Left(left)
    }
}

impl<T: Drop> From<AllocFailed<T>> for PartsFault {
    ghost from_gives = { λ _ fault. fault ≡ NoMemory };

    fn from(_error: AllocFailed<T>) -> PartsFault {
        PartsFault::NoMemory
    }
}

/// The bytes behind white space and the `<` of a part or of the root's end.
fn part_tag(text: &[u8]) -> Result<&[u8], usize>
    ensures shorter { IfOk result (λ rest. length rest.now < length text.now) }
    ensures reads { IfOk result (λ rest. (parts : List PartRef) → Reads (Between parts) text.now (Tag parts) rest.now) }
    ensures stops { IfErr result (λ left. (parts : List PartRef) → Stops (Between parts) text.now left) }
{
    open_tag(text)
}

/// The bytes behind the root's end tag, from behind the `/` in it on.
fn parts_end<'a>(text: &'a [u8], parts: &[PartRef]) -> Result<&'a [u8], usize>
    ensures shorter { IfOk result (λ rest. length rest.now ≤ length text.now) }
    ensures reads { IfOk result (λ rest. Reads (Tag parts.now) (47 ∷ text.now) (After (Parts parts.now)) rest.now) }
    ensures stops { IfErr result (λ left. Stops (Tag parts.now) (47 ∷ text.now) left) }
{
    if parts.is_empty() {
        return Err(text.len() + 1);
    }
    expect(text, b"CompleteMultipartUpload>")
}

/// The next part, or none where the root's end tag stands behind these parts.
fn next_part<'a>(text: &'a [u8], parts: &[PartRef]) -> Result<Found<'a, Option<PartRef>>, usize>
    ensures shorter { IfOk result (λ found. length found.rest.now < length text.now) }
    ensures reads { IfOk result (λ found. Reads (Between parts.now) text.now (behind_part parts.now found.value) found.rest.now) }
    ensures stops { IfErr result (λ left. Stops (Between parts.now) text.now left) }
{
    let tag = part_tag(text)?;
    match tag {
        [b'P', after @ ..] => {
            let content = expect(after, b"art>")?;
            let found = part(content)?;
            Ok(Found {
                value: Some(found.value),
                rest: found.rest,
            })
        }
        [b'/', after @ ..] => {
            let rest = parts_end(after, parts)?;
            Ok(Found { value: None, rest })
        }
        _ => Err(tag.len()),
    }
}

/// The parts, and the bytes behind the root's end tag.
pub fn parts(alloc: Global, text: &[u8]) -> Result<(Vec<PartRef>, &[u8]), PartsFault>
    ensures reads { IfOk result (λ found. Reads (Between []) text.now (After (Parts found.0.items)) found.1.now) }
    ensures stops { IfErr result (StopsParts text.now) }
{
    let mut parts = Vec::new(alloc);
    let mut rest = text;
    loop {
        let found = next_part(rest, parts.as_slice())?;
        rest = found.rest;
        match found.value {
            Some(part) => parts.push(part)?,
            None => return Ok((parts, rest)),
        }
    }
}
