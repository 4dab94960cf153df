//! The parts that a CompleteMultipartUpload lists.

ghost use Rattle.std.specs.Prelude.{◌≡◌, ◌++◌, map, IfOk, OnOk};
ghost use Rattle.std.specs.List.{list_all};
ghost use Rattle.std.specs.Option.{option_to_list};
ghost use Rattle.upload_book.specs.Gathering.{number_of, listed_number, is_rising_above, is_found, is_large, all_but_last, parts_of, Checks, AnswersGather};
ghost use Rattle.upload_book.specs.declared.gathering.GatherFault.TheVariants.{Refused, NoMemory};
ghost use Rattle.upload_book.specs.Laws.{RisingAreFew, ChecksAreFirst, FoundAreAll};

use crate::storing::is_open;
use call_types::{KeyRefusal, Listing, PartRecord, PartRef};
use stamp_id::VersionId;
use std::alloc::{AllocError, Global};
use version_list::KeyState;

/// The fewest bytes of a part other than the last.
pub const PART_LEAST: u64 = 5_242_880;

/// The parts of an upload, in the order listed.
pub type PartRecords = Listing<PartRecord>;

/// A part that is listed, and what the register of its number holds.
#[derive(Clone, Copy, PartialEq, Eq)]
pub struct ListedPart {
    /// Its number and entity tag.
    pub part: PartRef,
    /// The part that is stored under its number, if any.
    pub found: Option<PartRecord>,
}

/// Why no parts are gathered.
#[derive(Clone, Copy, PartialEq, Eq)]
pub enum GatherFault {
    /// The state of the key, or one of its parts, refuses it.
    Refused(KeyRefusal),
    /// There was not enough memory.
    NoMemory,
}

impl From<KeyRefusal> for GatherFault {
    ghost from_gives = { λ why fault. fault ≡ Refused why };

    fn from(why: KeyRefusal) -> GatherFault {
        GatherFault::Refused(why)
    }
}

impl From<AllocError> for GatherFault {
    ghost from_gives = { λ _ fault. fault ≡ NoMemory };

    fn from(_error: AllocError) -> GatherFault {
        GatherFault::NoMemory
    }
}

/// The refusals of a list of parts that need no part's register: `NoSuchUpload` where the key has no open upload of that
/// id, and then `PartOrder` where the parts' numbers do not rise strictly. [`gather`] answers the same first.
pub fn check_listed(key: &KeyState, upload: VersionId, parts: &[PartRef]) -> Result<(), KeyRefusal>
    ensures { Checks key.now upload parts.now result }
{
    if !is_open(key, upload) {
        return Err(KeyRefusal::NoSuchUpload);
    }
    if !are_rising(parts) {
        return Err(KeyRefusal::PartOrder);
    }
    Ok(())
}

/// The parts that are listed, as they are stored. Refused are, in this order:
///
/// - `NoSuchUpload` where the key has no open upload of that id.
/// - `PartOrder` where the parts' numbers do not rise strictly.
/// - `InvalidPart` where nothing is stored under a number, or a part with another entity tag.
/// - `PartSmall` where a part other than the last has fewer than 5,242,880 bytes.
pub fn gather(
    alloc: Global,
    key: &KeyState,
    upload: VersionId,
    listed: &[ListedPart],
) -> Result<PartRecords, GatherFault>
    ensures { AnswersGather key.now upload listed.now result }
{
    if !is_open(key, upload) {
        return Err(GatherFault::Refused(KeyRefusal::NoSuchUpload));
    }
    if !are_listed_rising(listed) {
        return Err(GatherFault::Refused(KeyRefusal::PartOrder));
    }
    if !are_found(listed) {
        return Err(GatherFault::Refused(KeyRefusal::InvalidPart));
    }
    let parts = found_parts(alloc, listed)?;
    if !are_large(parts.as_slice()) {
        return Err(GatherFault::Refused(KeyRefusal::PartSmall));
    }
    Ok(PartRecords::from_vec(parts))
}

/// Whether the numbers rise strictly, from above 0.
fn are_rising(parts: &[PartRef]) -> bool
    ensures { result ≡ is_rising_above 0 (map number_of parts.now) }
{
    let mut before = 0;
    for part in parts {
        if part.number <= before {
            return false;
        }
        before = part.number;
    }
    true
}

/// The same of listed parts.
fn are_listed_rising(listed: &[ListedPart]) -> bool
    ensures { result ≡ is_rising_above 0 (map listed_number listed.now) }
{
    let mut before = 0;
    for listed_part in listed {
        if listed_part.part.number <= before {
            return false;
        }
        before = listed_part.part.number;
    }
    true
}

fn is_found(listed: &ListedPart) -> bool
    ensures { result ≡ is_found listed.now }
{
    match listed.found {
        None => false,
        Some(found) => found.md5 == listed.part.md5,
    }
}

fn are_found(listed: &[ListedPart]) -> bool
    ensures { result ≡ list_all is_found listed.now }
{
    listed.iter().all(|part| is_found(part))
}

/// The parts that are stored, in the order listed.
fn found_parts(alloc: Global, listed: &[ListedPart]) -> Result<Vec<PartRecord>, AllocError>
    ensures { IfOk result (λ parts. parts.items ≡ parts_of listed.now) }
{
    let mut parts = Vec::with_capacity(alloc, listed.len())?;
    for listed_part in listed {
        push_found(&mut parts, listed_part.found)?;
    }
    Ok(parts)
}

/// Appends a part, if there is one.
fn push_found(parts: &mut Vec<PartRecord>, found: Option<PartRecord>) -> Result<(), AllocError>
    ensures { OnOk result (parts.new.items ≡ parts.old.items ++ option_to_list found) }
{
    if let Some(found) = found {
        parts.push(found)?;
    }
    Ok(())
}

/// Whether each part other than the last is large enough.
fn are_large(parts: &[PartRecord]) -> bool
    ensures { result ≡ list_all is_large (all_but_last parts.now) }
{
    let others = &parts[..parts.len().saturating_sub(1)];
    others.iter().all(|part| part.length >= PART_LEAST)
}

/// The laws of lists of parts, for a caller's proof: rising numbers up to a limit are no more than that many, a refusal
/// of `check_listed` is that of `gather`, and parts that are all found are gathered as found. It does nothing.
pub fn gather_laws()
    ensures few { RisingAreFew }
    ensures first { ChecksAreFirst }
    ensures all { FoundAreAll }
{}
