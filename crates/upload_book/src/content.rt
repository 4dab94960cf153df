//! Rows as contents of registers.

ghost use Rattle.std.specs.Prelude.{◌≡◌, IfOk};
ghost use Rattle.upload_book.specs.Content.{content_of, IsCanonicalRow, ReadsContent, ReadsRows};
ghost use Rattle.upload_book.specs.Laws.{ContentsHaveNoFault, FaultlessIsContent, ContentIsInjective};

use crate::record::Spelled;
use call_types::{ListFault, PartRecord};
use fault_base::NoMemory;
use field_reader::ReadFault;
use sealed_record::{read_body, write_body};
use std::alloc::Global;

/// The row of a register with this content: the part's record, or none where the content is empty. A content of no row is
/// `NotCanonical`, at the place of its first fault: the start of the first field that breaks its rule, the number of its
/// bytes where bytes are missing, or the first byte too many.
#[tactic(auto, using(crate::proofs::Lawful::part_lawful))]
pub fn read(alloc: Global, content: &[u8]) -> Result<Option<PartRecord>, ListFault>
    // What is read is canonical, and this is its content; a refusal names the first fault.
    ensures outcome { ReadsContent content.now result }
    // The content of a canonical row is read as that row.
    ensures only { ReadsRows content.now result }
{
    if content.is_empty() {
        return Ok(None);
    }
    match read_body(alloc, content) {
        Ok(Spelled(there)) => Ok(Some(there)),
        Err(ReadFault::At(place)) => Err(ListFault::NotCanonical(place)),
        Err(ReadFault::NoMemory) => Err(ListFault::NoMemory),
    }
}

/// The content of a row. Want of memory is the only error.
pub fn write(alloc: Global, row: &Option<PartRecord>) -> Result<Vec<u8>, NoMemory>
    requires { IsCanonicalRow row.now }
    ensures { IfOk result (λ content. content.items ≡ content_of row.now) }
{
    match row {
        None => Ok(Vec::new(alloc)),
        Some(there) => write_body(alloc, &Spelled(*there)),
    }
}

/// The laws of contents, for a caller's proof: the content of a canonical row has no fault, a content with no fault is
/// that of a canonical row, and two canonical rows with one content are the same. It does nothing.
pub fn row_laws()
    ensures read { ContentsHaveNoFault }
    ensures faultless { FaultlessIsContent }
    ensures injective { ContentIsInjective }
{}
