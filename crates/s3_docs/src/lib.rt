//! The two documents of the S3 API that the store reads: the bodies of CompleteMultipartUpload and PutBucketVersioning.
//!
//! The crate stands on `call_types` for parts and modes and on `hex` for the digits of an ETag. Its grammar is one of
//! trees with their bytes, after the S3 API reference: an optional declaration and the root, whose start tag may name a
//! name space; white space beside the tags; elements of other names are passed over where they hold text alone.
//! It promises that both readers answer what a document says exactly where the bytes are one, and else MalformedXML with
//! the first byte at which no document goes on, or the length where a document ends early. Its time is linear, which no clause
//! says. Only `read_complete` takes memory, for its parts.
#![tactic(auto)]

ghost use Rattle.std.specs.Prelude.{◌≡◌, ◌⊎◌, ℕ, List, IfOk, IfErr, Ok, Err};
ghost use Rattle.s3_docs.specs.declared.fault.DocFault.TheVariants.{MalformedXML, NoMemory};
ghost use Rattle.call_types.specs.declared.names.Mode.{Mode};
ghost use Rattle.call_types.specs.declared.version.PartRef.{PartRef};
ghost use Rattle.s3_docs.specs.declared.prologue.Root.TheVariants.{CompleteMultipartUpload, VersioningConfiguration};
ghost use Rattle.s3_docs.specs.Machine.{Start, Parts, Versioning, Value, After};
ghost use Rattle.s3_docs.specs.Outcomes.{outcome, Says};
ghost use Rattle.s3_docs.specs.Documents.{IsDocument, IsPlace};
ghost use Rattle.s3_docs.specs.Reads.{Stops};
ghost use Rattle.s3_docs.specs.Answers.{StopsDocument, RefusesAt, GivesParts, GivesPlace};

mod complete;
mod elements;
mod fault;
mod part;
mod pieces;
mod prologue;
mod values;
mod versioning;

use call_types::{Mode, PartRef, PartRefs};
use complete::{PartsFault, parts};
pub use fault::DocFault;
use pieces::skip_blanks;
use prologue::{Root, start};
use std::alloc::Global;
use versioning::configuration;

/// Checks that nothing but white space is left.
fn end(text: &[u8]) -> Result<(), usize>
    ensures ends { IfOk result (λ _. (value : Value) → outcome (After value) text.now ≡ Says value) }
    ensures stops { IfErr result (λ left. (value : Value) → Stops (After value) text.now left) }
{
    let rest = skip_blanks(text);
    if rest.is_empty() {
        Ok(())
    } else {
        Err(rest.len())
    }
}

/// The mode, or how many bytes are left where no document goes on.
fn mode_of(bytes: &[u8]) -> Result<Mode, usize>
    ensures reads { IfOk result (λ mode. outcome (Start VersioningConfiguration) bytes.now ≡ Says (Versioning mode)) }
    ensures stops { IfErr result (λ left. Stops (Start VersioningConfiguration) bytes.now left) }
{
    let content = start(bytes, Root::VersioningConfiguration)?;
    let found = configuration(content)?;
    end(found.rest)?;
    Ok(found.value)
}

/// The parts, or how many bytes are left where no document goes on.
fn parts_of(alloc: Global, bytes: &[u8]) -> Result<Vec<PartRef>, PartsFault>
    ensures reads { IfOk result (λ parts. outcome (Start CompleteMultipartUpload) bytes.now ≡ Says (Parts parts.items)) }
    ensures stops { IfErr result (StopsDocument bytes.now) }
{
    let content = start(bytes, Root::CompleteMultipartUpload)?;
    let (parts, rest) = parts(alloc, content)?;
    end(rest)?;
    Ok(parts)
}

/// The mode that the body of a PutBucketVersioning asks for. The one refusal is MalformedXML, at the first byte at which
/// no document goes on. It takes no memory.
pub fn read_versioning(bytes: &[u8]) -> Result<Mode, DocFault>
    ensures reads { IfOk result (λ mode. IsDocument VersioningConfiguration bytes.now (Versioning mode)) }
    ensures only { (mode : Mode) → IsDocument VersioningConfiguration bytes.now (Versioning mode) → result ≡ Ok mode }
    ensures refuses { IfErr result (λ fault. RefusesAt VersioningConfiguration bytes.now fault) }
    ensures refused { (place : ℕ) → IsPlace VersioningConfiguration bytes.now place → result ≡ Err (MalformedXML place) }
{
    match mode_of(bytes) {
        Ok(mode) => Ok(mode),
        Err(left) => Err(DocFault::MalformedXML((bytes.len() - left) as u64)),
    }
}

/// The parts that the body of a CompleteMultipartUpload lists, in its order. The refusals are MalformedXML, at the first
/// byte at which no document goes on, and NoMemory.
pub fn read_complete(alloc: Global, bytes: &[u8]) -> Result<PartRefs, DocFault>
    ensures reads { IfOk result (λ parts. IsDocument CompleteMultipartUpload bytes.now (Parts parts)) }
    ensures only { (parts : List PartRef) → IsDocument CompleteMultipartUpload bytes.now (Parts parts) → GivesParts parts result }
    ensures refuses { IfErr result (λ fault. (fault ≡ NoMemory) ⊎ RefusesAt CompleteMultipartUpload bytes.now fault) }
    ensures refused { (place : ℕ) → IsPlace CompleteMultipartUpload bytes.now place → GivesPlace place result }
{
    match parts_of(alloc, bytes) {
        Ok(parts) => Ok(PartRefs::from_vec(parts)),
        Err(PartsFault::Left(left)) => Err(DocFault::MalformedXML((bytes.len() - left) as u64)),
        Err(PartsFault::NoMemory) => Err(DocFault::NoMemory),
    }
}
