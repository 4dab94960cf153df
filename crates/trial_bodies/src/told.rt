//! Answers: bytes, causes and refusals in words.

use call_types::{FileKind, Why, Whys};
use get_read::BodyFault;
use put_stage::{StageFault, Staged};
use seal_file::Damage;
use sha2::{Digest, Sha256};
use std::alloc::Global;
use trial_base::{NoAnswer, said, said_bytes, said_number};

/// Bytes, or their number and their SHA-256 where there are many.
pub fn told_bytes(alloc: Global, bytes: &[u8]) -> Result<String, NoAnswer> {
    let count = bytes.len();
    if count <= 400 {
        return said_bytes(alloc, "", bytes);
    }
    let digest = said_bytes(alloc, "", Sha256::digest(bytes).as_slice())?;
    Ok(format!(in alloc; "{count} bytes, {digest}")?)
}

/// A damage in words.
fn damage(alloc: Global, damage: &Damage) -> Result<String, NoAnswer> {
    match damage {
        Damage::Short(length) => said_number(alloc, "short, bytes ", *length),
        Damage::Long(length) => said_number(alloc, "long, bytes ", *length),
        Damage::Spelling(at) => said_number(alloc, "misspelled at ", *at),
        Damage::Kind(kind) => said_bytes(alloc, "kind ", kind.as_slice()),
        Damage::Digest { stored, computed } => two(alloc, "digest", stored, computed),
    }
}

/// Two lists of bytes behind a word.
fn two(alloc: Global, word: &str, stated: &[u8], computed: &[u8]) -> Result<String, NoAnswer> {
    let stated = said_bytes(alloc, "", stated)?;
    let computed = said_bytes(alloc, "", computed)?;
    Ok(format!(in alloc; "{word} {stated} but {computed}")?)
}

/// That a drive has no file of a kind.
fn lacks(kind: FileKind) -> &'static str {
    match kind {
        FileKind::Format => "lacks format",
        FileKind::Register => "lacks register",
        FileKind::Manifest => "lacks manifest",
        FileKind::Shard => "lacks shard",
    }
}

/// Why a drive served or didn't.
fn cause(alloc: Global, why: &Why) -> Result<String, NoAnswer> {
    match why {
        Why::Good => said(alloc, "good"),
        Why::Failed { before, after } => Ok(format!(in alloc; "failed {before} {after}")?),
        Why::Damaged(of) => damage(alloc, of),
        Why::Behind(_) => said(alloc, "behind"),
        Why::Lacks(kind) => said(alloc, lacks(*kind)),
    }
}

/// The cause of each drive behind a word.
fn causes(alloc: Global, word: &str, whys: &Whys) -> Result<String, NoAnswer> {
    let mut text = String::from_str(alloc, word)?;
    for why in whys.as_slice() {
        text.push_str(", ")?;
        let of = cause(alloc, why)?;
        text.push_str(of.as_str())?;
    }
    Ok(text)
}

/// Why a stage was refused.
pub fn stage_fault(alloc: Global, fault: &StageFault) -> Result<String, NoAnswer> {
    match fault {
        StageFault::WriteQuorum(whys) => causes(alloc, "write quorum", whys),
        StageFault::BadDigest { stated, computed } => two(alloc, "bad digest", stated, computed),
        StageFault::BodyCut => said(alloc, "body cut"),
        StageFault::ReadFault => said(alloc, "read fault"),
        StageFault::NoMemory => Err(NoAnswer),
    }
}

/// What a stage answered.
pub fn staged(alloc: Global, staged: &Staged) -> Result<String, NoAnswer> {
    let print = said_bytes(alloc, "", staged.print.as_slice())?;
    let etag = said_bytes(alloc, "", staged.etag.as_slice())?;
    let (length, took) = (staged.length, staged.took.mask());
    Ok(format!(in alloc; "{print}, {length} bytes, md5 {etag}, took {took}")?)
}

/// Why a read was refused.
pub fn body_fault(alloc: Global, fault: &BodyFault) -> Result<String, NoAnswer> {
    match fault {
        BodyFault::InvalidRange(length) => said_number(alloc, "invalid range of ", *length),
        BodyFault::ShardQuorum(whys) => causes(alloc, "shard quorum", whys),
        BodyFault::NoMemory => Err(NoAnswer),
    }
}
