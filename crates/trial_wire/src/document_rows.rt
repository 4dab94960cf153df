//! Rows over `s3_docs`: what is read of documents.

use crate::texts::text;
use call_types::{Mode, PartRef};
use s3_docs::{DocFault, read_complete, read_versioning};
use std::alloc::Global;
use trial_base::{Names, NoAnswer, first, said, said_bytes, said_number};

/// A fault of a document in words.
fn said_fault(alloc: Global, fault: DocFault) -> Result<String, NoAnswer> {
    match fault {
        DocFault::MalformedXML(place) => said_number(alloc, "malformed at ", place),
        DocFault::NoMemory => Err(NoAnswer),
    }
}

/// `versioning TEXT`: the mode that a document asks for.
fn versioning(alloc: Global, document: &[u8]) -> Result<String, NoAnswer> {
    match read_versioning(document) {
        Ok(Mode::Never) => said(alloc, "never"),
        Ok(Mode::Enabled) => said(alloc, "enabled"),
        Ok(Mode::Suspended) => said(alloc, "suspended"),
        Err(fault) => said_fault(alloc, fault),
    }
}

/// Appends a part as ` NUMBER MD5`.
fn push_part(alloc: Global, out: &mut String, part: PartRef) -> Result<(), NoAnswer> {
    let md5 = said_bytes(alloc, "", part.md5.as_slice())?;
    Ok(write!(out, " {} {md5}", part.number)?)
}

/// `complete TEXT`: the parts that a document lists.
fn complete(alloc: Global, document: &[u8]) -> Result<String, NoAnswer> {
    let parts = match read_complete(alloc, document) {
        Ok(parts) => parts,
        Err(fault) => return said_fault(alloc, fault),
    };
    let mut out = format!(in alloc; "{} parts:", parts.len())?;
    for part in parts.as_slice() {
        push_part(alloc, &mut out, *part)?;
    }
    Ok(out)
}

/// What is read of a document of a kind.
fn read(alloc: Global, kind: &str, document: &[u8]) -> Result<String, NoAnswer> {
    match kind {
        "versioning" => versioning(alloc, document),
        "complete" => complete(alloc, document),
        _ => Err(NoAnswer),
    }
}

/// `cuts KIND TEXT`: at how many places a document is cut so that it is malformed at its end; or the first place where
/// it is not, and what is read there.
fn cuts(alloc: Global, kind: &str, document: &[u8]) -> Result<String, NoAnswer> {
    for cut in 0..document.len() {
        let wanted = said_number(alloc, "malformed at ", cut as u64)?;
        let found = read(alloc, kind, &document[..cut])?;
        if found != wanted {
            return Ok(format!(in alloc; "cut at {cut} {found}")?);
        }
    }
    said_number(alloc, "", document.len() as u64)
}

pub fn answer(alloc: Global, names: &Names, words: &str) -> Result<String, NoAnswer> {
    let (call, rest) = first(words);
    if call == "cuts" {
        let (kind, rest) = first(rest);
        return cuts(alloc, kind, text(alloc, names, rest)?.as_slice());
    }
    read(alloc, call, text(alloc, names, rest)?.as_slice())
}
