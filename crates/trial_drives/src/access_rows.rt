//! Rows over `file_access`: single calls, and files written and read.

use crate::steps::spelled;
use call_types::{FileKind, Why};
use drive_base::{Drive, LONGEST_NAME};
use file_access::{
    FetchFault, append_on, bytes_at, discard_on, file_on, piece_into, piece_on, place, remove_on,
    size_on, sync_on, write_file, write_loose,
};
use seal_file::Damage;
use std::alloc::Global;
use trial_base::{Names, NoAnswer, bytes, first, number, said, said_bytes, said_number, word};

/// The kind of file of a word.
fn kind(word: &str) -> Option<FileKind> {
    match word {
        "format" => Some(FileKind::Format),
        "register" => Some(FileKind::Register),
        "manifest" => Some(FileKind::Manifest),
        "shard" => Some(FileKind::Shard),
        _ => None,
    }
}

/// The word of a kind of file.
fn kind_word(kind: FileKind) -> &'static str {
    match kind {
        FileKind::Format => "format",
        FileKind::Register => "register",
        FileKind::Manifest => "manifest",
        FileKind::Shard => "shard",
    }
}

/// A cause in words.
fn told_why(alloc: Global, why: Why) -> Result<String, NoAnswer> {
    match why {
        Why::Good => said(alloc, "good"),
        Why::Failed { before, after } => {
            Ok(format!(in alloc; "failed from {before} to {after}")?)
        }
        Why::Damaged(Damage::Short(length)) => said_number(alloc, "short ", length),
        Why::Damaged(Damage::Long(length)) => said_number(alloc, "long ", length),
        Why::Damaged(_) => said(alloc, "damaged"),
        Why::Behind(_) => said(alloc, "behind"),
        Why::Lacks(kind) => Ok(format!(in alloc; "lacks {}", kind_word(kind))?),
    }
}

/// What came of a step.
fn told(alloc: Global, answer: Result<(), Why>) -> Result<String, NoAnswer> {
    match answer {
        Ok(()) => said(alloc, "done"),
        Err(why) => told_why(alloc, why),
    }
}

/// What came of a call that gives bytes.
fn fetched(alloc: Global, answer: Result<Vec<u8>, FetchFault>) -> Result<String, NoAnswer> {
    match answer {
        Ok(bytes) => said_bytes(alloc, "", bytes.as_slice()),
        Err(FetchFault::Because(why)) => told_why(alloc, why),
        Err(FetchFault::NoMemory) => said(alloc, "no memory"),
    }
}

/// `size KIND NAME`
fn size<D: Drive>(
    alloc: Global,
    drive: &mut D,
    kind: FileKind,
    name: &str,
) -> Result<String, NoAnswer> {
    match size_on(drive, kind, name) {
        Ok(size) => said_number(alloc, "", size),
        Err(why) => told_why(alloc, why),
    }
}

/// `into KIND NAME AT`: the bytes that a buffer of three has then.
fn into_three<D: Drive>(
    alloc: Global,
    drive: &mut D,
    kind: FileKind,
    name: &str,
    at: u64,
) -> Result<String, NoAnswer> {
    let mut into = [b'-'; 3];
    match piece_into(drive, kind, name, at, &mut into) {
        Ok(()) => said_bytes(alloc, "", into.as_slice()),
        Err(why) => told_why(alloc, why),
    }
}

/// `CALL KIND NAME NUMBER NUMBER`: the calls that read.
fn reading<D: Drive>(
    alloc: Global,
    drive: &mut D,
    kind: FileKind,
    name: &str,
    row: &str,
) -> Result<String, NoAnswer> {
    let (one, other) = (number(word(row, 3)), number(word(row, 4)));
    match word(row, 0) {
        "size" => size(alloc, drive, kind, name),
        "file" => fetched(alloc, file_on(alloc, drive, kind, name, one)),
        "into" => into_three(alloc, drive, kind, name, one),
        "piece" => fetched(alloc, piece_on(alloc, drive, kind, name, one, other)),
        "bytes" => fetched(alloc, bytes_at(alloc, drive, kind, name, one, other)),
        "sync" => told(alloc, sync_on(drive, kind, name)),
        "discard" => told(alloc, discard_on(drive, kind, name)),
        "remove" => told(alloc, remove_on(drive, kind, name)),
        _ => said(alloc, "no such call"),
    }
}

/// `write KIND LOOSE NAME BYTES` and `place KIND LOOSE NAME`
fn placing<D: Drive>(
    alloc: Global,
    names: &Names,
    drive: &mut D,
    kind: FileKind,
    row: &str,
) -> Result<String, NoAnswer> {
    let (call, rest) = first(row);
    let (_, rest) = first(rest);
    let (loose, rest) = first(rest);
    let (name, rest) = first(rest);
    if name.len() > LONGEST_NAME {
        return said(alloc, "no such name");
    }
    if call == "place" {
        return told(alloc, place(drive, kind, loose, name));
    }
    let bytes = bytes(alloc, names, rest)?;
    told_why(
        alloc,
        write_file(drive, kind, loose, name, bytes.as_slice()),
    )
}

/// `append KIND LOOSE BYTES` and `loose KIND LOOSE BYTES`
fn appending<D: Drive>(
    alloc: Global,
    names: &Names,
    drive: &mut D,
    kind: FileKind,
    row: &str,
) -> Result<String, NoAnswer> {
    let (call, rest) = first(row);
    let (_, rest) = first(rest);
    let (loose, rest) = first(rest);
    let bytes = bytes(alloc, names, rest)?;
    let bytes = bytes.as_slice();
    if call == "loose" {
        return told(alloc, write_loose(drive, kind, loose, bytes));
    }
    told(alloc, append_on(drive, kind, loose, bytes))
}

/// What a call on a drive gave.
pub fn answer<D: Drive>(
    alloc: Global,
    names: &Names,
    drive: &mut D,
    row: &str,
) -> Result<String, NoAnswer> {
    let Some(kind) = kind(word(row, 1)) else {
        return said(alloc, "no such kind");
    };
    match word(row, 0) {
        "append" | "loose" => appending(alloc, names, drive, kind, row),
        "write" | "place" => placing(alloc, names, drive, kind, row),
        _ => reading(alloc, drive, kind, spelled(names, word(row, 2)), row),
    }
}
