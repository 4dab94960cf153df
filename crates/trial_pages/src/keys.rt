//! Keys and their versions in words.
//!
//! A key is `KEY VERSION ..`, its newest version first. A version is `NAME@SECOND,marker`, `NAME@SECOND,LENGTH`, or
//! `NAME@SECOND,LENGTH,MD5-PARTS` with its entity tag, which is else of zeros and of no parts.

use crate::asks::{text, version_name};
use call_types::{Uploads, Version, VersionRow, Versions, What};
use list_page::{PageAsk, add_candidate};
use seal_file::Text;
use stamp_id::{Ballot, ChangeId, VersionId};
use std::alloc::Global;
use trial_base::{Names, NoAnswer, bytes, first};
use version_list::KeyState;

/// The id of the data of each object, which no page tells.
fn data_id() -> VersionId {
    VersionId::from_parts(ChangeId(Ballot { term: 1, seq: 1 }), 0)
}

/// `LENGTH` or `LENGTH,MD5-PARTS`
fn object(alloc: Global, names: &Names, words: &str) -> Result<What, NoAnswer> {
    let (length, tag) = match words.split_once(",") {
        Some((length, tag)) => (length, tag),
        None => (words, "00*16-0"),
    };
    let Some((digits, parts)) = tag.split_once("-") else {
        return Err(NoAnswer);
    };
    let digest = bytes(alloc, names, digits)?;
    let (Some(md5), Ok(parts), Ok(length)) = (
        digest.as_slice().as_array::<16>(),
        parts.parse::<u16>(),
        length.parse::<u64>(),
    ) else {
        return Err(NoAnswer);
    };
    Ok(What::Object {
        data_id: data_id(),
        print: [0; 32],
        length,
        md5: *md5,
        parts,
        upload: None,
        kind: Text::empty(alloc),
    })
}

/// `NAME@SECOND,marker`, or the same with an object.
fn version(alloc: Global, names: &Names, words: &str) -> Result<Version, NoAnswer> {
    let Some((name, rest)) = words.split_once("@") else {
        return Err(NoAnswer);
    };
    let Some((second, what)) = rest.split_once(",") else {
        return Err(NoAnswer);
    };
    let id = version_name(name)?;
    let Ok(modified) = second.parse::<u64>() else {
        return Err(NoAnswer);
    };
    let what = match what {
        "marker" => What::Marker,
        _ => object(alloc, names, what)?,
    };
    Ok(Version { id, modified, what })
}

/// The state of a key of these versions.
fn state(alloc: Global, names: &Names, words: &str) -> Result<KeyState, NoAnswer> {
    let mut versions = Vec::new(alloc);
    for word in words.split(' ') {
        if !word.is_empty() {
            versions.push(version(alloc, names, word)?)?;
        }
    }
    Ok(KeyState {
        versions: Versions::from_vec(versions),
        uploads: Uploads::new(alloc),
    })
}

/// Adds the rows of a key.
fn add(
    alloc: Global,
    names: &Names,
    ask: &PageAsk,
    rows: &mut Vec<VersionRow>,
    words: &str,
) -> Result<(), NoAnswer> {
    let (key, versions) = first(words);
    let key = text(alloc, names, key)?;
    let state = state(alloc, names, versions)?;
    Ok(add_candidate(alloc, ask, rows, &key, &state)?)
}

/// The rows of the keys behind an ask, a ` ; ` before each.
pub fn rows(
    alloc: Global,
    names: &Names,
    ask: &PageAsk,
    words: &str,
) -> Result<Vec<VersionRow>, NoAnswer> {
    let mut rows = Vec::new(alloc);
    for (at, key) in words.split(" ; ").enumerate() {
        if at > 0 {
            add(alloc, names, ask, &mut rows, key)?;
        }
    }
    Ok(rows)
}
