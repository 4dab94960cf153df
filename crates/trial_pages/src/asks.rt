//! Asks of pages in words.
//!
//! An ask is `keys PREFIX DELIMITER MOST START TOKEN` of a ListObjectsV2, or `versions PREFIX DELIMITER MOST KEY NAME`
//! of a ListObjectVersions, where KEY and NAME are the two markers, and `-` is none.

use call_types::VersionName;
use desk_base::{ListAsk, VersionsAsk};
use list_page::PageAsk;
use seal_file::Text;
use stamp_id::{Ballot, ChangeId, VersionId};
use std::alloc::Global;
use trial_base::{Names, NoAnswer, bytes, word};

/// The text of a word, empty where that is `-`.
pub fn text(alloc: Global, names: &Names, word: &str) -> Result<Text, NoAnswer> {
    match word {
        "" => Err(NoAnswer),
        "-" => Ok(Text::empty(alloc)),
        _ => Ok(Text::from_vec(bytes(alloc, names, word)?)),
    }
}

/// The text of a word, or none.
fn text_if_any(alloc: Global, names: &Names, word: &str) -> Result<Option<Text>, NoAnswer> {
    if word == "-" {
        return Ok(None);
    }
    Ok(Some(text(alloc, names, word)?))
}

/// The name of a version: `null`, or the sequence number of the id of slot 0 and term 1.
pub fn version_name(word: &str) -> Result<VersionName, NoAnswer> {
    if word == "null" {
        return Ok(VersionName::Null);
    }
    let Ok(seq) = word.parse::<u64>() else {
        return Err(NoAnswer);
    };
    if seq == 0 || seq >= 1 << 62 {
        return Err(NoAnswer);
    }
    let change = ChangeId(Ballot { term: 1, seq });
    Ok(VersionName::Id(VersionId::from_parts(change, 0)))
}

/// How many rows a page has at most.
fn most(word: &str) -> Result<u16, NoAnswer> {
    match word.parse::<u16>() {
        Ok(most) => Ok(most),
        Err(_) => Err(NoAnswer),
    }
}

/// `keys PREFIX DELIMITER MOST START TOKEN`
fn keys_ask(alloc: Global, names: &Names, words: &str) -> Result<PageAsk, NoAnswer> {
    let ask = ListAsk {
        prefix: text(alloc, names, word(words, 1))?,
        delimiter: text(alloc, names, word(words, 2))?,
        most: most(word(words, 3))?,
        encoded: false,
        start_after: text_if_any(alloc, names, word(words, 4))?,
        token: text_if_any(alloc, names, word(words, 5))?,
    };
    Ok(PageAsk::of_keys(alloc, &ask)?)
}

/// `versions PREFIX DELIMITER MOST KEY NAME`
fn versions_ask(alloc: Global, names: &Names, words: &str) -> Result<PageAsk, NoAnswer> {
    let id_marker = match word(words, 5) {
        "-" => None,
        name => Some(version_name(name)?),
    };
    let ask = VersionsAsk {
        prefix: text(alloc, names, word(words, 1))?,
        delimiter: text(alloc, names, word(words, 2))?,
        most: most(word(words, 3))?,
        encoded: false,
        key_marker: text_if_any(alloc, names, word(words, 4))?,
        id_marker,
    };
    Ok(PageAsk::of_versions(alloc, &ask)?)
}

/// An ask.
pub fn ask(alloc: Global, names: &Names, words: &str) -> Result<PageAsk, NoAnswer> {
    match word(words, 0) {
        "keys" => keys_ask(alloc, names, words),
        "versions" => versions_ask(alloc, names, words),
        _ => Err(NoAnswer),
    }
}
