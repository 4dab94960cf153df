//! Replies in words.
//!
//! A reply is one of these, where a text is one word, a SECOND is one of Unix, an ETAG is 32 hex digits with `-PARTS`
//! behind them or not, a NAME of a version is `null` or an id, and `-` is none:
//!
//! - `plain`, `mode MODE`, `opened ID`, `stored ETAG NAME`, `completed ETAG NAME`, `deleted NAME WHAT`
//! - `found SECOND LENGTH ETAG KIND AT COUNT NAME`
//! - `buckets`, and behind each ` ; ` a row `NAME SECOND`
//! - `page NEXT -`, and behind each ` ; ` a row `group PREFIX` or `object KEY SECOND LENGTH ETAG`
//! - `versions NEXT NAME`, and behind each ` ; ` a row `group PREFIX`, `marker KEY SECOND NAME AGE` or
//!   `object KEY SECOND NAME AGE LENGTH ETAG`
//! - `refused REFUSAL`

use crate::refusals::refusal;
use crate::texts::text;
use call_types::{
    BucketRow, BucketRows, Etag, Mode, PageCut, PageRow, PageRows, Reply, Span, Version,
    VersionName, VersionRow, VersionRows, What,
};
use seal_file::Text;
use stamp_id::VersionId;
use std::alloc::Global;
use trial_base::{Names, NoAnswer, first, number, word};

/// The text of a word.
pub fn text_word(alloc: Global, names: &Names, word: &str) -> Result<Text, NoAnswer> {
    Ok(Text::from_vec(text(alloc, names, word)?))
}

/// The id of a word.
pub fn version_id(word: &str) -> Result<VersionId, NoAnswer> {
    match VersionId::parse(word) {
        Ok(id) => Ok(id),
        Err(_) => Err(NoAnswer),
    }
}

/// The name of a version: `null`, or an id.
pub fn version_name(word: &str) -> Result<VersionName, NoAnswer> {
    if word == "null" {
        return Ok(VersionName::Null);
    }
    Ok(VersionName::Id(version_id(word)?))
}

/// The name of a version that is told, or `-`.
pub fn told_name(word: &str) -> Result<Option<VersionName>, NoAnswer> {
    if word == "-" {
        return Ok(None);
    }
    Ok(Some(version_name(word)?))
}

/// One of two words: whether it is the first.
fn is_first(word: &str, yes: &str, no: &str) -> Result<bool, NoAnswer> {
    if word != yes && word != no {
        return Err(NoAnswer);
    }
    Ok(word == yes)
}

/// An entity tag: `MD5`, or `MD5-PARTS`.
pub fn etag(alloc: Global, word: &str) -> Result<Etag, NoAnswer> {
    let (digits, parts) = match word.split_once("-") {
        Some((digits, parts)) => (digits, parts),
        None => (word, "0"),
    };
    let Ok(bytes) = hex::decode(alloc, digits) else {
        return Err(NoAnswer);
    };
    match (bytes.as_slice().as_array::<16>(), parts.parse::<u16>()) {
        (Some(md5), Ok(parts)) => Ok(Etag { md5: *md5, parts }),
        _ => Err(NoAnswer),
    }
}

/// The id of the data of a version that is found, which no reply tells.
const DATA_ID: &str = "00000000-0002-8011-8000-000000000009";

/// `SECOND LENGTH ETAG KIND AT COUNT NAME`
fn found(alloc: Global, names: &Names, words: &str) -> Result<Reply, NoAnswer> {
    let Etag { md5, parts } = etag(alloc, word(words, 2))?;
    let span = Span {
        at: number(word(words, 4)),
        length: number(word(words, 5)),
    };
    let id = told_name(word(words, 6))?;
    let data_id = version_id(DATA_ID)?;
    let kind = text_word(alloc, names, word(words, 3))?;
    let what = What::Object {
        data_id,
        print: [0; 32],
        length: number(word(words, 1)),
        md5,
        parts,
        upload: None,
        kind,
    };
    Ok(Reply::Found {
        version: Version {
            id: VersionName::Null,
            modified: number(word(words, 0)),
            what,
        },
        span,
        id,
    })
}

/// `buckets ; NAME SECOND ..`
fn buckets(alloc: Global, names: &Names, words: &str) -> Result<Reply, NoAnswer> {
    let mut rows = Vec::new(alloc);
    for (at, row) in words.split(" ; ").enumerate() {
        if at > 0 {
            let name = text_word(alloc, names, word(row, 0))?;
            let created = number(word(row, 1));
            rows.push(BucketRow { name, created })?;
        }
    }
    Ok(Reply::Buckets(BucketRows::from_vec(rows)))
}

/// `NEXT NAME`: where a page ends.
fn cut(alloc: Global, names: &Names, words: &str) -> Result<PageCut, NoAnswer> {
    let next_id = told_name(word(words, 1))?;
    let last = word(words, 0);
    if last == "-" {
        return Ok(PageCut {
            truncated: false,
            next: None,
            next_id,
        });
    }
    let next = text_word(alloc, names, last)?;
    Ok(PageCut {
        truncated: true,
        next: Some(next),
        next_id,
    })
}

/// `group PREFIX` or `object KEY SECOND LENGTH ETAG`
fn page_row(alloc: Global, names: &Names, row: &str) -> Result<PageRow, NoAnswer> {
    let is_group = is_first(word(row, 0), "group", "object")?;
    let key = text_word(alloc, names, word(row, 1))?;
    if is_group {
        return Ok(PageRow::Group(key));
    }
    let etag = etag(alloc, word(row, 4))?;
    Ok(PageRow::Object {
        key,
        modified: number(word(row, 2)),
        length: number(word(row, 3)),
        etag,
    })
}

/// `NEXT - ; ROW ..`
fn page(alloc: Global, names: &Names, words: &str) -> Result<Reply, NoAnswer> {
    let mut rows = Vec::new(alloc);
    for (at, row) in words.split(" ; ").enumerate() {
        if at > 0 {
            rows.push(page_row(alloc, names, row)?)?;
        }
    }
    let cut = cut(alloc, names, words)?;
    Ok(Reply::Page(PageRows::from_vec(rows), cut))
}

/// `marker KEY SECOND NAME AGE` or `object KEY SECOND NAME AGE LENGTH ETAG`
fn version(alloc: Global, names: &Names, row: &str) -> Result<VersionRow, NoAnswer> {
    let is_marker = is_first(word(row, 0), "marker", "object")?;
    let modified = number(word(row, 2));
    let id = version_name(word(row, 3))?;
    let latest = is_first(word(row, 4), "latest", "older")?;
    if is_marker {
        return Ok(VersionRow::Marker {
            key: text_word(alloc, names, word(row, 1))?,
            id,
            latest,
            modified,
        });
    }
    let etag = etag(alloc, word(row, 6))?;
    Ok(VersionRow::Object {
        key: text_word(alloc, names, word(row, 1))?,
        id,
        latest,
        modified,
        length: number(word(row, 5)),
        etag,
    })
}

/// `group PREFIX`, or a version.
fn version_row(alloc: Global, names: &Names, row: &str) -> Result<VersionRow, NoAnswer> {
    match row.strip_prefix("group ") {
        Some(prefix) => Ok(VersionRow::Group(text_word(alloc, names, prefix)?)),
        None => version(alloc, names, row),
    }
}

/// `NEXT NAME ; ROW ..`
fn versions(alloc: Global, names: &Names, words: &str) -> Result<Reply, NoAnswer> {
    let mut rows = Vec::new(alloc);
    for (at, row) in words.split(" ; ").enumerate() {
        if at > 0 {
            rows.push(version_row(alloc, names, row)?)?;
        }
    }
    let cut = cut(alloc, names, words)?;
    Ok(Reply::Versions(VersionRows::from_vec(rows), cut))
}

/// The mode of a word.
fn mode(word: &str) -> Result<Mode, NoAnswer> {
    match word {
        "never" => Ok(Mode::Never),
        "enabled" => Ok(Mode::Enabled),
        "suspended" => Ok(Mode::Suspended),
        _ => Err(NoAnswer),
    }
}

/// A reply that is short.
fn short(alloc: Global, kind: &str, words: &str) -> Result<Reply, NoAnswer> {
    match kind {
        "plain" => Ok(Reply::Plain),
        "mode" => Ok(Reply::Mode(mode(words)?)),
        "opened" => Ok(Reply::Opened(version_id(words)?)),
        "stored" => Ok(Reply::Stored {
            etag: etag(alloc, word(words, 0))?,
            id: told_name(word(words, 1))?,
        }),
        "completed" => Ok(Reply::Completed {
            etag: etag(alloc, word(words, 0))?,
            id: told_name(word(words, 1))?,
        }),
        "deleted" => Ok(Reply::Deleted {
            id: told_name(word(words, 0))?,
            marker: is_first(word(words, 1), "marker", "version")?,
        }),
        _ => Err(NoAnswer),
    }
}

/// A reply.
pub fn reply(alloc: Global, names: &Names, words: &str) -> Result<Reply, NoAnswer> {
    let (kind, rest) = first(words);
    match kind {
        "found" => found(alloc, names, rest),
        "buckets" => buckets(alloc, names, words),
        "page" => page(alloc, names, rest),
        "versions" => versions(alloc, names, rest),
        "refused" => Ok(Reply::Refused(refusal(alloc, names, rest)?)),
        _ => short(alloc, kind, rest),
    }
}
