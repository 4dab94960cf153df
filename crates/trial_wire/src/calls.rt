//! Calls in words, as `Get pic/a null 0-3`.

use crate::texts::said_text;
use call_types::{Key, Pick, RangeAsk, VersionName};
use desk_base::{Call, ListAsk, VersionsAsk};
use seal_file::Text;
use stamp_id::VersionId;
use std::alloc::Global;
use trial_base::{NoAnswer, said, said_bytes};

/// A word, and a text behind it.
fn named(alloc: Global, name: &str, text: &Text) -> Result<String, NoAnswer> {
    let text = said_text(alloc, text.as_slice())?;
    Ok(format!(in alloc; "{name} {text}")?)
}

/// `NAME BUCKET/KEY REST`
fn of_key(alloc: Global, name: &str, at: &Key, rest: &str) -> Result<String, NoAnswer> {
    let bucket = said_text(alloc, at.bucket.as_slice())?;
    let key = said_text(alloc, at.key.as_slice())?;
    Ok(format!(in alloc; "{name} {bucket}/{key} {rest}")?)
}

/// An id, or `none`.
fn id(alloc: Global, id: Option<VersionId>) -> Result<String, NoAnswer> {
    match id {
        Some(id) => Ok(id.text(alloc)?),
        None => said(alloc, "none"),
    }
}

fn pick(alloc: Global, pick: Pick) -> Result<String, NoAnswer> {
    match pick {
        Pick::Current => said(alloc, "current"),
        Pick::Null => said(alloc, "null"),
        Pick::Id(named) => id(alloc, Some(named)),
    }
}

/// A range.
fn range(alloc: Global, ask: RangeAsk) -> Result<String, NoAnswer> {
    Ok(match ask {
        RangeAsk::Whole => said(alloc, "whole")?,
        RangeAsk::FromTo(first, last) => format!(in alloc; "{first}-{last}")?,
        RangeAsk::From(first) => format!(in alloc; "{first}-")?,
        RangeAsk::Last(count) => format!(in alloc; "-{count}")?,
    })
}

/// A GetObject, behind its key.
fn get(alloc: Global, of: Pick, ask: RangeAsk, matches: &Option<Text>) -> Result<String, NoAnswer> {
    let (pick, range) = (pick(alloc, of)?, range(alloc, ask)?);
    let matches = optional(alloc, "match", matches)?;
    Ok(format!(in alloc; "{pick} {range}{matches}")?)
}

/// A HeadObject, behind its key.
fn head(alloc: Global, of: Pick, matches: &Option<Text>) -> Result<String, NoAnswer> {
    let pick = pick(alloc, of)?;
    let matches = optional(alloc, "match", matches)?;
    Ok(format!(in alloc; "{pick}{matches}")?)
}

/// A content type.
fn kind(alloc: Global, kind: &Text) -> Result<String, NoAnswer> {
    let kind = said_text(alloc, kind.as_slice())?;
    Ok(format!(in alloc; "[{kind}]")?)
}

/// `MD5 LENGTH` of a body.
fn body(alloc: Global, md5: Option<[u8; 16]>, length: u64) -> Result<String, NoAnswer> {
    let md5 = match md5 {
        Some(md5) => said_bytes(alloc, "", md5.as_slice())?,
        None => said(alloc, "no-md5")?,
    };
    Ok(format!(in alloc; "{md5} {length}")?)
}

/// A PutObject, behind its key.
fn put(alloc: Global, of: &Text, md5: Option<[u8; 16]>, length: u64) -> Result<String, NoAnswer> {
    let body = body(alloc, md5, length)?;
    let kind = kind(alloc, of)?;
    Ok(format!(in alloc; "{kind} {body}")?)
}

/// An UploadPart, behind its key.
fn part(
    alloc: Global,
    upload: Option<VersionId>,
    number: u16,
    md5: Option<[u8; 16]>,
    length: u64,
) -> Result<String, NoAnswer> {
    let body = body(alloc, md5, length)?;
    let upload = id(alloc, upload)?;
    Ok(format!(in alloc; "{upload} {number} {body}")?)
}

/// A CompleteMultipartUpload, behind its key.
fn complete(alloc: Global, upload: Option<VersionId>, length: u64) -> Result<String, NoAnswer> {
    let upload = id(alloc, upload)?;
    Ok(format!(in alloc; "{upload} {length}")?)
}

/// ` NAME[TEXT]`, or nothing.
fn optional(alloc: Global, name: &str, text: &Option<Text>) -> Result<String, NoAnswer> {
    let Some(text) = text else {
        return said(alloc, "");
    };
    let text = said_text(alloc, text.as_slice())?;
    Ok(format!(in alloc; " {name}[{text}]")?)
}

/// `[PREFIX] [DELIMITER] MOST CODING` of a page.
fn page(
    alloc: Global,
    prefix: &Text,
    delimiter: &Text,
    most: u16,
    encoded: bool,
) -> Result<String, NoAnswer> {
    let prefix = said_text(alloc, prefix.as_slice())?;
    let delimiter = said_text(alloc, delimiter.as_slice())?;
    let coding = if encoded { "url" } else { "plain" };
    Ok(format!(in alloc; "[{prefix}] [{delimiter}] {most} {coding}")?)
}

fn list(alloc: Global, bucket: &Text, ask: &ListAsk) -> Result<String, NoAnswer> {
    let bucket = named(alloc, "List2", bucket)?;
    let page = page(alloc, &ask.prefix, &ask.delimiter, ask.most, ask.encoded)?;
    let after = optional(alloc, "after", &ask.start_after)?;
    let token = optional(alloc, "token", &ask.token)?;
    Ok(format!(in alloc; "{bucket} {page}{after}{token}")?)
}

fn list_versions(alloc: Global, bucket: &Text, ask: &VersionsAsk) -> Result<String, NoAnswer> {
    let bucket = named(alloc, "ListVersions", bucket)?;
    let page = page(alloc, &ask.prefix, &ask.delimiter, ask.most, ask.encoded)?;
    let key = optional(alloc, "key", &ask.key_marker)?;
    let marker = match ask.id_marker {
        None => return Ok(format!(in alloc; "{bucket} {page}{key}")?),
        Some(VersionName::Null) => said(alloc, "null")?,
        Some(VersionName::Id(of)) => id(alloc, Some(of))?,
    };
    Ok(format!(in alloc; "{bucket} {page}{key} {marker}")?)
}

/// A call of a bucket, or of none.
fn bucket_call(alloc: Global, call: &Call) -> Result<String, NoAnswer> {
    match call {
        Call::ListBuckets => said(alloc, "ListBuckets"),
        Call::CreateBucket { bucket } => named(alloc, "CreateBucket", bucket),
        Call::HeadBucket { bucket } => named(alloc, "HeadBucket", bucket),
        Call::GetVersioning { bucket } => named(alloc, "GetVersioning", bucket),
        Call::PutVersioning { bucket, length } => {
            let words = named(alloc, "PutVersioning", bucket)?;
            Ok(format!(in alloc; "{words} {length}")?)
        }
        Call::List2 { bucket, page } => list(alloc, bucket, page),
        Call::ListVersions { bucket, page } => list_versions(alloc, bucket, page),
        _ => said(alloc, "a call of a key"),
    }
}

/// A call.
pub fn said_call(alloc: Global, call: &Call) -> Result<String, NoAnswer> {
    let (name, at, rest) = match call {
        Call::Put {
            at,
            kind,
            md5,
            length,
        } => ("Put", at, put(alloc, kind, *md5, *length)?),
        Call::Get {
            at,
            pick,
            ask,
            matches,
        } => ("Get", at, get(alloc, *pick, *ask, matches)?),
        Call::Head { at, pick, matches } => ("Head", at, head(alloc, *pick, matches)?),
        Call::Delete { at, pick: of } => ("Delete", at, pick(alloc, *of)?),
        Call::Create { at, kind: of } => ("Create", at, kind(alloc, of)?),
        Call::Part {
            at,
            upload,
            number,
            md5,
            length,
        } => { ("Part", at, part(alloc, *upload, *number, *md5, *length)?) }
        Call::Complete { at, upload, length } => {
            ("Complete", at, complete(alloc, *upload, *length)?)
        }
        Call::Abort { at, upload } => ("Abort", at, id(alloc, *upload)?),
        _ => return bucket_call(alloc, call),
    };
    of_key(alloc, name, at, rest.as_str())
}
