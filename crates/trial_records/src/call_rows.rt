//! Rows over `call_types`, and its refusals and replies in words.

use crate::id_rows::{first_id, parts};
use call_types::{
    Act, Brief, BucketRow, BucketRows, Etag, FileKind, Key, KeyRefusal, Mode, PageCut, PageRow,
    PageRows, PartRefs, Refusal, Reply, Span, Upload, Uploads, Version, VersionName, VersionRow,
    VersionRows, Versions, What, Why, Whys,
};
use seal_file::{Damage, Text};
use stamp_id::Ballot;
use std::alloc::Global;
use trial_base::{NoAnswer, first, number, said, said_bytes, said_number};

/// A mode in words.
pub fn mode(mode: Mode) -> &'static str {
    match mode {
        Mode::Never => "never",
        Mode::Enabled => "enabled",
        Mode::Suspended => "suspended",
    }
}

/// The name of a version in words.
pub fn version_name(alloc: Global, name: VersionName) -> Result<String, NoAnswer> {
    match name {
        VersionName::Null => said(alloc, "null"),
        VersionName::Id(id) => parts(alloc, id),
    }
}

/// Words, and the name of a version behind them, if there is one.
fn with_name(alloc: Global, words: &str, name: Option<VersionName>) -> Result<String, NoAnswer> {
    let Some(name) = name else {
        return said(alloc, words);
    };
    let name = version_name(alloc, name)?;
    Ok(format!(in alloc; "{words} {name}")?)
}

/// A refusal of a key in words.
pub fn key_refusal(alloc: Global, why: KeyRefusal) -> Result<String, NoAnswer> {
    match why {
        KeyRefusal::NoSuchKey { marker } => with_name(alloc, "NoSuchKey", marker),
        KeyRefusal::NoSuchVersion => said(alloc, "NoSuchVersion"),
        KeyRefusal::MarkerNamed { id, .. } => with_name(alloc, "MarkerNamed", Some(id)),
        KeyRefusal::VersionLimit => said(alloc, "VersionLimit"),
        KeyRefusal::NoSuchUpload => said(alloc, "NoSuchUpload"),
        KeyRefusal::InvalidPart => said(alloc, "InvalidPart"),
        KeyRefusal::PartOrder => said(alloc, "PartOrder"),
        KeyRefusal::PartSmall => said(alloc, "PartSmall"),
        KeyRefusal::UploadLimit => said(alloc, "UploadLimit"),
    }
}

/// A refusal of a call in words: those that these crates make.
fn refusal(alloc: Global, why: &Refusal) -> Result<String, NoAnswer> {
    match why {
        Refusal::NoSuchBucket => said(alloc, "NoSuchBucket"),
        Refusal::BucketThere => said(alloc, "BucketThere"),
        Refusal::PartOrder => said(alloc, "PartOrder"),
        Refusal::InvalidRange(length) => said_number(alloc, "InvalidRange ", *length),
        _ => said(alloc, "another refusal"),
    }
}

/// An entity tag in words: the MD5, and the number of parts where there are some.
pub fn etag(alloc: Global, etag: Etag) -> Result<String, NoAnswer> {
    let md5 = said_bytes(alloc, "", etag.md5.as_slice())?;
    if etag.parts == 0 {
        return Ok(md5);
    }
    Ok(format!(in alloc; "{md5}-{}", etag.parts)?)
}

/// A reply that tells an entity tag, in words.
fn with_etag(
    alloc: Global,
    words: &str,
    tag: Etag,
    id: Option<VersionName>,
) -> Result<String, NoAnswer> {
    let tag = etag(alloc, tag)?;
    let words = format!(in alloc; "{words} {tag}")?;
    with_name(alloc, words.as_str(), id)
}

/// A reply in words: those that these crates make.
pub fn reply(alloc: Global, reply: &Reply) -> Result<String, NoAnswer> {
    match reply {
        Reply::Plain => said(alloc, "done"),
        Reply::Mode(of) => said(alloc, mode(*of)),
        Reply::Stored { etag, id } => with_etag(alloc, "stored", *etag, *id),
        Reply::Completed { etag, id } => with_etag(alloc, "completed", *etag, *id),
        Reply::Deleted { id, marker: true } => with_name(alloc, "deleted, marker", *id),
        Reply::Deleted { id, marker: false } => with_name(alloc, "deleted", *id),
        Reply::Opened(id) => with_name(alloc, "opened", Some(VersionName::Id(*id))),
        Reply::Refused(why) => refusal(alloc, why),
        _ => said(alloc, "another reply"),
    }
}

/// A `Why` of each letter.
fn why_of(letter: u8) -> Why {
    match letter {
        b'f' => Why::Failed {
            before: 3,
            after: 4,
        },
        b'd' => Why::Damaged(Damage::Long(9)),
        b'b' => Why::Behind(Ballot { term: 1, seq: 2 }),
        b'l' => Why::Lacks(FileKind::Shard),
        _ => Why::Good,
    }
}

/// The `Whys` of these letters.
fn whys_of(letters: &[u8]) -> Option<Whys> {
    if letters.is_empty() || letters.len() > 16 {
        return None;
    }
    let mut whys = Whys::all_good(letters.len() as u8);
    for (drive, letter) in letters.iter().enumerate() {
        if drive < whys.len() {
            whys.set(drive, why_of(*letter));
        }
    }
    Some(whys)
}

/// `whys LETTERS`
fn told_whys(alloc: Global, letters: &[u8]) -> Result<String, NoAnswer> {
    let Some(whys) = whys_of(letters) else {
        return said(alloc, "no such set");
    };
    let mut place = [0; 16];
    let letters = Text::from_slice(alloc, whys.letters(&mut place))?;
    let first = if whys.get(0).is_good() { "good" } else { "bad" };
    let (drives, good, mask) = (whys.as_slice().len(), whys.good(), whys.good_mask());
    let letters = str::from_utf8(letters.as_slice()).unwrap_or("");
    Ok(format!(in alloc; "{letters}, {good} of {drives} good, mask {mask}, the first {first}")?)
}

const ETAG: Etag = Etag {
    md5: [9; 16],
    parts: 0,
};

/// Where a page ends.
fn cut(alloc: Global) -> Result<PageCut, NoAnswer> {
    let next = Text::from_slice(alloc, b"a")?;
    Ok(PageCut {
        truncated: true,
        next: Some(next),
        next_id: None,
    })
}

fn buckets(alloc: Global) -> Result<Reply, NoAnswer> {
    let name = Text::from_slice(alloc, b"pic")?;
    let mut rows = Vec::new(alloc);
    rows.push(BucketRow { name, created: 5 })?;
    Ok(Reply::Buckets(BucketRows::from_vec(rows)))
}

fn page(alloc: Global) -> Result<Reply, NoAnswer> {
    let key = Text::from_slice(alloc, b"a")?;
    let mut rows = Vec::new(alloc);
    rows.push(PageRow::Object {
        key,
        modified: 5,
        length: 6,
        etag: ETAG,
    })?;
    Ok(Reply::Page(PageRows::from_vec(rows), cut(alloc)?))
}

fn versions_page(alloc: Global) -> Result<Reply, NoAnswer> {
    let key = Text::from_slice(alloc, b"a")?;
    let mut rows = Vec::new(alloc);
    rows.push(VersionRow::Group(key))?;
    Ok(Reply::Versions(VersionRows::from_vec(rows), cut(alloc)?))
}

/// A version of an object.
fn object(alloc: Global) -> Result<Version, NoAnswer> {
    let kind = Text::from_slice(alloc, b"text/plain")?;
    Ok(Version {
        id: VersionName::Id(first_id()),
        modified: 784_111_777,
        what: What::Object {
            data_id: first_id(),
            print: [7; 32],
            length: 5,
            md5: [9; 16],
            parts: 0,
            upload: None,
            kind,
        },
    })
}

fn found(alloc: Global) -> Result<Reply, NoAnswer> {
    let version = object(alloc)?;
    Ok(Reply::Found {
        version,
        span: Span { at: 0, length: 5 },
        id: None,
    })
}

fn refused(alloc: Global) -> Result<Reply, NoAnswer> {
    let name = Text::from_slice(alloc, b"max-keys")?;
    Ok(Reply::Refused(Refusal::InvalidArgument(name)))
}

fn key(alloc: Global) -> Result<Key, NoAnswer> {
    let bucket = Text::from_slice(alloc, b"pic")?;
    let key = Text::from_slice(alloc, b"a")?;
    Ok(Key { bucket, key })
}

fn gather(alloc: Global) -> Result<Brief, NoAnswer> {
    Ok(Brief::Gather {
        at: key(alloc)?,
        upload: first_id(),
        parts: PartRefs::new(alloc),
    })
}

/// The act of a CreateMultipartUpload.
fn create(alloc: Global) -> Result<Brief, NoAnswer> {
    let kind = Text::from_slice(alloc, b"image/png")?;
    Ok(Brief::Change {
        at: key(alloc)?,
        mode: Mode::Never,
        act: Act::Create { kind },
        change: None,
        now: 7,
    })
}

/// The call or the reply of this word.
fn brief(alloc: Global, word: &str) -> Result<Brief, NoAnswer> {
    match word {
        "gather" => gather(alloc),
        "create" => create(alloc),
        "buckets" => Ok(Brief::Answer(buckets(alloc)?)),
        "page" => Ok(Brief::Answer(page(alloc)?)),
        "versions" => Ok(Brief::Answer(versions_page(alloc)?)),
        "found" => Ok(Brief::Answer(found(alloc)?)),
        "refused" => Ok(Brief::Answer(refused(alloc)?)),
        _ => Ok(Brief::Answer(Reply::Plain)),
    }
}

/// Whether a copy is made. That it is equal is its contract.
fn is_copied(brief: &Brief) -> bool {
    brief.clone().is_ok()
}

/// `copy WORD`
fn copy(alloc: Global, word: &str) -> Result<String, NoAnswer> {
    let brief = brief(alloc, word)?;
    let words = if is_copied(&brief) {
        "copied"
    } else {
        "not copied"
    };
    said(alloc, words)
}

/// `uploads`: whether an upload is copied, and whether a new list of them is empty.
fn upload(alloc: Global) -> Result<String, NoAnswer> {
    let kind = Text::from_slice(alloc, b"text/plain")?;
    let upload = Upload {
        id: first_id(),
        opened: 784_111_777,
        kind,
    };
    let is_kept = upload.clone().is_ok() && Uploads::new(alloc).is_empty();
    said(
        alloc,
        if is_kept {
            "copied, and none"
        } else {
            "not so"
        },
    )
}

/// So many versions.
fn versions(alloc: Global, count: u64) -> Result<Versions, NoAnswer> {
    let mut items = Vec::new(alloc);
    for _ in 0..count {
        let version = object(alloc)?;
        items.push(version)?;
    }
    Ok(Versions::from_vec(items))
}

/// How many versions a copy has.
fn copied_len(versions: &Versions) -> Result<usize, NoAnswer> {
    Ok(versions.clone()?.len())
}

/// `list COUNT`: how many versions a list has, its copy, its slice, and what it gives back.
fn list(alloc: Global, count: u64) -> Result<String, NoAnswer> {
    let versions = versions(alloc, count)?;
    let copied = copied_len(&versions)?;
    let (len, slice) = (versions.len(), versions.as_slice().len());
    let back = versions.into_vec().len();
    Ok(format!(in alloc; "{len} in the list, {copied} copied, {slice} lent, {back} given back")?)
}

pub fn answer(alloc: Global, row: &str) -> Result<String, NoAnswer> {
    let (call, rest) = first(row);
    match call {
        "whys" => told_whys(alloc, rest.as_bytes()),
        "copy" => copy(alloc, rest),
        "upload" => upload(alloc),
        "list" => list(alloc, number(rest)),
        "refusal" => refusal(alloc, &Refusal::from(KeyRefusal::PartOrder)),
        _ => said(alloc, "no such call"),
    }
}

/// The refusal of a range in words.
pub fn range_refusal(alloc: Global, why: Refusal) -> Result<String, NoAnswer> {
    refusal(alloc, &why)
}
