//! Rows over `upload_book`.

use crate::books::list_fault;
use crate::call_rows::{etag, key_refusal, reply};
use crate::id_rows::{first_id, id_of, parts};
use call_types::{PartRecord, PartRef};
use stamp_id::VersionId;
use std::alloc::Global;
use trial_base::{Names, NoAnswer, bytes, first, number, said, said_bytes, said_number};
use upload_book::{
    GatherFault, ListedPart, StoredPart, check_listed, gather, gather_laws, join, read, row_laws,
    store_part, write,
};
use version_list::KeyState;

/// A part in words.
fn told_part(alloc: Global, part: &PartRecord) -> Result<String, NoAnswer> {
    let id = parts(alloc, part.data_id)?;
    let print = said_bytes(alloc, "", part.print.as_slice())?;
    let md5 = said_bytes(alloc, "", part.md5.as_slice())?;
    let (length, modified) = (part.length, part.modified);
    Ok(format!(in alloc; "{id}, print {print}, {length} bytes, {md5}, at {modified}")?)
}

/// `read CONTENT`
fn read_row(alloc: Global, content: &[u8]) -> Result<String, NoAnswer> {
    match read(alloc, content) {
        Ok(None) => said(alloc, "none"),
        Ok(Some(part)) => told_part(alloc, &part),
        Err(fault) => list_fault(alloc, fault),
    }
}

/// `again CONTENT`: what is written of the row that is read.
fn again(alloc: Global, content: &[u8]) -> Result<String, NoAnswer> {
    match read(alloc, content) {
        Ok(row) => {
            let written = write(alloc, &row)?;
            said_bytes(alloc, "", written.as_slice())
        }
        Err(fault) => list_fault(alloc, fault),
    }
}

/// A part that is stored, and the reply.
fn told_stored(alloc: Global, stored: &StoredPart) -> Result<String, NoAnswer> {
    let reply = reply(alloc, &stored.reply)?;
    let part = told_part(alloc, &stored.part)?;
    Ok(format!(in alloc; "{reply}: {part}")?)
}

/// A part of this length and MD5.
fn part(length: u64, md5: [u8; 16]) -> PartRecord {
    PartRecord {
        data_id: first_id(),
        print: [7; 32],
        length,
        md5,
        modified: 7,
    }
}

/// The MD5 of a part, and another one.
const MD5: [u8; 16] = [1; 16];

const OTHER_MD5: [u8; 16] = [2; 16];

/// A listed part `NUMBER:LENGTH`, where nothing is stored if the length is `none`, and with another entity tag than the
/// stored one's if `!` is behind it.
fn listed_part(word: &str) -> ListedPart {
    let (of, length) = word.split_once(":").unwrap_or((word, "none"));
    let stored = length.trim_end_matches('!');
    let md5 = if stored == length { MD5 } else { OTHER_MD5 };
    let asked = PartRef {
        number: number(of).min(0xffff) as u16,
        md5,
    };
    ListedPart {
        part: asked,
        found: if stored == "none" {
            None
        } else {
            Some(part(number(stored), MD5))
        },
    }
}

/// The parts that are listed.
fn listed(alloc: Global, row: &str) -> Result<Vec<ListedPart>, NoAnswer> {
    let mut listed = Vec::new(alloc);
    for word in row.split(' ') {
        if !word.is_empty() {
            listed.push(listed_part(word))?;
        }
    }
    Ok(listed)
}

/// Their numbers and entity tags.
fn refs(alloc: Global, listed: &[ListedPart]) -> Result<Vec<PartRef>, NoAnswer> {
    let mut refs = Vec::new(alloc);
    for part in listed {
        refs.push(part.part)?;
    }
    Ok(refs)
}

/// `store UPLOAD KEY NOW PART`
fn stored(
    alloc: Global,
    names: &Names,
    key: &KeyState,
    upload: VersionId,
    words: &str,
) -> Result<String, NoAnswer> {
    let (now, part) = first(words);
    let content = bytes(alloc, names, part)?;
    let Ok(Some(part)) = read(alloc, content.as_slice()) else {
        return said(alloc, "no such part");
    };
    match store_part(key, upload, &part, number(now)) {
        Ok(stored) => told_stored(alloc, &stored),
        Err(why) => key_refusal(alloc, why),
    }
}

/// `gather UPLOAD KEY PARTS`
fn gathered(
    alloc: Global,
    key: &KeyState,
    upload: VersionId,
    words: &str,
) -> Result<String, NoAnswer> {
    let listed = listed(alloc, words)?;
    match gather(alloc, key, upload, listed.as_slice()) {
        Ok(parts) => said_number(alloc, "gathered ", parts.len() as u64),
        Err(GatherFault::Refused(why)) => key_refusal(alloc, why),
        Err(GatherFault::NoMemory) => Err(NoAnswer),
    }
}

/// `listed UPLOAD KEY PARTS`
fn checked(
    alloc: Global,
    key: &KeyState,
    upload: VersionId,
    words: &str,
) -> Result<String, NoAnswer> {
    let listed = listed(alloc, words)?;
    let refs = refs(alloc, listed.as_slice())?;
    match check_listed(key, upload, refs.as_slice()) {
        Ok(()) => said(alloc, "lawful"),
        Err(why) => key_refusal(alloc, why),
    }
}

/// The rows of an upload of a key.
fn of_upload(alloc: Global, names: &Names, call: &str, rest: &str) -> Result<String, NoAnswer> {
    let (upload, rest) = first(rest);
    let (key, words) = first(rest);
    let upload = bytes(alloc, names, upload)?;
    let Some(upload) = id_of(upload.as_slice()) else {
        return said(alloc, "no such id");
    };
    let key = bytes(alloc, names, key)?;
    let Ok(key) = version_list::read(alloc, key.as_slice()) else {
        return said(alloc, "no such key");
    };
    match call {
        "store" => stored(alloc, names, &key, upload, words),
        "gather" => gathered(alloc, &key, upload, words),
        "listed" => checked(alloc, &key, upload, words),
        _ => said(alloc, "no such call"),
    }
}

/// `join LENGTH:MD5 ..`
fn joined(alloc: Global, names: &Names, row: &str) -> Result<String, NoAnswer> {
    let mut parts = Vec::new(alloc);
    for word in row.split(' ') {
        let (length, md5) = word.split_once(":").unwrap_or((word, ""));
        let md5 = bytes(alloc, names, md5)?;
        if let Some(md5) = md5.first_chunk::<16>() {
            parts.push(part(number(length), *md5))?;
        }
    }
    if parts.is_empty() || parts.len() > 10_000 {
        return said(alloc, "no such parts");
    }
    let joined = join(parts.as_slice());
    let tag = etag(alloc, joined.etag)?;
    Ok(format!(in alloc; "{} bytes, {tag}", joined.length)?)
}

pub fn answer(alloc: Global, names: &Names, row: &str) -> Result<String, NoAnswer> {
    let (call, rest) = first(row);
    match call {
        "read" => {
            let content = bytes(alloc, names, rest)?;
            read_row(alloc, content.as_slice())
        }
        "again" => {
            let content = bytes(alloc, names, rest)?;
            again(alloc, content.as_slice())
        }
        "join" => joined(alloc, names, rest),
        "laws" => {
            row_laws();
            gather_laws();
            said(alloc, "done")
        }
        _ => of_upload(alloc, names, call, rest),
    }
}
