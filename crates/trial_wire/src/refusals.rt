//! Refusals in words: the name of each and what it carries, as `InvalidArgument max-keys` or `ReadQuorum gfdl`.

use crate::replies::{text_word, told_name, version_id, version_name};
use call_types::{FileKind, Refusal, Why, Whys};
use s3_reply::{code, push_message, refusal_status};
use seal_file::Damage;
use stamp_id::Ballot;
use std::alloc::Global;
use trial_base::{Names, NoAnswer, first, number, word};

/// A `Why` of a letter.
fn why(letter: u8) -> Result<Why, NoAnswer> {
    match letter {
        b'g' => Ok(Why::Good),
        b'f' => Ok(Why::Failed {
            before: 0,
            after: 1,
        }),
        b'd' => Ok(Why::Damaged(Damage::Short(3))),
        b'b' => Ok(Why::Behind(Ballot { term: 1, seq: 2 })),
        b'l' => Ok(Why::Lacks(FileKind::Register)),
        _ => Err(NoAnswer),
    }
}

/// A `Why` for each of 1 to 16 letters.
fn whys(letters: &str) -> Result<Whys, NoAnswer> {
    let letters = letters.as_bytes();
    if letters.is_empty() || letters.len() > 16 {
        return Err(NoAnswer);
    }
    let mut whys = Whys::all_good(letters.len() as u8);
    for (drive, letter) in letters.iter().enumerate() {
        let why = why(*letter)?;
        if drive < whys.len() {
            whys.set(drive, why);
        }
    }
    Ok(whys)
}

/// A refusal that carries nothing.
fn bare_refusal(name: &str) -> Result<Refusal, NoAnswer> {
    match name {
        "BadHead" => Ok(Refusal::BadHead),
        "HeadTooLong" => Ok(Refusal::HeadTooLong),
        "NoLength" => Ok(Refusal::NoLength),
        "ChunkedBody" => Ok(Refusal::ChunkedBody),
        "InvalidURI" => Ok(Refusal::InvalidURI),
        "NotImplemented" => Ok(Refusal::NotImplemented),
        "InvalidBucketName" => Ok(Refusal::InvalidBucketName),
        "KeyTooLong" => Ok(Refusal::KeyTooLong),
        "InvalidDigest" => Ok(Refusal::InvalidDigest),
        "EntityTooLarge" => Ok(Refusal::EntityTooLarge),
        "NoSuchBucket" => Ok(Refusal::NoSuchBucket),
        "BucketThere" => Ok(Refusal::BucketThere),
        "NoSuchVersion" => Ok(Refusal::NoSuchVersion),
        "VersionLimit" => Ok(Refusal::VersionLimit),
        "UploadLimit" => Ok(Refusal::UploadLimit),
        "NoSuchUpload" => Ok(Refusal::NoSuchUpload),
        "InvalidPart" => Ok(Refusal::InvalidPart),
        "PartOrder" => Ok(Refusal::PartOrder),
        "PartSmall" => Ok(Refusal::PartSmall),
        "PreconditionFailed" => Ok(Refusal::PreconditionFailed),
        "SeqSpent" => Ok(Refusal::SeqSpent),
        _ => Err(NoAnswer),
    }
}

/// `Undecided K U LETTERS`
fn undecided(words: &str) -> Result<Refusal, NoAnswer> {
    let whys = whys(word(words, 2))?;
    match (word(words, 0).parse::<u8>(), word(words, 1).parse::<u8>()) {
        (Ok(k), Ok(u)) => Ok(Refusal::Undecided { k, u, whys }),
        _ => Err(NoAnswer),
    }
}

/// A refusal.
pub fn refusal(alloc: Global, names: &Names, words: &str) -> Result<Refusal, NoAnswer> {
    let (name, rest) = first(words);
    match name {
        "InvalidArgument" => Ok(Refusal::InvalidArgument(text_word(alloc, names, rest)?)),
        "MalformedXML" => Ok(Refusal::MalformedXML(number(rest))),
        "InvalidRange" => Ok(Refusal::InvalidRange(number(rest))),
        "BadDigest" => Ok(Refusal::BadDigest {
            stated: [1; 16],
            computed: [2; 16],
        }),
        "NoSuchKey" => Ok(Refusal::NoSuchKey {
            marker: told_name(rest)?,
        }),
        "MarkerNamed" => Ok(Refusal::MarkerNamed {
            id: version_name(word(rest, 0))?,
            modified: number(word(rest, 1)),
        }),
        "ReadQuorum" => Ok(Refusal::ReadQuorum(whys(rest)?)),
        "WriteQuorum" => Ok(Refusal::WriteQuorum(whys(rest)?)),
        "ShardQuorum" => Ok(Refusal::ShardQuorum(whys(rest)?)),
        "Undecided" => undecided(rest),
        "NotInFlight" => Ok(Refusal::NotInFlight(version_id(rest)?)),
        "AuditFailed" => Ok(Refusal::AuditFailed {
            before: number(word(rest, 0)),
            after: number(word(rest, 1)),
        }),
        _ => bare_refusal(name),
    }
}

/// What a client is told of a refusal: `STATUS CODE: MESSAGE`.
pub fn said_refusal(alloc: Global, why: &Refusal) -> Result<String, NoAnswer> {
    let mut message = Vec::new(alloc);
    push_message(&mut message, why)?;
    let code = str::from_utf8(code(why)).unwrap_or("?");
    let message = str::from_utf8(message.as_slice()).unwrap_or("?");
    let status = refusal_status(why).as_u16();
    Ok(format!(in alloc; "{status} {code}: {message}")?)
}
