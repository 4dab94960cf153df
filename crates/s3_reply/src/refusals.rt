//! The Error document.

ghost use Rattle.std.specs.Prelude.{◌≡◌, ◌++◌, codes, decimal, OnOk};
ghost use Rattle.call_types.specs.Letters.{letters_of};
ghost use Rattle.s3_reply.specs.Documents.{error_document};
ghost use Rattle.s3_reply.specs.Escaping.{escaped};
ghost use Rattle.s3_reply.specs.Statuses.{words_of};
ghost use Rattle.s3_reply.specs.Xml.{printed, leaf};

use crate::escaping::push_text;
use crate::xml::{push_close, push_decimal, push_leaf, push_open};
use call_types::{Refusal, Whys};
use fault_base::NoMemory;

/// Appends the root of the document of a refusal.
pub(crate) fn push_error(out: &mut Vec<u8>, why: &Refusal, path: &[u8]) -> Result<(), NoMemory>
    ensures { OnOk result (out.new.items ≡ out.old.items ++ printed (error_document (words_of why.now) path.now)) }
{
    push_open(out, b"Error")?;
    push_leaf(out, b"Code", code(why))?;
    push_message_leaf(out, why)?;
    push_leaf(out, b"Resource", path)?;
    push_close(out, b"Error")?;
    Ok(())
}

/// The code of a refusal.
pub fn code(why: &Refusal) -> &'static [u8]
    ensures { result.now ≡ (words_of why.now).code }
{
    match why {
        Refusal::BadHead => b"BadRequest",
        Refusal::HeadTooLong => b"RequestHeaderTooLong",
        Refusal::NoLength => b"MissingContentLength",
        Refusal::ChunkedBody => b"NotImplemented",
        Refusal::InvalidURI => b"InvalidURI",
        Refusal::NotImplemented => b"NotImplemented",
        Refusal::InvalidBucketName => b"InvalidBucketName",
        Refusal::KeyTooLong => b"KeyTooLongError",
        Refusal::InvalidArgument(_) => b"InvalidArgument",
        Refusal::InvalidDigest => b"InvalidDigest",
        Refusal::EntityTooLarge => b"EntityTooLarge",
        Refusal::MalformedXML(_) => b"MalformedXML",
        Refusal::NoSuchBucket => b"NoSuchBucket",
        Refusal::BucketThere => b"BucketAlreadyOwnedByYou",
        Refusal::BadDigest { .. } => b"BadDigest",
        Refusal::NoSuchKey { .. } => b"NoSuchKey",
        Refusal::NoSuchVersion => b"NoSuchVersion",
        Refusal::MarkerNamed { .. } => b"MethodNotAllowed",
        Refusal::VersionLimit => b"TooManyVersions",
        Refusal::UploadLimit => b"TooManyUploads",
        Refusal::NoSuchUpload => b"NoSuchUpload",
        Refusal::InvalidPart => b"InvalidPart",
        Refusal::PartOrder => b"InvalidPartOrder",
        Refusal::PartSmall => b"EntityTooSmall",
        Refusal::PreconditionFailed => b"PreconditionFailed",
        Refusal::InvalidRange(_) => b"InvalidRange",
        Refusal::ReadQuorum(_) => b"SlowDown",
        Refusal::WriteQuorum(_) => b"SlowDown",
        Refusal::Undecided { .. } => b"SlowDown",
        Refusal::ShardQuorum(_) => b"SlowDown",
        Refusal::SeqSpent => b"SlowDown",
        Refusal::NotInFlight(_) => b"SlowDown",
        Refusal::AuditFailed { .. } => b"SlowDown",
    }
}

/// Appends the element of a refusal's message.
#[tactic(auto, unfolding(crate::specs::Xml::leaf))]
fn push_message_leaf(out: &mut Vec<u8>, why: &Refusal) -> Result<(), NoMemory>
    ensures { OnOk result (out.new.items ≡ out.old.items ++ printed (leaf (codes "Message") (words_of why.now).message)) }
{
    push_open(out, b"Message")?;
    push_message(out, why)?;
    push_close(out, b"Message")
}

/// Appends the message of a refusal, as a document has it.
pub fn push_message(out: &mut Vec<u8>, why: &Refusal) -> Result<(), NoMemory>
    ensures { OnOk result (out.new.items ≡ out.old.items ++ escaped (words_of why.now).message) }
{
    match why {
        Refusal::InvalidArgument(name) => push_around(out, b"Invalid value of ", name.as_slice()),
        Refusal::MalformedXML(place) => push_malformed(out, *place),
        Refusal::ReadQuorum(whys) => push_quorum(out, b"Read quorum: ", whys),
        Refusal::WriteQuorum(whys) => push_quorum(out, b"Write quorum: ", whys),
        Refusal::ShardQuorum(whys) => push_quorum(out, b"Shard quorum: ", whys),
        Refusal::Undecided { k, u, whys } => push_undecided(out, *k, *u, whys),
        Refusal::BadHead => push_text(out, b"The request head is malformed."),
        Refusal::HeadTooLong => push_text(out, b"The request head is too long."),
        Refusal::NoLength => push_text(out, b"The Content-Length header is missing."),
        Refusal::ChunkedBody => push_text(out, b"Chunked bodies are not served."),
        Refusal::InvalidURI => push_text(out, b"The target is not a path in UTF-8."),
        Refusal::NotImplemented => push_text(out, b"This call is not served."),
        Refusal::InvalidBucketName => push_text(out, b"The bucket name is not valid."),
        Refusal::KeyTooLong => push_text(out, b"The key is longer than 1024 bytes."),
        Refusal::InvalidDigest => push_text(out, b"The Content-MD5 is not valid."),
        Refusal::EntityTooLarge => push_text(out, b"The body is longer than the limit."),
        Refusal::NoSuchBucket => push_text(out, b"The specified bucket does not exist."),
        Refusal::BucketThere => push_text(out, b"The bucket is there already."),
        Refusal::BadDigest { .. } => push_text(out, b"The Content-MD5 differs from the body."),
        Refusal::NoSuchKey { .. } => push_text(out, b"The specified key does not exist."),
        Refusal::NoSuchVersion => push_text(out, b"The specified version does not exist."),
        Refusal::MarkerNamed { .. } => push_text(out, b"The specified version is a delete marker."),
        Refusal::VersionLimit => push_text(out, b"The key has 10000 versions."),
        Refusal::UploadLimit => push_text(out, b"The key has 1000 open uploads."),
        Refusal::NoSuchUpload => push_text(out, b"The specified upload does not exist."),
        Refusal::InvalidPart => push_text(out, b"A listed part was not found."),
        Refusal::PartOrder => push_text(out, b"The parts are not in rising order."),
        Refusal::PartSmall => push_text(out, b"A part is smaller than 5242880 bytes."),
        Refusal::PreconditionFailed => push_text(out, b"The precondition doesn't hold."),
        Refusal::InvalidRange(_) => push_text(out, b"The range is not satisfiable."),
        Refusal::SeqSpent => push_text(out, b"The slot's numbers are spent."),
        Refusal::NotInFlight(_) => push_text(out, b"The write is not in flight."),
        Refusal::AuditFailed { .. } => push_text(out, b"The audit failed."),
    }
}

/// Appends the message of a document that is not well formed.
fn push_malformed(out: &mut Vec<u8>, place: u64) -> Result<(), NoMemory>
    ensures { OnOk result (out.new.items ≡ out.old.items
        ++ escaped (codes "The document is not well formed at byte " ++ decimal place ++ codes ".")) }
{
    push_text(out, b"The document is not well formed at byte ")?;
    push_decimal(out, place)?;
    push_text(out, b".")?;
    Ok(())
}

/// Appends a sentence that ends in this word.
fn push_around(out: &mut Vec<u8>, front: &[u8], word: &[u8]) -> Result<(), NoMemory>
    ensures { OnOk result (out.new.items ≡ out.old.items ++ escaped (front.now ++ word.now ++ codes ".")) }
{
    push_text(out, front)?;
    push_text(out, word)?;
    push_text(out, b".")?;
    Ok(())
}

/// Appends the letters of the drives behind a text.
fn push_quorum(out: &mut Vec<u8>, front: &[u8], whys: &Whys) -> Result<(), NoMemory>
    ensures { OnOk result (out.new.items ≡ out.old.items ++ escaped (front.now ++ letters_of whys.now)) }
{
    push_text(out, front)?;
    push_letters(out, whys)?;
    Ok(())
}

/// Appends the letters of the drives.
fn push_letters(out: &mut Vec<u8>, whys: &Whys) -> Result<(), NoMemory>
    ensures { OnOk result (out.new.items ≡ out.old.items ++ escaped (letters_of whys.now)) }
{
    let mut place = [0; 16];
    push_text(out, whys.letters(&mut place))
}

/// Appends the message of a change that is not decided.
fn push_undecided(out: &mut Vec<u8>, k: u8, u: u8, whys: &Whys) -> Result<(), NoMemory>
    ensures { OnOk result (out.new.items ≡ out.old.items
        ++ escaped (codes "Undecided " ++ decimal k ++ codes " " ++ decimal u ++ codes ": " ++ letters_of whys.now)) }
{
    push_text(out, b"Undecided ")?;
    push_decimal(out, k as u64)?;
    push_text(out, b" ")?;
    push_decimal(out, u as u64)?;
    push_text(out, b": ")?;
    push_letters(out, whys)?;
    Ok(())
}
