//! Calls, replies and refusals in words.

use crate::Line;
use crate::outcomes::{mode_word, say_change, say_id, say_pick, say_version_name};
use call_types::{Act, Brief, Cut, Key, Refusal, Reply, Version, VersionName, What, Whys};
use stamp_id::ChangeId;

/// The letters of drives.
pub fn say_whys(line: &mut Line, whys: &Whys) {
    let mut place = [0; 16];
    line.say_text(whys.letters(&mut place));
}

/// Words, and then letters.
fn say_letters(line: &mut Line, words: &str, whys: &Whys) {
    line.say(words);
    say_whys(line, whys);
}

/// Words, and then a version's name, or `none`.
fn say_named(line: &mut Line, words: &str, name: &Option<VersionName>) {
    line.say(words);
    match name {
        None => line.say("none"),
        Some(name) => say_version_name(line, name),
    }
}

/// The word of a refusal that has no more to tell.
fn plain_refusal(why: &Refusal) -> &'static str {
    match why {
        Refusal::BadHead => "BadHead",
        Refusal::HeadTooLong => "HeadTooLong",
        Refusal::NoLength => "NoLength",
        Refusal::ChunkedBody => "ChunkedBody",
        Refusal::InvalidURI => "InvalidURI",
        Refusal::NotImplemented => "NotImplemented",
        Refusal::InvalidBucketName => "InvalidBucketName",
        Refusal::KeyTooLong => "KeyTooLong",
        Refusal::InvalidDigest => "InvalidDigest",
        Refusal::EntityTooLarge => "EntityTooLarge",
        Refusal::NoSuchBucket => "NoSuchBucket",
        Refusal::BucketThere => "BucketThere",
        Refusal::NoSuchVersion => "NoSuchVersion",
        Refusal::VersionLimit => "VersionLimit",
        Refusal::UploadLimit => "UploadLimit",
        Refusal::NoSuchUpload => "NoSuchUpload",
        Refusal::InvalidPart => "InvalidPart",
        Refusal::PartOrder => "PartOrder",
        Refusal::PartSmall => "PartSmall",
        Refusal::PreconditionFailed => "PreconditionFailed",
        Refusal::SeqSpent => "SeqSpent",
        _ => "another refusal",
    }
}

/// A refusal by its name, with what it tells: letters, a version, a place, two digests or two counts.
pub fn say_refusal(line: &mut Line, why: &Refusal) {
    match why {
        Refusal::ReadQuorum(whys) => say_letters(line, "ReadQuorum ", whys),
        Refusal::WriteQuorum(whys) => say_letters(line, "WriteQuorum ", whys),
        Refusal::ShardQuorum(whys) => say_letters(line, "ShardQuorum ", whys),
        Refusal::Undecided { k, u, whys } => {
            line.say("Undecided ");
            line.say_number(u64::from(*k));
            line.say(" ");
            line.say_number(u64::from(*u));
            say_letters(line, " ", whys);
        }
        Refusal::NoSuchKey { marker } => say_named(line, "NoSuchKey ", marker),
        Refusal::MarkerNamed { id, modified } => {
            line.say("MarkerNamed ");
            say_version_name(line, id);
            line.say(" at ");
            line.say_number(*modified);
        }
        Refusal::MalformedXML(place) => say_count(line, "MalformedXML ", *place),
        Refusal::InvalidRange(length) => say_count(line, "InvalidRange ", *length),
        Refusal::InvalidArgument(name) => {
            line.say("InvalidArgument ");
            line.say_text(name.as_slice());
        }
        Refusal::BadDigest { stated, computed } => {
            line.say("BadDigest ");
            line.say_bytes(stated);
            line.say(" ");
            line.say_bytes(computed);
        }
        Refusal::NotInFlight(id) => {
            line.say("NotInFlight ");
            say_id(line, *id);
        }
        Refusal::AuditFailed { before, after } => {
            say_count(line, "AuditFailed ", *before);
            say_count(line, " ", *after);
        }
        _ => line.say(plain_refusal(why)),
    }
}

/// Words, and then a number.
fn say_count(line: &mut Line, words: &str, count: u64) {
    line.say(words);
    line.say_number(count);
}

/// A version: its name, its second, and of an object its length, its tag and the id of its data.
pub fn say_version(line: &mut Line, version: &Version) {
    say_version_name(line, &version.id);
    say_count(line, " at ", version.modified);
    match &version.what {
        What::Marker => line.say(" marker"),
        What::Object {
            data_id,
            print: _,
            length,
            md5,
            parts: _,
            upload: _,
            kind: _,
        } => {
            say_count(line, " length ", *length);
            line.say(" tag ");
            line.say_bytes(md5);
            line.say(" data ");
            say_id(line, *data_id);
        }
    }
}

/// A reply.
pub fn say_reply(line: &mut Line, reply: &Reply) {
    match reply {
        Reply::Plain => line.say("plain"),
        Reply::Buckets(rows) => {
            line.say("buckets");
            for row in rows.as_slice() {
                line.say(" ");
                line.say_text(row.name.as_slice());
                say_count(line, "@", row.created);
            }
        }
        Reply::Mode(mode) => {
            line.say("mode ");
            line.say(mode_word(*mode));
        }
        Reply::Stored { etag, id } => {
            line.say("stored ");
            line.say_bytes(&etag.md5);
            say_named(line, " version ", id);
        }
        Reply::Found { version, span, id } => {
            say_count(line, "found ", span.at);
            say_count(line, "+", span.length);
            line.say(" of ");
            say_version(line, version);
            say_named(line, " version ", id);
        }
        Reply::Deleted { id, marker } => {
            line.say(if *marker { "marked" } else { "deleted" });
            say_named(line, " version ", id);
        }
        Reply::Refused(why) => say_refusal(line, why),
        Reply::Page(..) => line.say("a page of keys"),
        Reply::Versions(..) => line.say("a page of versions"),
        Reply::Opened(id) => {
            line.say("opened ");
            say_id(line, *id);
        }
        Reply::Completed { .. } => line.say("completed"),
    }
}

/// A key as `BUCKET/KEY`.
fn say_key(line: &mut Line, at: &Key) {
    line.say_text(at.bucket.as_slice());
    line.say("/");
    line.say_text(at.key.as_slice());
}

/// The change that a call drew, or `none`.
fn say_drawn(line: &mut Line, change: &Option<ChangeId>) {
    line.say(" change ");
    match change {
        None => line.say("none"),
        Some(change) => say_change(line, *change),
    }
}

/// What is done to a key.
fn act_word(act: &Act) -> &'static str {
    match act {
        Act::Put { .. } => "put ",
        Act::Delete(_) => "delete ",
        Act::Create { .. } => "create ",
        Act::Complete { .. } => "complete ",
        Act::Abort { .. } => "abort ",
    }
}

/// Of a put the length of the body, of a deletion which version is deleted, and of an abort which upload.
fn say_act(line: &mut Line, act: &Act) {
    match act {
        Act::Put { length, .. } => say_count(line, " length ", *length),
        Act::Delete(pick) => {
            line.say(" ");
            say_pick(line, pick);
        }
        Act::Abort { upload } => {
            line.say(" ");
            say_id(line, *upload);
        }
        Act::Create { .. } | Act::Complete { .. } => {}
    }
}

/// A call or a reply as plain data.
pub fn say_brief(line: &mut Line, brief: &Brief) {
    match brief {
        Brief::Read { at, mode, pick } => {
            line.say("read ");
            say_key(line, at);
            line.say(" ");
            line.say(mode_word(*mode));
            line.say(" ");
            say_pick(line, pick);
        }
        Brief::Change {
            at,
            mode,
            act,
            change,
            now,
        } => {
            line.say(act_word(act));
            say_key(line, at);
            line.say(" ");
            line.say(mode_word(*mode));
            say_act(line, act);
            say_drawn(line, change);
            say_count(line, " at ", *now);
        }
        Brief::MakeBucket {
            bucket,
            change,
            now,
        } => {
            line.say("make ");
            line.say_text(bucket.as_slice());
            say_drawn(line, change);
            say_count(line, " at ", *now);
        }
        Brief::SetMode {
            bucket,
            mode,
            change,
            now,
        } => {
            line.say("mode ");
            line.say_text(bucket.as_slice());
            line.say(" ");
            line.say(mode_word(*mode));
            say_drawn(line, change);
            say_count(line, " at ", *now);
        }
        Brief::Answer(reply) => say_reply(line, reply),
        Brief::Gather { .. } => line.say("gather"),
        Brief::Part { .. } => line.say("part"),
    }
}

/// Why a call was cut.
pub fn say_cut(line: &mut Line, cut: &Cut) {
    match cut {
        Cut::ReadFault => line.say("cut: ReadFault"),
        Cut::BodyCut { read, stated } => {
            say_count(line, "cut: BodyCut ", *read);
            say_count(line, " ", *stated);
        }
        Cut::WriteFault => line.say("cut: WriteFault"),
        Cut::ShardCut(whys) => say_letters(line, "cut: ShardCut ", whys),
        Cut::NoMemory => line.say("cut: NoMemory"),
    }
}
