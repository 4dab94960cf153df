//! Calls by words.

ghost use Rattle.std.specs.Prelude.{◌≡◌, ◌≤◌, IfOk};
ghost use Rattle.bucket_book.specs.Name.{IsBucketName};
ghost use Rattle.desk_base.specs.Calls.{IsKey, IsLawful, IsRange, stated_length};

use bucket_book::check_name;
use call_types::{Key, Pick, RangeAsk};
use desk_base::Call;
use seal_file::Text;
use stamp_id::VersionId;
use std::alloc::Global;
use trial_base::{Names, NoAnswer, bytes, first, number, word};
use trial_rig::Source;

/// The name of the bucket of all rows.
fn bucket(alloc: Global) -> Result<Text, NoAnswer>
    ensures { IfOk result IsBucketName }
{
    if !check_name("pic") {
        return Err(NoAnswer);
    }
    Ok(Text::from_slice(alloc, "pic".as_bytes())?)
}

/// A key of the bucket.
fn key(alloc: Global, name: &str) -> Result<Key, NoAnswer>
    ensures { IfOk result IsKey }
{
    if name.is_empty() || name.len() >= 9 {
        return Err(NoAnswer);
    }
    let bucket = bucket(alloc)?;
    let key = Text::from_slice(alloc, name.as_bytes())?;
    Ok(Key { bucket, key })
}

/// The range `FROM TO`, or all.
fn range(words: &str) -> Result<RangeAsk, NoAnswer>
    ensures { IfOk result IsRange }
{
    if words.is_empty() {
        return Ok(RangeAsk::Whole);
    }
    let (from, to) = (number(word(words, 0)), number(word(words, 1)));
    if from > to {
        return Err(NoAnswer);
    }
    Ok(RangeAsk::FromTo(from, to))
}

/// The bytes that come of the body of `put KEY BODY STATED MD5`, and none of another call.
fn body(alloc: Global, names: &Names, words: &str) -> Result<Vec<u8>, NoAnswer> {
    if word(words, 0) != "put" {
        return Ok(Vec::new(alloc));
    }
    bytes(alloc, names, word(words, 2))
}

/// The MD5 that is stated of the body of `put KEY BODY STATED MD5`, if one is.
fn md5(alloc: Global, names: &Names, words: &str) -> Result<Option<[u8; 16]>, NoAnswer> {
    let words = word(words, 4);
    if words.is_empty() {
        return Ok(None);
    }
    let found = bytes(alloc, names, words)?;
    match found.first_chunk::<16>() {
        Some(md5) => Ok(Some(*md5)),
        None => Err(NoAnswer),
    }
}

/// The stated length of the body of `put KEY BODY STATED MD5`: that of its bytes, where none is said.
fn stated(alloc: Global, names: &Names, words: &str) -> Result<u64, NoAnswer>
    ensures { IfOk result (λ length. length ≤ 1000000) }
{
    let length = match word(words, 3) {
        "" => body(alloc, names, words)?.len() as u64,
        length => number(length),
    };
    if length > 1_000_000 {
        return Err(NoAnswer);
    }
    Ok(length)
}

/// `put KEY BODY STATED MD5`
fn put(alloc: Global, names: &Names, words: &str) -> Result<Call, NoAnswer>
    ensures { IfOk result IsLawful }
{
    let md5 = md5(alloc, names, words)?;
    let length = stated(alloc, names, words)?;
    let kind = Text::from_slice(alloc, "text/plain".as_bytes())?;
    let at = key(alloc, word(words, 1))?;
    Ok(Call::Put {
        at,
        kind,
        md5,
        length,
    })
}

/// The words of a call before its `if VALUE`.
fn plain(words: &str) -> &str {
    match words.split_once(" if ") {
        Some((words, _)) => words,
        None => words,
    }
}

/// The value of the `If-Match` of a call, `.. if VALUE`, where one is said.
fn condition(alloc: Global, names: &Names, words: &str) -> Result<Option<Text>, NoAnswer> {
    match words.split_once(" if ") {
        Some((_, value)) => Ok(Some(Text::from_vec(bytes(alloc, names, value)?))),
        None => Ok(None),
    }
}

/// The call of these words: `buckets`, `bucket`, `put KEY BODY STATED MD5`, `get KEY FROM TO if VALUE`, `head KEY if VALUE`, `delete KEY`, `create KEY`, or
/// `abort KEY UPLOAD`.
pub fn call(alloc: Global, names: &Names, words: &str) -> Result<Call, NoAnswer>
    ensures { IfOk result IsLawful }
{
    let (kind, rest) = first(plain(words));
    let (name, more) = first(rest);
    let pick = Pick::Current;
    match kind {
        "buckets" => Ok(Call::ListBuckets),
        "bucket" => Ok(Call::CreateBucket {
            bucket: bucket(alloc)?,
        }),
        "put" => put(alloc, names, words),
        "get" => {
            let ask = range(more)?;
            let matches = condition(alloc, names, words)?;
            let at = key(alloc, name)?;
            Ok(Call::Get {
                at,
                pick,
                ask,
                matches,
            })
        }
        "head" => {
            let matches = condition(alloc, names, words)?;
            let at = key(alloc, name)?;
            Ok(Call::Head { at, pick, matches })
        }
        "delete" => Ok(Call::Delete {
            at: key(alloc, name)?,
            pick,
        }),
        "create" => Ok(Call::Create {
            at: key(alloc, name)?,
            kind: Text::empty(alloc),
        }),
        "abort" => Ok(Call::Abort {
            at: key(alloc, name)?,
            upload: VersionId::parse(more).ok(),
        }),
        _ => Err(NoAnswer),
    }
}

/// The feed of the body of this call, which these words ask for.
pub fn source(alloc: Global, names: &Names, call: &Call, words: &str) -> Result<Source, NoAnswer>
    ensures stated { IfOk result (λ source. source.stated ≡ stated_length call.now) }
    ensures given { IfOk result (λ source. source.given ≡ 0) }
{
    let come = body(alloc, names, words)?;
    Source::new(call.stated_length(), come)
}
