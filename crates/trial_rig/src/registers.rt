//! Keys and registers by their words.

ghost use Rattle.std.specs.Prelude.{◌≤◌, IfOk, IsUtf8, length, string_bytes};
ghost use Rattle.slot_history.specs.Names.{key_name};
ghost use Rattle.slot_rules.specs.Rules.{IsRegisterName};
ghost use Rattle.drive_base.specs.declared.drive.TheConstants.{LONGEST_NAME};

use call_types::Key;
use drive_base::LONGEST_NAME;
use seal_file::Text;
use slot_history::{bucket_name, key_name};
use std::alloc::Global;
use trial_base::NoAnswer;

/// A word as text.
pub fn text_of(alloc: Global, word: &str) -> Result<Text, NoAnswer>
    ensures { IfOk result (λ text. IsUtf8 text) }
{
    Ok(Text::from_slice(alloc, word.as_bytes())?)
}

/// The key that is spelled `BUCKET/KEY`.
pub fn key_of(alloc: Global, word: &str) -> Result<Key, NoAnswer>
    ensures texts { IfOk result (λ at. IsUtf8 at.bucket × IsUtf8 at.key) }
    ensures short { IfOk result (λ at. length (key_name at) ≤ LONGEST_NAME) }
{
    let Some((bucket, key)) = word.split_once("/") else {
        return Err(NoAnswer);
    };
    let bucket = Text::from_slice(alloc, bucket.as_bytes())?;
    let key = Text::from_slice(alloc, key.as_bytes())?;
    let at = Key { bucket, key };
    let register = key_name(alloc, &at)?;
    if register.len() > LONGEST_NAME {
        return Err(NoAnswer);
    }
    Ok(at)
}

/// The name of the register of a bucket, of at most 1,129 bytes.
fn bucket_register(alloc: Global, bucket: &str) -> Result<String, NoAnswer>
    ensures named { IfOk result (λ name. IsRegisterName (string_bytes name)) }
    ensures short { IfOk result (λ name. length (string_bytes name) ≤ LONGEST_NAME) }
{
    let bucket = Text::from_slice(alloc, bucket.as_bytes())?;
    let name = bucket_name(alloc, &bucket)?;
    if name.len() > LONGEST_NAME {
        return Err(NoAnswer);
    }
    Ok(name)
}

/// The name of the register of a key.
fn key_register(alloc: Global, at: &str) -> Result<String, NoAnswer>
    ensures named { IfOk result (λ name. IsRegisterName (string_bytes name)) }
    ensures short { IfOk result (λ name. length (string_bytes name) ≤ LONGEST_NAME) }
{
    let at = key_of(alloc, at)?;
    Ok(key_name(alloc, &at)?)
}

/// The name of the register that is spelled `b/BUCKET` or `k/BUCKET/KEY`.
pub fn register_name(alloc: Global, word: &str) -> Result<String, NoAnswer>
    ensures named { IfOk result (λ name. IsRegisterName (string_bytes name)) }
    ensures short { IfOk result (λ name. length (string_bytes name) ≤ LONGEST_NAME) }
{
    if let Some(bucket) = word.strip_prefix("b/") {
        return bucket_register(alloc, bucket);
    }
    if let Some(at) = word.strip_prefix("k/") {
        return key_register(alloc, at);
    }
    Err(NoAnswer)
}
