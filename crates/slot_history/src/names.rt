//! The names of a slot's registers, and the slot that each belongs to.

ghost use Rattle.std.specs.Prelude.{◌≡◌, ◌+◌, ◌*◌, ◌/◌, ◌%◌, ◌<◌, ◌≤◌, ◌++◌, ◌∷◌, IfOk, fold, IsUtf8};
ghost use Rattle.std.specs.String.{string_bytes};
ghost use Rattle.slot_history.specs.Names.{bucket_name, bucket_slot, five_digits, key_name, key_slot, part_name, path_of, slot_of, slot_step};

use call_types::Key;
use fault_base::NoMemory;
use seal_file::Text;
use stamp_id::VersionId;
use std::alloc::Global;

/// How many slots there are.
pub const SLOTS: u8 = 64;

/// The slot of a bucket's register.
pub fn bucket_slot(bucket: &Text) -> u8
    ensures value { result ≡ bucket_slot bucket.now }
    ensures within { result < 64 }
{
    fold_bytes(0, bucket.as_slice())
}

/// The slot of a key's register, and of those of its parts.
pub fn key_slot(at: &Key) -> u8
    ensures value { result ≡ key_slot at.now }
    ensures within { result < 64 }
{
    let bucket = fold_bytes(0, at.bucket.as_slice());
    let slash = fold_bytes(bucket, b"/");
    fold_bytes(slash, at.key.as_slice())
}

/// The slot so far, and then these bytes.
fn fold_bytes(slot: u8, bytes: &[u8]) -> u8
    requires { slot < 64 }
    ensures value { result ≡ fold slot_step slot bytes.now }
    ensures within { result < 64 }
{
    let mut slot = slot;
    for byte in bytes {
        slot = ((31 * u16::from(slot) + u16::from(*byte)) % 64) as u8;
    }
    slot
}

/// The name of a bucket's register.
pub fn bucket_name(alloc: Global, bucket: &Text) -> Result<String, NoMemory>
    requires { IsUtf8 bucket.now }
    ensures { IfOk result (λ name. string_bytes name ≡ bucket_name bucket.now) }
{
    let mut name = String::from_str(alloc, "b/")?;
    name.push_str(text_of(bucket.as_slice()))?;
    Ok(name)
}

/// The name of a key's register.
pub fn key_name(alloc: Global, at: &Key) -> Result<String, NoMemory>
    requires bucket { IsUtf8 at.now.bucket }
    requires key { IsUtf8 at.now.key }
    ensures { IfOk result (λ name. string_bytes name ≡ key_name at.now) }
{
    let mut name = String::from_str(alloc, "k/")?;
    push_path(&mut name, at)?;
    Ok(name)
}

/// The name of the register of a part of an upload.
pub fn part_name(
    alloc: Global,
    at: &Key,
    upload: VersionId,
    number: u16,
) -> Result<String, NoMemory>
    requires bucket { IsUtf8 at.now.bucket }
    requires key { IsUtf8 at.now.key }
    ensures { IfOk result (λ name. string_bytes name ≡ part_name at.now upload number) }
{
    let mut name = String::from_str(alloc, "p/")?;
    push_path(&mut name, at)?;
    name.push_str("/")?;
    let digits = hex::encode(alloc, upload.bytes())?;
    name.push_str(digits.as_str())?;
    name.push_str("/")?;
    let digits = digits_of(number);
    name.push_str(text_of(&digits))?;
    Ok(name)
}

/// Adds a bucket and a key, with a slash between.
fn push_path(name: &mut String, at: &Key) -> Result<(), NoMemory>
    requires bucket { IsUtf8 at.now.bucket }
    requires key { IsUtf8 at.now.key }
    ensures { IfOk result (λ _. string_bytes name.new ≡ string_bytes name.old ++ path_of at.now) }
{
    name.push_str(text_of(at.bucket.as_slice()))?;
    name.push_str("/")?;
    name.push_str(text_of(at.key.as_slice()))?;
    Ok(())
}

/// The five decimal digits of a number.
fn digits_of(number: u16) -> [u8; 5]
    ensures value { result ≡ five_digits number }
    ensures text { IsUtf8 result }
{
    [
        digit(number / 10_000),
        digit(number / 1_000),
        digit(number / 100),
        digit(number / 10),
        digit(number),
    ]
}

/// The last decimal digit of a number, in ASCII.
fn digit(number: u16) -> u8
    ensures value { result ≡ 48 + number % 10 }
    ensures ascii { result < 128 }
{
    b'0' + (number % 10) as u8
}

/// Bytes that are UTF-8, as text.
fn text_of(bytes: &[u8]) -> &str
    requires { IsUtf8 bytes.now }
    ensures { result.now ≡ bytes.now }
{
    let Ok(text) = str::from_utf8(bytes) else {
        unreachable!()
    };
    text
}
