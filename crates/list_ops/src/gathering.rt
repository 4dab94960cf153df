//! Which names of a page are kept, and up to which name the names are known.

ghost use Rattle.std.specs.Prelude.{◌≡◌, ◌<◌, ◌≤◌, true, false, ◌++◌, IfOk, MatchOption, filter, fold, length, map, option_map, string_bytes};
ghost use Rattle.receipts.specs.Listing.{key_in};
ghost use Rattle.receipts.specs.Pages.{begins_with, is_before};
ghost use Rattle.receipts.specs.Registers.{key_slot};
ghost use Rattle.slot_history.specs.Names.{slot_step};
ghost use Rattle.list_page.specs.Asks.{rule_of};
ghost use Rattle.list_ops.specs.Names.{is_name, key_of};
ghost use Rattle.list_ops.specs.Sheets.{bound_after, is_found, lesser, range};

use crate::target::Target;
use fault_base::NoMemory;
use list_page::wants;
use std::alloc::Global;

/// The greatest length of a key, in bytes.
const LONGEST_KEY: usize = 1024;

/// Whether one text stands before another, byte by byte.
pub(crate) fn is_before(a: &str, b: &str) -> bool
    ensures { result ≡ is_before a.now b.now }
{
    a < b
}

/// The key whose register has this name, if it is that of a key of the bucket.
pub(crate) fn key_behind<'a>(target: &Target, name: &'a [u8]) -> Option<&'a [u8]>
    ensures { MatchOption result (is_name target.now.bucket name.now ≡ false)
        (λ key. (is_name target.now.bucket name.now ≡ true) × (key.now ≡ key_of target.now.bucket name.now)) }
{
    let begin = target.begin.as_bytes();
    if !name.starts_with(begin) {
        return None;
    }
    let key = &name[begin.len()..];
    if key.is_empty() || key.len() > LONGEST_KEY {
        return None;
    }
    Some(key)
}

/// The slot so far, and then these bytes.
fn fold_bytes(slot: u8, bytes: &[u8]) -> u8
    requires { slot < 64 }
    ensures value { result ≡ fold slot_step slot bytes.now }
    ensures within { result < 64 }
{
    let mut slot = slot;
    for byte in bytes {
        slot = ((31 * u16::from(slot) + u16::from(*byte)) % 64) as u8;
    }
    slot
}

/// The slot of a key of the bucket.
pub(crate) fn slot_of(target: &Target, key: &[u8]) -> u8
    ensures value { result ≡ key_slot (key_in target.now.bucket key.now) }
    ensures within { result < 64 }
{
    let bucket = fold_bytes(0, target.bucket.as_slice());
    let slash = fold_bytes(bucket, b"/");
    fold_bytes(slash, key)
}

/// Whether a name of a slot is that of a key that isn't left out.
fn is_found(target: &Target, slot: u8, name: &[u8]) -> bool
    ensures { result ≡ is_found (rule_of target.now.ask) target.now.bucket slot name.now }
{
    let Some(key) = key_behind(target, name) else {
        return false;
    };
    slot_of(target, key) == slot && wants(&target.ask, key)
}

/// Keeps the names of a slot's page that are found, behind those that were found before.
pub(crate) fn keep_found(
    target: &Target,
    slot: u8,
    mut names: Vec<String>,
    found: &mut Vec<String>,
) -> Result<(), NoMemory>
    ensures grows { length found.old.items ≤ length found.new.items }
    ensures keeps { IfOk result (λ _. map string_bytes found.new.items ≡ map string_bytes found.old.items
        ++ filter (is_found (rule_of target.now.ask) target.now.bucket slot) (map string_bytes names.items)) }
{
    names.retain(|name| is_found(target, slot, name.as_bytes()));
    found.append(&mut names)?;
    Ok(())
}

/// Whether behind this name, the last of a full page, the name of a wanted key may stand.
fn is_in_range(target: &Target, name: &[u8]) -> bool
    ensures { result ≡ begins_with (range (rule_of target.now.ask) target.now.bucket) name.now }
{
    let begin = target.begin.as_bytes();
    name.starts_with(begin) && name[begin.len()..].starts_with(target.ask.prefix.as_slice())
}

/// The lesser of a bound, where there is one, and a name.
fn lesser_of(alloc: Global, bound: Option<String>, name: &str) -> Result<String, NoMemory>
    ensures { IfOk result (λ later. string_bytes later ≡ lesser (option_map string_bytes bound) name.now) }
{
    let Some(bound) = bound else {
        return Ok(String::from_str(alloc, name)?);
    };
    if is_before(name, bound.as_str()) {
        return Ok(String::from_str(alloc, name)?);
    }
    Ok(bound)
}

/// The bound after a page of names of which so many were asked for at most.
pub(crate) fn bound_behind(
    alloc: Global,
    target: &Target,
    most: u32,
    names: &[String],
    bound: Option<String>,
) -> Result<Option<String>, NoMemory>
    ensures { IfOk result (λ later. option_map string_bytes later
        ≡ bound_after (rule_of target.now.ask) target.now.bucket most (map string_bytes names.now) (option_map string_bytes bound)) }
{
    if names.len() < most as usize {
        return Ok(bound);
    }
    let Some(last) = names.last() else {
        return Ok(bound);
    };
    if !is_in_range(target, last.as_bytes()) {
        return Ok(bound);
    }
    let bound = lesser_of(alloc, bound, last.as_str())?;
    Ok(Some(bound))
}
