//! The paths of files: how a name is spelled below a folder.

ghost use Rattle.std.specs.Prelude.{◌≡◌, IfOk, map, string_bytes};
ghost use Rattle.std.specs.Option.{IfSome};
ghost use Rattle.drive_file.specs.Paths.{inner_folders, path_below, path_in, spelled, SpellingsDiffer};

use hex::FromHexError;
use std::alloc::{AllocError, Global};

/// The bytes of a name that stand in one group, of 200 digits.
const GROUP: usize = 100;

/// What ends a group that isn't the last: it is a folder.
const NEXT_GROUP: &str = "_/";

/// What stands after the digits of a group's folder.
const GROUP_END: &str = "_";

/// What stands between a folder and what is in it.
const SLASH: &str = "/";

/// The spelling of a name: its bytes as lower-case hex digits, cut into groups of 200. Each group but the last is a folder,
/// with `_` after its digits, and the last is the file. So no file stands where a folder of another name does.
pub(crate) fn spelling(alloc: Global, name: &str) -> Result<String, AllocError>
    ensures { IfOk result (λ text. string_bytes text ≡ spelled name.now) }
{
    let mut text = String::new(alloc);
    let mut rest = name.as_bytes();
    while rest.len() > GROUP {
        let (group, after) = rest.split_at(GROUP);
        text.push_str(hex::encode(alloc, group)?.as_str())?;
        text.push_str(NEXT_GROUP)?;
        rest = after;
    }
    text.push_str(hex::encode(alloc, rest)?.as_str())?;
    Ok(text)
}

/// The law of spellings, for a caller's proof: two names have two, so no file of a drive stands for two names. It does nothing.
pub fn spelling_laws()
    ensures { SpellingsDiffer }
{}

/// The path of what has this spelling below a folder.
pub(crate) fn below(alloc: Global, folder: &str, spelling: &str) -> Result<String, AllocError>
    ensures { IfOk result (λ path. string_bytes path ≡ path_below folder.now spelling.now) }
{
    let mut path = String::from_str(alloc, folder)?;
    path.push_str(SLASH)?;
    path.push_str(spelling)?;
    Ok(path)
}

/// The path of the file of a name below a folder.
pub(crate) fn path_of(alloc: Global, folder: &str, name: &str) -> Result<String, AllocError>
    ensures { IfOk result (λ path. string_bytes path ≡ path_in folder.now name.now) }
{
    let spelling = spelling(alloc, name)?;
    below(alloc, folder, spelling.as_str())
}

/// The folders between a folder and the file of a name below it, the outermost first.
pub(crate) fn folders_of(alloc: Global, folder: &str, name: &str) -> Result<Vec<String>, AllocError>
    ensures { IfOk result (λ folders. map string_bytes folders.items ≡ inner_folders folder.now name.now) }
{
    let mut folders = Vec::new(alloc);
    let mut text = String::from_str(alloc, folder)?;
    text.push_str(SLASH)?;
    let mut rest = name.as_bytes();
    while rest.len() > GROUP {
        let (group, after) = rest.split_at(GROUP);
        text.push_str(hex::encode(alloc, group)?.as_str())?;
        text.push_str(GROUP_END)?;
        folders.push(String::from_str(alloc, text.as_str())?)?;
        text.push_str(SLASH)?;
        rest = after;
    }
    Ok(folders)
}

/// Whether a folder's name is that of a group, not the last.
pub(crate) fn is_group_folder(name: &str) -> bool {
    match name.strip_suffix('_') {
        Some(digits) => digits.len() == 2 * GROUP && digits.bytes().all(is_digit),
        None => false,
    }
}

/// Whether a byte is a lower-case hex digit.
fn is_digit(byte: u8) -> bool {
    matches!(byte, b'0'..=b'9' | b'a'..=b'f')
}

/// The name that is spelled so, or `None` of what spells no name: other digits or cuts than the spelling has, and
/// bytes that are no UTF-8.
pub(crate) fn name_of(alloc: Global, text: &str) -> Result<Option<String>, AllocError>
    ensures { IfOk result (λ found. IfSome found (λ name. spelled (string_bytes name) ≡ text.now)) }
{
    let mut digits = String::new(alloc);
    for group in text.split(NEXT_GROUP) {
        digits.push_str(group)?;
    }
    let bytes = match hex::decode(alloc, digits.as_str()) {
        Ok(bytes) => bytes,
        Err(FromHexError::OutOfMemory) => return Err(AllocError),
        Err(_) => return Ok(None),
    };
    let Ok(name) = String::from_utf8(bytes) else {
        return Ok(None);
    };
    if name.is_empty() || spelling(alloc, name.as_str())?.as_str() != text {
        return Ok(None);
    }
    Ok(Some(name))
}
