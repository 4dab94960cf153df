//! Listings of the keys of a map, for drives that keep their names in one.

ghost use Rattle.std.specs.Prelude.{map, IfOk, string_bytes};
ghost use Rattle.std.specs.BTreeMap.{get_by_text};
ghost use Rattle.drive_base.specs.Names.{IsPage, ListsShown};

use crate::LONGEST_NAME;
use std::alloc::{AllocError, Global};
use std::collections::BTreeMap;

/// The first `most` keys from `from` on, in the order of their bytes, as [`Drive::names`](crate::Drive::names) answers
/// them: keys of more than 1,129 bytes are passed over.
///
/// It reads the keys that it lists and passes over, and none after them. `AllocError` where no memory was found.
pub fn page<V>(
    alloc: Global,
    files: &BTreeMap<String, V>,
    from: &str,
    most: u32,
) -> Result<Vec<String>, AllocError>
    ensures page { IfOk result (λ names. IsPage from.now most LONGEST_NAME (map string_bytes names.items)) }
    ensures shown { IfOk result (λ names. ListsShown (get_by_text files.now) from.now most LONGEST_NAME (map string_bytes names.items)) }
{
    let mut names = Vec::new(alloc);
    let start = String::from_str(alloc, from)?;
    for (name, _) in files.range(start..) {
        if names.len() >= most as usize {
            return Ok(names);
        }
        if name.len() <= LONGEST_NAME {
            names.push(String::from_str(alloc, name.as_str())?)?;
        }
    }
    Ok(names)
}
