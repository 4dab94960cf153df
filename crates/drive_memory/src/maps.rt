//! Changes of a map by the text of its keys.

ghost use Rattle.std.specs.Prelude.{◌≡◌, Some, None, OnOk, OnErr, IfNone};
ghost use Rattle.std.specs.BTreeMap.{get_by_text};
ghost use Rattle.drive_base.specs.Files.{with_name};

use std::alloc::{AllocError, Global};
use std::collections::BTreeMap;

/// Puts a value under a name.
pub(crate) fn put<V: Drop>(
    map: &mut BTreeMap<String, V>,
    alloc: Global,
    name: &str,
    value: V,
) -> Result<(), AllocError>
    ensures ok { OnOk result (get_by_text map.new ≡ with_name (get_by_text map.old) name.now (Some value)) }
    ensures err { OnErr result (get_by_text map.new ≡ get_by_text map.old) }
{
    let key = String::from_str(alloc, name)?;
    map.insert(key, value)?;
    Ok(())
}

/// Takes the value of a name out.
pub(crate) fn take<V: Drop>(map: &mut BTreeMap<String, V>, name: &str) -> Option<V>
    ensures value { result ≡ get_by_text map.old name.now }
    ensures rest { get_by_text map.new ≡ with_name (get_by_text map.old) name.now None }
    ensures absent { IfNone result (get_by_text map.new ≡ get_by_text map.old) }
{
    map.remove(name)
}
