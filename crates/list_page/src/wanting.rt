//! Which keys a page wants.

ghost use Rattle.std.specs.Prelude.{◌≡◌, MatchOption, None, Some};
ghost use Rattle.receipts.specs.Pages.{group_in, is_before, is_begun, is_behind, is_in_last, is_marked, wants};
ghost use Rattle.list_page.specs.Asks.{rule_of};

use crate::grouping::{is_group, row_name};
use crate::page_ask::PageAsk;
use call_types::VersionRow;
use seal_file::Text;

/// Whether a text stands before another, byte by byte.
pub(crate) fn is_before(a: &[u8], b: &[u8]) -> bool
    ensures { result ≡ is_before a.now b.now }
{
    a.cmp(b).is_lt()
}

/// Whether a text stands behind another, where there is one.
fn is_behind(before: &Option<Text>, text: &[u8]) -> bool
    ensures { result ≡ is_behind before.now text.now }
{
    match before {
        None => true,
        Some(before) => is_before(before.as_slice(), text),
    }
}

/// Whether a key is the one of which some versions may be left out.
pub(crate) fn is_begun(ask: &PageAsk, key: &[u8]) -> bool
    ensures { result ≡ is_begun (rule_of ask.now) key.now }
{
    match &ask.key_after {
        None => false,
        Some(marker) => marker.as_slice() == key && ask.id_after.is_some(),
    }
}

/// Whether a key is in the group whose name the `key-marker` of a listing of versions is.
fn is_marked(ask: &PageAsk, key: &[u8]) -> bool
    ensures { result ≡ is_marked (rule_of ask.now) key.now }
{
    match &ask.key_after {
        None => false,
        Some(marker) => ask.versions && is_group(ask, marker.as_slice(), key),
    }
}

/// Whether a key isn't left out.
pub fn wants(ask: &PageAsk, key: &[u8]) -> bool
    ensures { result ≡ wants (rule_of ask.now) key.now }
{
    key.starts_with(ask.prefix.as_slice())
        && (is_behind(&ask.key_after, key) || is_begun(ask, key))
        && is_behind(&ask.name_after, row_name(ask, key))
        && !is_marked(ask, key)
}

/// The group of a row, if it is one of a group.
fn group_in(row: &VersionRow) -> Option<&Text>
    ensures { MatchOption result (group_in row.now ≡ None) (λ group. group_in row.now ≡ Some group.now) }
{
    match row {
        VersionRow::Object { .. } => None,
        VersionRow::Marker { .. } => None,
        VersionRow::Group(group) => Some(group),
    }
}

/// Whether a key is in a group that is the last of the rows.
pub fn is_in_last(ask: &PageAsk, rows: &[VersionRow], key: &[u8]) -> bool
    ensures { result ≡ is_in_last (rule_of ask.now) rows.now key.now }
{
    let Some(last) = rows.last() else {
        return false;
    };
    match group_in(last) {
        None => false,
        Some(group) => is_group(ask, group.as_slice(), key),
    }
}
