//! The rows of keys.

ghost use Rattle.std.specs.Prelude.{◌≡◌, ◌++◌, IfOk, OnOk, drop, not, position};
ghost use Rattle.receipts.specs.Pages.{all_rows, current_row, left_out, row_of, version_rows, with_candidate};
ghost use Rattle.version_list.specs.Naming.{has_name, is_marker};
ghost use Rattle.list_page.specs.Asks.{rule_of};
ghost use Rattle.list_page.specs.Rows.{has_rows};

use crate::grouping::group_of;
use crate::page_ask::PageAsk;
use crate::wanting::{is_begun, is_in_last, wants};
use call_types::{Etag, Version, VersionName, VersionRow, What};
use fault_base::NoMemory;
use seal_file::Text;
use std::alloc::Global;
use version_list::KeyState;

/// The row of a version of a key, and whether that is its current one.
fn row_of(
    alloc: Global,
    key: &Text,
    latest: bool,
    version: &Version,
) -> Result<VersionRow, NoMemory>
    ensures { IfOk result (λ row. row ≡ row_of key.now latest version.now) }
{
    let key = Text::from_slice(alloc, key.as_slice())?;
    match &version.what {
        What::Marker => Ok(VersionRow::Marker {
            key,
            id: version.id,
            latest,
            modified: version.modified,
        }),
        What::Object {
            length,
            md5,
            parts,
            ..
        } => Ok(VersionRow::Object {
            key,
            id: version.id,
            latest,
            modified: version.modified,
            length: *length,
            etag: Etag {
                md5: *md5,
                parts: *parts,
            },
        }),
    }
}

/// The place of the version of a name.
fn place_of(versions: &[Version], name: VersionName) -> Option<usize>
    ensures { result ≡ position (has_name name) versions.now }
{
    versions.iter().position(|version| version.id == name)
}

/// How many versions of a key are left out.
fn left_out(ask: &PageAsk, key: &Text, state: &KeyState) -> usize
    ensures { result ≡ left_out (rule_of ask.now) (record { key = key.now; state = state.now }) }
{
    if !is_begun(ask, key.as_slice()) {
        return 0;
    }
    let Some(name) = ask.id_after else {
        return 0;
    };
    match place_of(state.versions.as_slice(), name) {
        None => 0,
        Some(place) => place + 1,
    }
}

/// Whether a version is an object.
fn is_object(version: &Version) -> bool
    ensures { result ≡ not (is_marker version.now.what) }
{
    match version.what {
        What::Marker => false,
        What::Object { .. } => true,
    }
}

/// Whether a key has rows.
fn has_rows(ask: &PageAsk, key: &Text, state: &KeyState) -> bool
    ensures { result ≡ has_rows (rule_of ask.now) (record { key = key.now; state = state.now }) }
{
    if ask.versions {
        return left_out(ask, key, state) < state.versions.len();
    }
    match state.versions.as_slice() {
        [] => false,
        [first, ..] => is_object(first),
    }
}

/// Adds the rows of the versions of a key, but for the first ones.
fn add_all(
    alloc: Global,
    rows: &mut Vec<VersionRow>,
    key: &Text,
    versions: &[Version],
    left_out: usize,
) -> Result<(), NoMemory>
    ensures { OnOk result (rows.new.items ≡ rows.old.items ++ drop left_out (all_rows key.now versions.now)) }
{
    for place in left_out..versions.len() {
        let row = row_of(alloc, key, place == 0, &versions[place])?;
        rows.push(row)?;
    }
    Ok(())
}

/// Adds the row of the current version of a key, if that is an object.
fn add_current(
    alloc: Global,
    rows: &mut Vec<VersionRow>,
    key: &Text,
    versions: &[Version],
) -> Result<(), NoMemory>
    ensures { OnOk result (rows.new.items ≡ rows.old.items ++ current_row key.now versions.now) }
{
    let [first, ..] = versions else {
        return Ok(());
    };
    if !is_object(first) {
        return Ok(());
    }
    let row = row_of(alloc, key, true, first)?;
    rows.push(row)?;
    Ok(())
}

/// Adds the rows of the versions of a key that are given.
fn add_versions(
    alloc: Global,
    ask: &PageAsk,
    rows: &mut Vec<VersionRow>,
    key: &Text,
    state: &KeyState,
) -> Result<(), NoMemory>
    ensures { OnOk result (rows.new.items ≡ rows.old.items ++ version_rows (rule_of ask.now) (record { key = key.now; state = state.now })) }
{
    let versions = state.versions.as_slice();
    if ask.versions {
        return add_all(alloc, rows, key, versions, left_out(ask, key, state));
    }
    add_current(alloc, rows, key, versions)
}

/// Adds the rows of a key: those of its versions, or the row of its group, if it has some. A key that is left out has none, and a group that is the last row
/// is given once.
pub fn add_candidate(
    alloc: Global,
    ask: &PageAsk,
    rows: &mut Vec<VersionRow>,
    key: &Text,
    state: &KeyState,
) -> Result<(), NoMemory>
    ensures { OnOk result
        (rows.new.items ≡ with_candidate (rule_of ask.now) rows.old.items (record { key = key.now; state = state.now })) }
{
    if !wants(ask, key.as_slice()) || is_in_last(ask, rows.as_slice(), key.as_slice()) {
        return Ok(());
    }
    let Some(group) = group_of(ask, key.as_slice()) else {
        return add_versions(alloc, ask, rows, key, state);
    };
    if !has_rows(ask, key, state) {
        return Ok(());
    }
    let group = Text::from_slice(alloc, group)?;
    rows.push(VersionRow::Group(group))?;
    Ok(())
}
