//! The page of all rows.

ghost use Rattle.std.specs.Prelude.{◌≡◌, IfOk, Some};
ghost use Rattle.receipts.specs.Pages.{cut_of, id_of, key_row_of, name_of, next_id_of, page_of};
ghost use Rattle.list_page.specs.Asks.{rule_of};

use crate::page_ask::PageAsk;
use call_types::{Listing, PageCut, PageRow, Reply, VersionName, VersionRow};
use fault_base::NoMemory;
use seal_file::Text;
use std::alloc::Global;

/// The name of a row.
fn name_of(row: &VersionRow) -> &Text
    ensures { result.now ≡ name_of row.now }
{
    match row {
        VersionRow::Object { key, .. } => key,
        VersionRow::Marker { key, .. } => key,
        VersionRow::Group(group) => group,
    }
}

/// The version of a row; a group has none.
fn id_of(row: &VersionRow) -> Option<VersionName>
    ensures { result ≡ id_of row.now }
{
    match row {
        VersionRow::Object { id, .. } => Some(*id),
        VersionRow::Marker { id, .. } => Some(*id),
        VersionRow::Group(_) => None,
    }
}

/// The row of a listing of keys.
fn key_row_of(row: VersionRow) -> PageRow
    ensures { result ≡ key_row_of row }
{
    match row {
        VersionRow::Object {
            key,
            id: _,
            latest: _,
            modified,
            length,
            etag,
        } => PageRow::Object {
            key,
            modified,
            length,
            etag,
        },
        VersionRow::Marker {
            key,
            id: _,
            latest: _,
            modified: _,
        } => PageRow::Group(key),
        VersionRow::Group(group) => PageRow::Group(group),
    }
}

/// The version of the row at which a page ends: a listing of keys tells none.
fn next_id_of(ask: &PageAsk, last: &VersionRow) -> Option<VersionName>
    ensures { result ≡ next_id_of ask.now.versions (Some last.now) }
{
    if ask.versions { id_of(last) } else { None }
}

/// Where a page ends.
fn cut_of(alloc: Global, ask: &PageAsk, rows: &[VersionRow]) -> Result<PageCut, NoMemory>
    ensures { IfOk result (λ cut. cut ≡ cut_of (rule_of ask.now) rows.now) }
{
    let most = usize::from(ask.most);
    if most == 0 || rows.len() <= most {
        return Ok(PageCut {
            truncated: false,
            next: None,
            next_id: None,
        });
    }
    let last = &rows[most - 1];
    let next = Text::from_slice(alloc, name_of(last).as_slice())?;
    Ok(PageCut {
        truncated: true,
        next: Some(next),
        next_id: next_id_of(ask, last),
    })
}

/// The page of these rows: the first ones, and where it ends.
pub fn page_of(alloc: Global, ask: &PageAsk, mut rows: Vec<VersionRow>) -> Result<Reply, NoMemory>
    ensures { IfOk result (λ reply. reply ≡ page_of (rule_of ask.now) rows.items) }
{
    let cut = cut_of(alloc, ask, rows.as_slice())?;
    rows.truncate(usize::from(ask.most));
    if ask.versions {
        return Ok(Reply::Versions(Listing::from_vec(rows), cut));
    }
    let rows = rows.into_iter().map(key_row_of).collect(alloc)?;
    Ok(Reply::Page(Listing::from_vec(rows), cut))
}
