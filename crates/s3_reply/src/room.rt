//! How much room a text is given at once: the greatest length that it may come to, or a little more. No clause says so, and growing would do no harm.

use call_types::{BucketRow, PageRow, Reply, VersionRow};
use desk_base::Call;
use seal_file::Text;

/// Room for a head: its fixed texts, a content type or a name of up to 255 bytes, dates, numbers and tags.
pub(crate) const HEAD_ROOM: usize = 1024;

/// Room for what stands in every document, but for the names.
const FRAME: usize = 1024;

/// Room for a row, but for its name.
const ROW: usize = 384;

/// How many bytes a byte of a text may become.
const GROWTH: usize = 6;

/// Room for the document of a reply.
pub(crate) fn document_room(call: Option<&Call>, path: &[u8], reply: &Reply) -> usize {
    match reply {
        Reply::Buckets(rows) => buckets_room(rows.as_slice()),
        Reply::Mode(_) => FRAME,
        Reply::Page(rows, _) => page_room(rows.as_slice()).saturating_add(asked_room(call)),
        Reply::Versions(rows, _) => versions_room(rows.as_slice()).saturating_add(asked_room(call)),
        Reply::Opened(_) | Reply::Completed { .. } => FRAME.saturating_add(asked_room(call)),
        Reply::Refused(_) => FRAME.saturating_add(path.len().saturating_mul(GROWTH)),
        _ => 0,
    }
}

fn buckets_room(rows: &[BucketRow]) -> usize {
    let mut room = FRAME;
    for row in rows {
        room = with_row(room, row.name.len());
    }
    room
}

fn page_room(rows: &[PageRow]) -> usize {
    let mut room = FRAME;
    for row in rows {
        room = with_row(room, page_name(row).len());
    }
    room
}

fn versions_room(rows: &[VersionRow]) -> usize {
    let mut room = FRAME;
    for row in rows {
        room = with_row(room, version_name(row).len());
    }
    room
}

/// The room and that of a row with a name of so many bytes.
fn with_row(room: usize, name: usize) -> usize {
    room.saturating_add(ROW)
        .saturating_add(name.saturating_mul(GROWTH))
}

/// The name of a row of a page of keys.
fn page_name(row: &PageRow) -> &Text {
    match row {
        PageRow::Object { key, .. } => key,
        PageRow::Group(prefix) => prefix,
    }
}

/// The name of a row of a page of versions.
fn version_name(row: &VersionRow) -> &Text {
    match row {
        VersionRow::Object { key, .. } => key,
        VersionRow::Marker { key, .. } => key,
        VersionRow::Group(prefix) => prefix,
    }
}

/// Room for the names that a call has in its document: a bucket's, a key's, or what a listing asks for.
fn asked_room(call: Option<&Call>) -> usize {
    let bytes = match call {
        Some(Call::List2 { bucket, page }) => bucket
            .len()
            .saturating_add(page.prefix.len())
            .saturating_add(page.delimiter.len())
            .saturating_add(length_of(&page.start_after))
            .saturating_add(length_of(&page.token)),
        Some(Call::ListVersions { bucket, page }) => bucket
            .len()
            .saturating_add(page.prefix.len())
            .saturating_add(page.delimiter.len())
            .saturating_add(length_of(&page.key_marker)),
        Some(Call::Create { at, .. }) => at.bucket.len().saturating_add(at.key.len()),
        Some(Call::Complete { at, .. }) => {
            at.bucket
                .len()
                .saturating_add(at.key.len())
                .saturating_mul(2)
        }
        _ => 0,
    };
    bytes.saturating_mul(GROWTH)
}

/// The length of a text that may be missing.
fn length_of(text: &Option<Text>) -> usize {
    match text {
        None => 0,
        Some(text) => text.len(),
    }
}
