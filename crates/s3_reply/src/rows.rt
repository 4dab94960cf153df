//! The document of a page of versions.

ghost use Rattle.std.specs.Prelude.{◌≡◌, ◌++◌, [], codes, map, option_map, unwrap_or, OnOk};
ghost use Rattle.s3_reply.specs.Documents.{listed_name, listed_marker, listed_version, version_content, version_group_content, version_names, versions_asked, versions_document, versions_end};
ghost use Rattle.s3_reply.specs.Words.{name_text, truth_text};
ghost use Rattle.s3_reply.specs.Xml.{document_text, joined, leaf, optional_leaf, printed};

use crate::documents::push_root;
use crate::keys::{push_delimiter, push_encoding, push_facts, push_group, push_optional};
use crate::xml::{
    push_close, push_leaf, push_listed_leaf, push_moment, push_name_leaf, push_number, push_open,
    push_truth,
};
use call_types::{Etag, PageCut, VersionName, VersionRow};
use desk_base::VersionsAsk;
use fault_base::NoMemory;
use seal_file::Text;

/// Appends the document of a page of versions.
pub(crate) fn push_versions(
    out: &mut Vec<u8>,
    bucket: &[u8],
    page: &VersionsAsk,
    rows: &[VersionRow],
    cut: &PageCut,
) -> Result<(), NoMemory>
    ensures { OnOk result (out.new.items ≡ out.old.items ++ document_text (versions_document bucket.now page.now rows.now cut.now)) }
{
    push_root(out, b"ListVersionsResult")?;
    push_asked(out, bucket, page)?;
    push_end(out, page, cut)?;
    push_rows(out, page.encoded, rows)?;
    push_groups(out, page.encoded, rows)?;
    push_close(out, b"ListVersionsResult")?;
    Ok(())
}

/// Appends what was asked of a page.
fn push_asked(out: &mut Vec<u8>, bucket: &[u8], page: &VersionsAsk) -> Result<(), NoMemory>
    ensures { OnOk result (out.new.items ≡ out.old.items ++ printed (joined (versions_asked bucket.now page.now))) }
{
    push_leaf(out, b"Name", bucket)?;
    push_listed_leaf(out, b"Prefix", page.encoded, page.prefix.as_slice())?;
    push_delimiter(out, page.encoded, page.delimiter.as_slice())?;
    push_key_marker(out, page.encoded, &page.key_marker)?;
    push_id_marker(out, page.id_marker)?;
    Ok(())
}

/// Appends where a page ends.
fn push_end(out: &mut Vec<u8>, page: &VersionsAsk, cut: &PageCut) -> Result<(), NoMemory>
    ensures { OnOk result (out.new.items ≡ out.old.items ++ printed (joined (versions_end page.now cut.now))) }
{
    push_optional(out, b"NextKeyMarker", page.encoded, &cut.next)?;
    push_next_id(out, cut.next_id)?;
    push_number(out, b"MaxKeys", page.most as u64)?;
    push_encoding(out, page.encoded)?;
    push_truth(out, b"IsTruncated", cut.truncated)?;
    Ok(())
}

/// Appends the element of a key's marker, empty where there is none.
fn push_key_marker(out: &mut Vec<u8>, encoded: bool, marker: &Option<Text>) -> Result<(), NoMemory>
    ensures { OnOk result (out.new.items ≡ out.old.items
        ++ printed (leaf (codes "KeyMarker") (listed_name encoded (unwrap_or marker.now [])))) }
{
    match marker {
        None => push_listed_leaf(out, b"KeyMarker", encoded, b""),
        Some(marker) => push_listed_leaf(out, b"KeyMarker", encoded, marker.as_slice()),
    }
}

/// Appends the element of a version's marker, empty where there is none.
fn push_id_marker(out: &mut Vec<u8>, marker: Option<VersionName>) -> Result<(), NoMemory>
    ensures { OnOk result (out.new.items ≡ out.old.items
        ++ printed (leaf (codes "VersionIdMarker") (unwrap_or (option_map name_text marker) []))) }
{
    match marker {
        None => push_leaf(out, b"VersionIdMarker", b""),
        Some(marker) => push_name_leaf(out, b"VersionIdMarker", marker),
    }
}

/// Appends the element of the version at which the next page begins, where there is one.
#[tactic(auto, unfolding(crate::specs::Xml::optional_leaf))]
fn push_next_id(out: &mut Vec<u8>, next: Option<VersionName>) -> Result<(), NoMemory>
    ensures { OnOk result (out.new.items ≡ out.old.items
        ++ printed (optional_leaf (codes "NextVersionIdMarker") (option_map name_text next))) }
{
    match next {
        None => Ok(()),
        Some(next) => push_name_leaf(out, b"NextVersionIdMarker", next),
    }
}

/// Appends the elements of versions and markers.
fn push_rows(out: &mut Vec<u8>, encoded: bool, rows: &[VersionRow]) -> Result<(), NoMemory>
    ensures { OnOk result (out.new.items ≡ out.old.items ++ printed (joined (map (version_content encoded) rows.now))) }
{
    for row in rows {
        push_row(out, encoded, row)?;
    }
    Ok(())
}

/// Appends the element of a row that is a version or a marker.
fn push_row(out: &mut Vec<u8>, encoded: bool, row: &VersionRow) -> Result<(), NoMemory>
    ensures { OnOk result (out.new.items ≡ out.old.items ++ printed (version_content encoded row.now)) }
{
    match row {
        VersionRow::Object {
            key,
            id,
            latest,
            modified,
            length,
            etag,
        } => push_version(out, encoded, key, *id, *latest, *modified, *length, *etag),
        VersionRow::Marker {
            key,
            id,
            latest,
            modified,
        } => push_marker(out, encoded, key, *id, *latest, *modified),
        VersionRow::Group(_) => Ok(()),
    }
}

/// Appends the element of a version.
fn push_version(
    out: &mut Vec<u8>,
    encoded: bool,
    key: &Text,
    id: VersionName,
    latest: bool,
    modified: u64,
    length: u64,
    etag: Etag,
) -> Result<(), NoMemory>
    ensures { OnOk result (out.new.items ≡ out.old.items ++ printed (listed_version encoded key.now id latest modified length etag)) }
{
    push_open(out, b"Version")?;
    push_names(out, encoded, key, id, latest)?;
    push_facts(out, modified, length, etag)?;
    push_close(out, b"Version")?;
    Ok(())
}

/// Appends the element of a delete marker.
fn push_marker(
    out: &mut Vec<u8>,
    encoded: bool,
    key: &Text,
    id: VersionName,
    latest: bool,
    modified: u64,
) -> Result<(), NoMemory>
    ensures { OnOk result (out.new.items ≡ out.old.items ++ printed (listed_marker encoded key.now id latest modified)) }
{
    push_open(out, b"DeleteMarker")?;
    push_names(out, encoded, key, id, latest)?;
    push_moment(out, b"LastModified", modified)?;
    push_close(out, b"DeleteMarker")?;
    Ok(())
}

/// Appends the elements that name a version.
fn push_names(
    out: &mut Vec<u8>,
    encoded: bool,
    key: &Text,
    id: VersionName,
    latest: bool,
) -> Result<(), NoMemory>
    ensures { OnOk result (out.new.items ≡ out.old.items ++ printed (joined (version_names encoded key.now (name_text id) latest []))) }
{
    push_listed_leaf(out, b"Key", encoded, key.as_slice())?;
    push_name_leaf(out, b"VersionId", id)?;
    push_truth(out, b"IsLatest", latest)?;
    Ok(())
}

/// Appends the elements of groups.
fn push_groups(out: &mut Vec<u8>, encoded: bool, rows: &[VersionRow]) -> Result<(), NoMemory>
    ensures { OnOk result (out.new.items ≡ out.old.items ++ printed (joined (map (version_group_content encoded) rows.now))) }
{
    for row in rows {
        push_version_group(out, encoded, row)?;
    }
    Ok(())
}

/// Appends the element of a row that is a group.
fn push_version_group(out: &mut Vec<u8>, encoded: bool, row: &VersionRow) -> Result<(), NoMemory>
    ensures { OnOk result (out.new.items ≡ out.old.items ++ printed (version_group_content encoded row.now)) }
{
    match row {
        VersionRow::Object { .. } | VersionRow::Marker { .. } => Ok(()),
        VersionRow::Group(prefix) => push_group(out, encoded, prefix.as_slice()),
    }
}
