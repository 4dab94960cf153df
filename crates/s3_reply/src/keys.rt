//! The document of a page of keys.

ghost use Rattle.std.specs.Prelude.{◌≡◌, ◌++◌, codes, map, option_map, OnOk};
ghost use Rattle.hex.specs.Hex.{encode_lower};
ghost use Rattle.s3_reply.specs.Documents.{encoding_content, group_content, key_content, key_group_content, listed_name, object_content, object_facts, page_asked, page_document, page_end, unless_empty};
ghost use Rattle.s3_reply.specs.Xml.{document_text, joined, leaf, optional_leaf, printed};

use crate::bits::{push_bytes, push_digits, push_parts, tag_digits};
use crate::dates::timestamp;
use crate::documents::push_root;
use crate::escaping::push_listed;
use crate::xml::{push_close, push_leaf, push_listed_leaf, push_number, push_open, push_truth};
use call_types::{Etag, PageCut, PageRow};
use desk_base::ListAsk;
use fault_base::NoMemory;
use seal_file::Text;

/// Appends the document of a page of keys.
pub(crate) fn push_page(
    out: &mut Vec<u8>,
    bucket: &[u8],
    page: &ListAsk,
    rows: &[PageRow],
    cut: &PageCut,
) -> Result<(), NoMemory>
    ensures { OnOk result (out.new.items ≡ out.old.items ++ document_text (page_document bucket.now page.now rows.now cut.now)) }
{
    push_root(out, b"ListBucketResult")?;
    push_asked(out, bucket, page)?;
    push_end(out, page, rows.len(), cut)?;
    push_keys(out, page.encoded, rows)?;
    push_groups(out, page.encoded, rows)?;
    push_close(out, b"ListBucketResult")?;
    Ok(())
}

/// Appends what was asked of a page.
fn push_asked(out: &mut Vec<u8>, bucket: &[u8], page: &ListAsk) -> Result<(), NoMemory>
    ensures { OnOk result (out.new.items ≡ out.old.items ++ printed (joined (page_asked bucket.now page.now))) }
{
    push_leaf(out, b"Name", bucket)?;
    push_listed_leaf(out, b"Prefix", page.encoded, page.prefix.as_slice())?;
    push_delimiter(out, page.encoded, page.delimiter.as_slice())?;
    push_optional(out, b"StartAfter", page.encoded, &page.start_after)?;
    push_token(out, b"ContinuationToken", &page.token)?;
    Ok(())
}

/// Appends where a page ends, and how many rows it has.
fn push_end(out: &mut Vec<u8>, page: &ListAsk, count: usize, cut: &PageCut) -> Result<(), NoMemory>
    ensures { OnOk result (out.new.items ≡ out.old.items ++ printed (joined (page_end page.now count cut.now))) }
{
    push_token(out, b"NextContinuationToken", &cut.next)?;
    push_number(out, b"KeyCount", count as u64)?;
    push_number(out, b"MaxKeys", page.most as u64)?;
    push_encoding(out, page.encoded)?;
    push_truth(out, b"IsTruncated", cut.truncated)?;
    Ok(())
}

/// Appends the element of a delimiter, where there is one.
#[tactic(auto, unfolding(crate::specs::Xml::optional_leaf))]
pub(crate) fn push_delimiter(
    out: &mut Vec<u8>,
    encoded: bool,
    delimiter: &[u8],
) -> Result<(), NoMemory>
    ensures { OnOk result (out.new.items ≡ out.old.items
        ++ printed (optional_leaf (codes "Delimiter") (option_map (listed_name encoded) (unless_empty delimiter.now)))) }
{
    if delimiter.is_empty() {
        return Ok(());
    }
    push_listed_leaf(out, b"Delimiter", encoded, delimiter)
}

/// Appends an element that holds a name of a listing, where there is one.
#[tactic(auto, unfolding(crate::specs::Xml::optional_leaf))]
pub(crate) fn push_optional(
    out: &mut Vec<u8>,
    name: &[u8],
    encoded: bool,
    text: &Option<Text>,
) -> Result<(), NoMemory>
    ensures { OnOk result (out.new.items ≡ out.old.items
        ++ printed (optional_leaf name.now (option_map (listed_name encoded) text.now))) }
{
    match text {
        None => Ok(()),
        Some(text) => push_listed_leaf(out, name, encoded, text.as_slice()),
    }
}

/// Appends an element that holds a token, where there is one: the hex digits of a name.
#[tactic(auto, unfolding(crate::specs::Xml::optional_leaf))]
fn push_token(out: &mut Vec<u8>, name: &[u8], token: &Option<Text>) -> Result<(), NoMemory>
    ensures { OnOk result (out.new.items ≡ out.old.items ++ printed (optional_leaf name.now (option_map encode_lower token.now))) }
{
    match token {
        None => Ok(()),
        Some(token) => {
            let digits = hex::encode(*out.allocator(), token.as_slice())?;
            push_leaf(out, name, digits.as_bytes())
        }
    }
}

/// Says that names are percent-encoded, where they are.
#[tactic(auto, unfolding(crate::specs::Xml::optional_leaf))]
pub(crate) fn push_encoding(out: &mut Vec<u8>, encoded: bool) -> Result<(), NoMemory>
    ensures { OnOk result (out.new.items ≡ out.old.items ++ printed (encoding_content encoded)) }
{
    if encoded {
        push_leaf(out, b"EncodingType", b"url")?;
    }
    Ok(())
}

/// Appends the elements of keys.
fn push_keys(out: &mut Vec<u8>, encoded: bool, rows: &[PageRow]) -> Result<(), NoMemory>
    ensures { OnOk result (out.new.items ≡ out.old.items ++ printed (joined (map (key_content encoded) rows.now))) }
{
    for row in rows {
        push_key(out, encoded, row)?;
    }
    Ok(())
}

/// Appends the element of a row that is a key.
fn push_key(out: &mut Vec<u8>, encoded: bool, row: &PageRow) -> Result<(), NoMemory>
    ensures { OnOk result (out.new.items ≡ out.old.items ++ printed (key_content encoded row.now)) }
{
    match row {
        PageRow::Object {
            key,
            modified,
            length,
            etag,
        } => push_object(out, encoded, key.as_slice(), *modified, *length, *etag),
        PageRow::Group(_) => Ok(()),
    }
}

/// Appends the element of a key.
fn push_object(
    out: &mut Vec<u8>,
    encoded: bool,
    key: &[u8],
    modified: u64,
    length: u64,
    etag: Etag,
) -> Result<(), NoMemory>
    ensures { OnOk result (out.new.items ≡ out.old.items ++ printed (object_content encoded key.now modified length etag)) }
{
    push_bytes(out, b"<Contents><Key>")?;
    push_listed(out, encoded, key)?;
    push_bytes(out, b"</Key>")?;
    push_facts(out, modified, length, etag)?;
    push_bytes(out, b"</Contents>")?;
    Ok(())
}

/// Appends the elements of what is told of an object.
pub(crate) fn push_facts(
    out: &mut Vec<u8>,
    modified: u64,
    length: u64,
    etag: Etag,
) -> Result<(), NoMemory>
    ensures { OnOk result (out.new.items ≡ out.old.items ++ printed (joined (object_facts modified length etag))) }
{
    push_bytes(out, b"<LastModified>")?;
    push_bytes(out, &timestamp(modified))?;
    push_bytes(out, b"</LastModified><ETag>&quot;")?;
    push_bytes(out, &tag_digits(&etag.md5))?;
    push_parts(out, etag.parts)?;
    push_bytes(out, b"&quot;</ETag><Size>")?;
    push_digits(out, length)?;
    push_bytes(out, b"</Size><StorageClass>STANDARD</StorageClass>")?;
    Ok(())
}

/// Appends the elements of groups.
fn push_groups(out: &mut Vec<u8>, encoded: bool, rows: &[PageRow]) -> Result<(), NoMemory>
    ensures { OnOk result (out.new.items ≡ out.old.items ++ printed (joined (map (key_group_content encoded) rows.now))) }
{
    for row in rows {
        push_key_group(out, encoded, row)?;
    }
    Ok(())
}

/// Appends the element of a row that is a group.
fn push_key_group(out: &mut Vec<u8>, encoded: bool, row: &PageRow) -> Result<(), NoMemory>
    ensures { OnOk result (out.new.items ≡ out.old.items ++ printed (key_group_content encoded row.now)) }
{
    match row {
        PageRow::Object { .. } => Ok(()),
        PageRow::Group(prefix) => push_group(out, encoded, prefix.as_slice()),
    }
}

/// Appends the element of a group.
pub(crate) fn push_group(out: &mut Vec<u8>, encoded: bool, prefix: &[u8]) -> Result<(), NoMemory>
    ensures { OnOk result (out.new.items ≡ out.old.items ++ printed (group_content encoded prefix.now)) }
{
    push_open(out, b"CommonPrefixes")?;
    push_listed_leaf(out, b"Prefix", encoded, prefix)?;
    push_close(out, b"CommonPrefixes")?;
    Ok(())
}
