//! The documents of replies.

ghost use Rattle.std.specs.Prelude.{◌≡◌, ◌++◌, codes, map, OnOk};
ghost use Rattle.stamp_id.specs.VersionId.{id_text};
ghost use Rattle.s3_reply.specs.Asked.{seen_call};
ghost use Rattle.s3_reply.specs.Documents.{bucket_content, buckets_document, completed_document, completed_of_call, document_of, mode_document, mode_text, opened_document, opened_of_call, page_of_call, root_open, text_of, versions_of_call};
ghost use Rattle.s3_reply.specs.Xml.{declaration, document_text, joined, leaf, optional_leaf, printed};

use crate::bits::{hyphenated, push_bytes};
use crate::escaping::push_text;
use crate::keys::push_page;
use crate::refusals::push_error;
use crate::rows::push_versions;
use crate::xml::{push_close, push_leaf, push_moment, push_open, push_tag_leaf};
use call_types::{BucketRow, Etag, Key, Mode, PageCut, PageRow, Reply, VersionRow};
use desk_base::Call;
use fault_base::NoMemory;
use stamp_id::VersionId;

/// Appends the document of a reply to a call, where it has one.
pub(crate) fn push_document(
    out: &mut Vec<u8>,
    call: Option<&Call>,
    path: &[u8],
    reply: &Reply,
) -> Result<(), NoMemory>
    ensures { OnOk result (out.new.items ≡ out.old.items ++ text_of (document_of (seen_call call.entry) path.now reply.now)) }
{
    match reply {
        Reply::Buckets(rows) => push_buckets(out, rows.as_slice()),
        Reply::Mode(mode) => push_mode(out, *mode),
        Reply::Page(rows, cut) => push_page_of(out, call, rows.as_slice(), cut),
        Reply::Versions(rows, cut) => push_versions_of(out, call, rows.as_slice(), cut),
        Reply::Opened(upload) => push_opened_of(out, call, upload),
        Reply::Completed { etag, .. } => push_completed_of(out, call, *etag),
        Reply::Refused(why) => {
            push_declaration(out)?;
            push_error(out, why, path)
        }
        Reply::Plain | Reply::Stored { .. } | Reply::Found { .. } | Reply::Deleted { .. } => Ok(()),
    }
}

/// Appends what every document begins with.
#[tactic(auto, unfolding(crate::specs::Xml::declaration))]
fn push_declaration(out: &mut Vec<u8>) -> Result<(), NoMemory>
    ensures { OnOk result (out.new.items ≡ out.old.items ++ declaration) }
{
    push_bytes(out, b"<?xml version=\"1.0\" encoding=\"UTF-8\"?>")?;
    Ok(())
}

/// Appends the declaration and the start tag of a root.
pub(crate) fn push_root(out: &mut Vec<u8>, name: &[u8]) -> Result<(), NoMemory>
    ensures { OnOk result (out.new.items ≡ out.old.items ++ root_open name.now) }
{
    push_declaration(out)?;
    push_bytes(out, b"<")?;
    push_bytes(out, name)?;
    push_bytes(out, b" xmlns=\"http://s3.amazonaws.com/doc/2006-03-01/\"")?;
    push_bytes(out, b">")?;
    Ok(())
}

/// Appends the document of ListBuckets.
fn push_buckets(out: &mut Vec<u8>, rows: &[BucketRow]) -> Result<(), NoMemory>
    ensures { OnOk result (out.new.items ≡ out.old.items ++ document_text (buckets_document rows.now)) }
{
    push_root(out, b"ListAllMyBucketsResult")?;
    push_open(out, b"Buckets")?;
    push_bucket_rows(out, rows)?;
    push_close(out, b"Buckets")?;
    push_close(out, b"ListAllMyBucketsResult")?;
    Ok(())
}

/// Appends the elements of buckets.
fn push_bucket_rows(out: &mut Vec<u8>, rows: &[BucketRow]) -> Result<(), NoMemory>
    ensures { OnOk result (out.new.items ≡ out.old.items ++ printed (joined (map bucket_content rows.now))) }
{
    for row in rows {
        push_bucket(out, row)?;
    }
    Ok(())
}

/// Appends the element of a bucket.
fn push_bucket(out: &mut Vec<u8>, row: &BucketRow) -> Result<(), NoMemory>
    ensures { OnOk result (out.new.items ≡ out.old.items ++ printed (bucket_content row.now)) }
{
    push_open(out, b"Bucket")?;
    push_leaf(out, b"Name", row.name.as_slice())?;
    push_moment(out, b"CreationDate", row.created)?;
    push_close(out, b"Bucket")?;
    Ok(())
}

/// Appends the document of GetBucketVersioning.
fn push_mode(out: &mut Vec<u8>, mode: Mode) -> Result<(), NoMemory>
    ensures { OnOk result (out.new.items ≡ out.old.items ++ document_text (mode_document mode)) }
{
    push_root(out, b"VersioningConfiguration")?;
    push_mode_status(out, mode)?;
    push_close(out, b"VersioningConfiguration")?;
    Ok(())
}

/// Appends the element of a mode's status, where it has one.
#[tactic(auto, unfolding(crate::specs::Xml::optional_leaf))]
fn push_mode_status(out: &mut Vec<u8>, mode: Mode) -> Result<(), NoMemory>
    ensures { OnOk result (out.new.items ≡ out.old.items ++ printed (optional_leaf (codes "Status") (mode_text mode))) }
{
    match mode {
        Mode::Never => Ok(()),
        Mode::Enabled => push_leaf(out, b"Status", b"Enabled"),
        Mode::Suspended => push_leaf(out, b"Status", b"Suspended"),
    }
}

/// Appends the document of a page of keys to the call that asked for it.
fn push_page_of(
    out: &mut Vec<u8>,
    call: Option<&Call>,
    rows: &[PageRow],
    cut: &PageCut,
) -> Result<(), NoMemory>
    ensures { OnOk result (out.new.items ≡ out.old.items ++ text_of (page_of_call (seen_call call.entry) rows.now cut.now)) }
{
    match call {
        Some(Call::List2 { bucket, page }) => push_page(out, bucket.as_slice(), page, rows, cut),
        _ => Ok(()),
    }
}

/// Appends the document of a page of versions to the call that asked for it.
fn push_versions_of(
    out: &mut Vec<u8>,
    call: Option<&Call>,
    rows: &[VersionRow],
    cut: &PageCut,
) -> Result<(), NoMemory>
    ensures { OnOk result (out.new.items ≡ out.old.items ++ text_of (versions_of_call (seen_call call.entry) rows.now cut.now)) }
{
    match call {
        Some(Call::ListVersions { bucket, page }) => {
            push_versions(out, bucket.as_slice(), page, rows, cut)
        }
        _ => Ok(()),
    }
}

/// Appends the document of an opened upload to the call that opened it.
fn push_opened_of(
    out: &mut Vec<u8>,
    call: Option<&Call>,
    upload: &VersionId,
) -> Result<(), NoMemory>
    ensures { OnOk result (out.new.items ≡ out.old.items ++ text_of (opened_of_call (seen_call call.entry) (id_text upload.now))) }
{
    match call {
        Some(Call::Create { at, .. }) => push_opened(out, at, upload),
        _ => Ok(()),
    }
}

/// Appends the document of an opened upload.
fn push_opened(out: &mut Vec<u8>, at: &Key, upload: &VersionId) -> Result<(), NoMemory>
    ensures { OnOk result (out.new.items ≡ out.old.items ++ document_text (opened_document at.now (id_text upload.now))) }
{
    let mut buffer = [0; 36];
    push_root(out, b"InitiateMultipartUploadResult")?;
    push_leaf(out, b"Bucket", at.bucket.as_slice())?;
    push_leaf(out, b"Key", at.key.as_slice())?;
    push_leaf(out, b"UploadId", hyphenated(upload, &mut buffer))?;
    push_close(out, b"InitiateMultipartUploadResult")?;
    Ok(())
}

/// Appends the document of a completed upload to the call that completed it.
fn push_completed_of(out: &mut Vec<u8>, call: Option<&Call>, etag: Etag) -> Result<(), NoMemory>
    ensures { OnOk result (out.new.items ≡ out.old.items ++ text_of (completed_of_call (seen_call call.entry) etag)) }
{
    match call {
        Some(Call::Complete { at, .. }) => push_completed(out, at, etag),
        _ => Ok(()),
    }
}

/// Appends the document of a completed upload.
fn push_completed(out: &mut Vec<u8>, at: &Key, etag: Etag) -> Result<(), NoMemory>
    ensures { OnOk result (out.new.items ≡ out.old.items ++ document_text (completed_document at.now etag)) }
{
    push_root(out, b"CompleteMultipartUploadResult")?;
    push_place(out, at)?;
    push_leaf(out, b"Bucket", at.bucket.as_slice())?;
    push_leaf(out, b"Key", at.key.as_slice())?;
    push_tag_leaf(out, etag)?;
    push_close(out, b"CompleteMultipartUploadResult")?;
    Ok(())
}

/// Appends the element of an object's path.
fn push_place(out: &mut Vec<u8>, at: &Key) -> Result<(), NoMemory>
    ensures { OnOk result (out.new.items ≡ out.old.items
        ++ printed (leaf (codes "Location") (codes "/" ++ at.now.bucket ++ codes "/" ++ at.now.key))) }
{
    push_open(out, b"Location")?;
    push_text(out, b"/")?;
    push_text(out, at.bucket.as_slice())?;
    push_text(out, b"/")?;
    push_text(out, at.key.as_slice())?;
    push_close(out, b"Location")?;
    Ok(())
}
