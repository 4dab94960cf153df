//! Elements of a document.

ghost use Rattle.std.specs.Prelude.{◌≡◌, ◌++◌, [], codes, decimal, OnOk};
ghost use Rattle.hex.specs.Hex.{encode_lower};
ghost use Rattle.s3_reply.specs.Dates.{timestamp};
ghost use Rattle.s3_reply.specs.Documents.{listed_name};
ghost use Rattle.s3_reply.specs.Escaping.{escaped};
ghost use Rattle.header_values.specs.EntityTags.{part_count};
ghost use Rattle.s3_reply.specs.Words.{quoted_tag, name_text, truth_text};
ghost use Rattle.s3_reply.specs.Xml.{printed, leaf, open_tag, close_tag};

use crate::bits::{hyphenated, push_bytes, tag_digits};
use crate::dates::timestamp;
use crate::escaping::{push_listed, push_text};
use call_types::{Etag, VersionName};
use fault_base::NoMemory;
use itoa::Buffer;

/// Appends the start tag of an element without attributes.
pub(crate) fn push_open(out: &mut Vec<u8>, name: &[u8]) -> Result<(), NoMemory>
    ensures { OnOk result (out.new.items ≡ out.old.items ++ open_tag name.now []) }
{
    push_bytes(out, b"<")?;
    push_bytes(out, name)?;
    push_bytes(out, b">")?;
    Ok(())
}

/// Appends the end tag of an element.
pub(crate) fn push_close(out: &mut Vec<u8>, name: &[u8]) -> Result<(), NoMemory>
    ensures { OnOk result (out.new.items ≡ out.old.items ++ close_tag name.now) }
{
    push_bytes(out, b"</")?;
    push_bytes(out, name)?;
    push_bytes(out, b">")?;
    Ok(())
}

/// Appends an element that holds a text.
pub(crate) fn push_leaf(out: &mut Vec<u8>, name: &[u8], text: &[u8]) -> Result<(), NoMemory>
    ensures { OnOk result (out.new.items ≡ out.old.items ++ printed (leaf name.now text.now)) }
{
    push_open(out, name)?;
    push_text(out, text)?;
    push_close(out, name)?;
    Ok(())
}

/// Appends an element that holds a name of a listing.
pub(crate) fn push_listed_leaf(
    out: &mut Vec<u8>,
    name: &[u8],
    encoded: bool,
    text: &[u8],
) -> Result<(), NoMemory>
    ensures { OnOk result (out.new.items ≡ out.old.items ++ printed (leaf name.now (listed_name encoded text.now))) }
{
    push_open(out, name)?;
    push_listed(out, encoded, text)?;
    push_close(out, name)?;
    Ok(())
}

/// Appends an element that holds a number.
pub(crate) fn push_number(out: &mut Vec<u8>, name: &[u8], number: u64) -> Result<(), NoMemory>
    ensures { OnOk result (out.new.items ≡ out.old.items ++ printed (leaf name.now (decimal number))) }
{
    push_open(out, name)?;
    push_decimal(out, number)?;
    push_close(out, name)?;
    Ok(())
}

/// Appends an element that holds `true` or `false`.
pub(crate) fn push_truth(out: &mut Vec<u8>, name: &[u8], truth: bool) -> Result<(), NoMemory>
    ensures { OnOk result (out.new.items ≡ out.old.items ++ printed (leaf name.now (truth_text truth))) }
{
    if truth {
        push_leaf(out, name, b"true")
    } else {
        push_leaf(out, name, b"false")
    }
}

/// Appends an element that holds a moment, in Unix seconds.
pub(crate) fn push_moment(out: &mut Vec<u8>, name: &[u8], second: u64) -> Result<(), NoMemory>
    ensures { OnOk result (out.new.items ≡ out.old.items ++ printed (leaf name.now (timestamp second))) }
{
    push_leaf(out, name, &timestamp(second))
}

/// Appends an element that holds the name of a version.
pub(crate) fn push_name_leaf(
    out: &mut Vec<u8>,
    name: &[u8],
    id: VersionName,
) -> Result<(), NoMemory>
    ensures { OnOk result (out.new.items ≡ out.old.items ++ printed (leaf name.now (name_text id))) }
{
    match id {
        VersionName::Null => push_leaf(out, name, b"null"),
        VersionName::Id(id) => {
            let mut buffer = [0; 36];
            push_leaf(out, name, hyphenated(&id, &mut buffer))
        }
    }
}

/// Appends an element that holds an entity tag.
pub(crate) fn push_tag_leaf(out: &mut Vec<u8>, etag: Etag) -> Result<(), NoMemory>
    ensures { OnOk result (out.new.items ≡ out.old.items ++ printed (leaf (codes "ETag") (quoted_tag etag))) }
{
    push_open(out, b"ETag")?;
    push_text(out, b"\"")?;
    push_md5(out, etag.md5)?;
    push_part_count(out, etag.parts)?;
    push_text(out, b"\"")?;
    push_close(out, b"ETag")?;
    Ok(())
}

/// Appends a hyphen and the number of parts, where there are parts.
fn push_part_count(out: &mut Vec<u8>, parts: u16) -> Result<(), NoMemory>
    ensures { OnOk result (out.new.items ≡ out.old.items ++ escaped (part_count parts)) }
{
    if parts == 0 {
        return Ok(());
    }
    push_text(out, b"-")?;
    push_decimal(out, parts as u64)?;
    Ok(())
}

/// Appends the digits of a number.
pub(crate) fn push_decimal(out: &mut Vec<u8>, number: u64) -> Result<(), NoMemory>
    ensures { OnOk result (out.new.items ≡ out.old.items ++ escaped (decimal number)) }
{
    let mut buffer = Buffer::new();
    push_text(out, buffer.format(number).as_bytes())
}

/// Appends the hex digits of an MD5.
fn push_md5(out: &mut Vec<u8>, md5: [u8; 16]) -> Result<(), NoMemory>
    ensures { OnOk result (out.new.items ≡ out.old.items ++ escaped (encode_lower md5)) }
{
    push_text(out, &tag_digits(&md5))
}
