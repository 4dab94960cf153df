//! Bytes, and texts of fixed lengths.

ghost use Rattle.std.specs.Prelude.{◌≡◌, ◌++◌, true, decimal, OnOk};
ghost use Rattle.std.specs.List.{list_all};
ghost use Rattle.hex.specs.Hex.{encode_lower};
ghost use Rattle.s3_reply.specs.Escaping.{is_plain};
ghost use Rattle.header_values.specs.EntityTags.{part_count};
ghost use Rattle.stamp_id.specs.VersionId.{id_text};

use fault_base::NoMemory;
use itoa::Buffer;
use stamp_id::VersionId;
use uuid::Uuid;

/// Appends bytes as they are.
pub(crate) fn push_bytes(out: &mut Vec<u8>, bytes: &[u8]) -> Result<(), NoMemory>
    ensures { OnOk result (out.new.items ≡ out.old.items ++ bytes.now) }
{
    out.extend_from_slice(bytes)?;
    Ok(())
}

/// Appends the digits of a number.
pub(crate) fn push_digits(out: &mut Vec<u8>, number: u64) -> Result<(), NoMemory>
    ensures { OnOk result (out.new.items ≡ out.old.items ++ decimal number) }
{
    let mut buffer = Buffer::new();
    push_bytes(out, buffer.format(number).as_bytes())
}

/// Appends a hyphen and the number of parts, where there are parts.
pub(crate) fn push_parts(out: &mut Vec<u8>, parts: u16) -> Result<(), NoMemory>
    ensures { OnOk result (out.new.items ≡ out.old.items ++ part_count parts) }
{
    if parts == 0 {
        return Ok(());
    }
    push_bytes(out, b"-")?;
    push_digits(out, parts as u64)?;
    Ok(())
}

/// The hex digits of an MD5.
pub(crate) fn tag_digits(md5: &[u8; 16]) -> [u8; 32]
    ensures text { result ≡ encode_lower md5.now }
    ensures plain { list_all is_plain result ≡ true }
{
    let mut digits = [0; 32];
    hex::encode_to_slice(*md5, &mut digits).unwrap();
    digits
}

/// The text of a version's id, written in `place`.
#[tactic(auto, unfolding(stamp_id::specs::VersionId::id_text))]
pub(crate) fn hyphenated<'a>(id: &VersionId, place: &'a mut [u8; 36]) -> &'a [u8]
    ensures { result.now ≡ id_text id.now }
{
    let uuid = Uuid::from_bytes(id.bytes());
    uuid.hyphenated().encode_lower(place).as_bytes()
}
