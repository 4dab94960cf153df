//! The field of a version id, which files of several kinds have: its 16 bytes.

ghost use Rattle.field_reader.specs.Reading.{Takes};
ghost use Rattle.stamp_id.specs.VersionId.{id_bytes};
ghost use Rattle.stamp_id.specs.IdField.{is_id, id_field};
ghost use Rattle.stamp_id.specs.Reads.{ReadsId};

use crate::version::VersionId;
use field_reader::{Fields, Misspelled};

// The id with these bytes, which start at `start`.
fn id_of(bytes: [u8; 16], start: u64) -> Result<VersionId, Misspelled>
    ensures { ReadsId (is_id bytes) bytes start result }
{
    match VersionId::from_bytes(bytes) {
        Ok(id) => Ok(id),
        Err(_) => Err(Misspelled(start)),
    }
}

/// Takes an id. Where fewer than 16 bytes are left, the fault is at the end; where they are those of no id (RFC 9562,
/// section 5.8, with a slot below 64 and a term and a sequence number from 1), it is at the first of them.
#[tactic(auto, unfolding(crate::specs::IdField::id_field))]
pub fn take_id(fields: &mut Fields) -> Result<VersionId, Misspelled>
    ensures { Takes id_bytes result fields.new (id_field fields.old) }
{
    let start = fields.at();
    let bytes = fields.take_bytes()?;
    id_of(bytes, start)
}
