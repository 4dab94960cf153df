//! Ids and names as a content holds them: 16 bytes.

ghost use Rattle.std.specs.Prelude.{◌≡◌, true, false, ◌||◌, IfOk, MatchOption};
ghost use Rattle.std.specs.Bool.{OnTrue};
ghost use Rattle.field_reader.specs.Format.{field, with_rule};
ghost use Rattle.field_reader.specs.Reading.{Gives, Takes};
ghost use Rattle.version_list.specs.Rows.{no_id, name_field, upload_field};
ghost use Rattle.stamp_id.specs.VersionId.{id_bytes};
ghost use Rattle.stamp_id.specs.IdField.{is_id, id_field};
ghost use Rattle.version_list.specs.Layout.{is_no_id, upload_id, is_new, name_rule};
ghost use Rattle.version_list.specs.Known.{is_known, AddsName};

use crate::names::Names;
use call_types::VersionName;
use field_reader::{Fields, Misspelled, ReadFault, refuse_unless};
use stamp_id::{VersionId, take_id};

/// Whether these bytes are zeros.
#[tactic(auto, unfolding(crate::specs::Layout::is_no_id))]
fn are_zeros(bytes: &[u8]) -> bool
    ensures { result ≡ is_no_id bytes.now }
{
    bytes.iter().all(|byte| *byte == 0)
}

/// Whether these are 16 zero bytes, as where there is no id.
fn is_no_id(bytes: &[u8; 16]) -> bool
    ensures value { result ≡ is_no_id bytes.now }
    ensures zeros { OnTrue result (bytes.now ≡ no_id) }
{
    are_zeros(bytes)
}

/// The name with these bytes, if they are those of one.
fn name_of(bytes: [u8; 16]) -> Option<VersionName>
    ensures { MatchOption result ((is_no_id bytes || is_id bytes) ≡ false)
        (λ name. ((is_no_id bytes || is_id bytes) ≡ true) × (bytes ≡ name_field name)) }
{
    if is_no_id(&bytes) {
        return Some(VersionName::Null);
    }
    match VersionId::from_bytes(bytes) {
        Ok(id) => Some(VersionName::Id(id)),
        Err(_) => None,
    }
}

/// Takes 16 zero bytes.
fn take_no_id(fields: &mut Fields) -> Result<(), Misspelled>
    ensures { Takes (λ none. no_id) result fields.new (with_rule is_no_id (field 16) fields.old) }
{
    let start = fields.at();
    let bytes = fields.take_bytes()?;
    refuse_unless(is_no_id(&bytes), start)
}

/// Takes the id of the upload that made an object of so many parts.
pub fn take_upload_id(fields: &mut Fields, parts: u16) -> Result<Option<VersionId>, Misspelled>
    ensures { Takes upload_field result fields.new (upload_id parts fields.old) }
{
    if parts == 0 {
        take_no_id(fields)?;
        return Ok(None);
    }
    Ok(Some(take_id(fields)?))
}

/// Takes the name of a version, which must not be known yet.
pub fn take_name(fields: &mut Fields, names: &mut Names) -> Result<VersionName, ReadFault>
    ensures gives { Gives name_field result fields.new (with_rule (name_rule (is_known names.old)) (field 16) fields.old) }
    ensures known { IfOk result (λ name. AddsName names.old names.new (name_field name)) }
{
    let start = fields.at();
    let bytes = fields.take_bytes()?;
    let Some(name) = name_of(bytes) else {
        return Err(ReadFault::At(start));
    };
    refuse_unless(names.add(bytes)?, start)?;
    Ok(name)
}

/// Takes the id of an upload, which must not be known yet.
pub fn take_new_id(fields: &mut Fields, names: &mut Names) -> Result<VersionId, ReadFault>
    ensures gives { Gives id_bytes result fields.new (with_rule (is_new (is_known names.old)) id_field fields.old) }
    ensures known { IfOk result (λ id. AddsName names.old names.new (id_bytes id)) }
{
    let start = fields.at();
    let id = take_id(fields)?;
    refuse_unless(names.add(id.bytes())?, start)?;
    Ok(id)
}
