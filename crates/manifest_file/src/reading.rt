//! Taking the fields of a manifest.

ghost use Rattle.std.specs.Prelude.{map};
ghost use Rattle.std.specs.Int.{w16, w64};
ghost use Rattle.field_reader.specs.Format.{number, with_rule};
ghost use Rattle.field_reader.specs.Reading.{Gives, Takes};
ghost use Rattle.manifest_file.specs.Rows.{part_row, row_of};
ghost use Rattle.manifest_file.specs.Layout.{is_count, is_length, name, roots, part, parts, manifest};

use crate::lists::{Parts, Roots};
use crate::manifest::{MOST_PART_BYTES, MOST_PARTS, Manifest, ManifestPart};
use field_reader::{Fields, Misspelled, ReadFault, refuse_unless};
use seal_file::Text;
use sealed_record::take_format;
use stamp_id::take_id;
use std::alloc::Global;

/// Takes the name of the register: its length, and its bytes.
#[tactic(auto, unfolding(sealed_record::specs::Fields::counted))]
fn take_name(alloc: Global, fields: &mut Fields) -> Result<Text, ReadFault>
    ensures { Gives (λ name. name) result fields.new (name fields.old) }
{
    let size = fields.take_u16()?;
    let bytes = fields.take_slice(size as usize)?;
    Ok(Text::from_vec(Vec::from_slice(alloc, bytes)?))
}

/// Takes the number of parts.
fn take_count(fields: &mut Fields) -> Result<u16, Misspelled>
    ensures { Takes (λ count. count) result fields.new (with_rule is_count (number w16) fields.old) }
{
    let start = fields.at();
    let count = fields.take_u16()?;
    refuse_unless(count > 0 && count as usize <= MOST_PARTS, start)?;
    Ok(count)
}

/// Takes the length of a part.
fn take_length(fields: &mut Fields) -> Result<u64, Misspelled>
    ensures { Takes (λ length. length) result fields.new (with_rule is_length (number w64) fields.old) }
{
    let start = fields.at();
    let length = fields.take_u64()?;
    refuse_unless(length <= MOST_PART_BYTES, start)?;
    Ok(length)
}

/// Takes a root for each drive.
fn take_roots(alloc: Global, fields: &mut Fields, drives: u8) -> Result<Vec<[u8; 32]>, ReadFault>
    ensures { Gives (λ rs. rs.items) result fields.new (roots drives fields.old) }
{
    let mut roots = Vec::new(alloc);
    for _ in 0..drives {
        let root = fields.take_bytes()?;
        roots.push(root)?;
    }
    Ok(roots)
}

/// Takes a part.
#[tactic(auto, unfolding(crate::specs::Layout::part))]
fn take_part(alloc: Global, fields: &mut Fields, drives: u8) -> Result<ManifestPart, ReadFault>
    ensures { Gives part_row result fields.new (part drives fields.old) }
{
    let id = take_id(fields)?;
    let length = take_length(fields)?;
    let roots = take_roots(alloc, fields, drives)?;
    Ok(ManifestPart {
        id,
        length,
        roots: Roots::from_vec(roots),
    })
}

/// Takes so many parts.
fn take_parts(
    alloc: Global,
    fields: &mut Fields,
    drives: u8,
    count: u16,
) -> Result<Vec<ManifestPart>, ReadFault>
    ensures { Gives (λ ps. map part_row ps.items) result fields.new (parts drives count fields.old) }
{
    let mut parts = Vec::new(alloc);
    for _ in 0..count {
        let part = take_part(alloc, fields, drives)?;
        parts.push(part)?;
    }
    Ok(parts)
}

/// Takes a manifest.
#[tactic(auto, unfolding(crate::specs::Layout::manifest))]
pub(crate) fn take_manifest(alloc: Global, fields: &mut Fields) -> Result<Manifest, ReadFault>
    ensures { Gives row_of result fields.new (manifest fields.old) }
{
    take_format(fields)?;
    let name = take_name(alloc, fields)?;
    let drives = fields.take_u8()?;
    let parity = fields.take_u8()?;
    let count = take_count(fields)?;
    let parts = take_parts(alloc, fields, drives, count)?;
    Ok(Manifest {
        name,
        drives,
        parity,
        parts: Parts::from_vec(parts),
    })
}
