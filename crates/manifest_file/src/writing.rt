//! Putting the fields of a manifest.

ghost use Rattle.std.specs.Prelude.{◌≡◌, ◌++◌, length, map, OnOk};
ghost use Rattle.std.specs.List.{flat_map};
ghost use Rattle.manifest_file.specs.Rows.{part_row};
ghost use Rattle.manifest_file.specs.Spelling.{name_bytes, roots_bytes, part_bytes, spelling};
ghost use Rattle.manifest_file.specs.Canonical.{IsName, IsCanonical};

use crate::manifest::{Manifest, ManifestPart};
use field_reader::{put_bytes, put_u8, put_u16, put_u64};
use seal_file::Text;
use std::alloc::AllocError;

/// Appends the name of a register: its length, and its bytes.
fn put_name(out: &mut Vec<u8>, name: &Text) -> Result<(), AllocError>
    requires { IsName name.now }
    ensures { OnOk result (out.new.items ≡ out.old.items ++ name_bytes name.now) }
{
    put_u16(out, name.len() as u16)?;
    put_bytes(out, name.as_slice())
}

/// Appends roots.
fn put_roots(out: &mut Vec<u8>, roots: &[[u8; 32]]) -> Result<(), AllocError>
    ensures { OnOk result (out.new.items ≡ out.old.items ++ roots_bytes roots.now) }
{
    for root in roots {
        put_bytes(out, root.as_slice())?;
    }
    Ok(())
}

/// Appends a part.
fn put_part(out: &mut Vec<u8>, part: &ManifestPart) -> Result<(), AllocError>
    ensures { OnOk result (out.new.items ≡ out.old.items ++ part_bytes (part_row part.now)) }
{
    put_bytes(out, part.id.bytes().as_slice())?;
    put_u64(out, part.length)?;
    put_roots(out, part.roots.as_slice())
}

/// Appends parts.
fn put_parts(out: &mut Vec<u8>, parts: &[ManifestPart]) -> Result<(), AllocError>
    ensures { OnOk result (out.new.items ≡ out.old.items ++ flat_map part_bytes (map part_row parts.now)) }
{
    for part in parts {
        put_part(out, part)?;
    }
    Ok(())
}

/// The bytes of a manifest with no name and no part.
const HEAD_BYTES: usize = 7;

/// The bytes of a part, but for its roots.
const PART_BYTES: usize = 24;

/// The bytes of a root.
const ROOT_BYTES: usize = 32;

/// The bytes of the spelling of a manifest.
pub(crate) fn spelling_size(manifest: &Manifest) -> usize
    requires { IsCanonical manifest.now }
    ensures { result ≡ length (spelling manifest.now) }
{
    let part = PART_BYTES + ROOT_BYTES * manifest.drives as usize;
    HEAD_BYTES + manifest.name.len() + part * manifest.parts.len()
}

/// Appends the spelling of a manifest.
pub(crate) fn put_manifest(out: &mut Vec<u8>, manifest: &Manifest) -> Result<(), AllocError>
    requires { IsCanonical manifest.now }
    ensures { OnOk result (out.new.items ≡ out.old.items ++ spelling manifest.now) }
{
    put_u8(out, 1)?;
    put_name(out, &manifest.name)?;
    put_u8(out, manifest.drives)?;
    put_u8(out, manifest.parity)?;
    put_u16(out, manifest.parts.len() as u16)?;
    put_parts(out, manifest.parts.as_slice())
}
