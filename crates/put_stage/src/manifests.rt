//! The manifest of a body that is one part, and what is made with it once the body is whole.

ghost use Rattle.std.specs.Prelude.{◌≡◌, IfOk, ◌<◌, false, length, map};
ghost use Rattle.manifest_file.specs.Canonical.{IsCanonical};
ghost use Rattle.put_stage.specs.Manifests.{total_size};
ghost use Rattle.put_stage.specs.Outcomes.{manifest_of};
ghost use Rattle.put_stage.specs.StripeBlocks.{all_bytes};
ghost use Rattle.put_stage.specs.TakenBodies.{MakesOf};
ghost use Rattle.sha2.specs.Sha256.{sha256};

use crate::stage::{Load, Made};
use drive_base::SetPlan;
use fault_base::NoMemory;
use manifest_file::{Manifest, ManifestPart, Parts, Roots, print_of, write};
use seal_file::Text;
use shard_file::root;
use stamp_id::VersionId;
use std::alloc::{AllocError, Global};

/// The manifest of a body that is one part.
fn manifest_of(
    alloc: Global,
    set: &SetPlan,
    id: VersionId,
    name: &str,
    size: u64,
    roots: Vec<[u8; 32]>,
) -> Result<Manifest, NoMemory>
    ensures { IfOk result (λ manifest. manifest ≡ manifest_of set.now id name.now size roots.items) }
{
    let part = ManifestPart {
        id,
        length: size,
        roots: Roots::from_vec(roots),
    };
    let mut parts = Vec::with_capacity(alloc, 1)?;
    parts.push(part)?;
    Ok(Manifest {
        name: Text::from_slice(alloc, name.as_bytes())?,
        drives: set.drives,
        parity: set.parity,
        parts: Parts::from_vec(parts),
    })
}

/// The bytes of all parts of a body.
pub fn total_size(manifest: &Manifest) -> u64
    requires { IsCanonical manifest.now }
    ensures { result ≡ total_size manifest.now }
{
    let mut total = 0;
    for part in manifest.parts.as_slice() {
        total += part.length;
    }
    total
}

/// Makes the manifest and the print of a body that is whole, from its digest tables, and keeps its MD5.
pub fn conclude(alloc: Global, load: &Load, etag: [u8; 16]) -> Result<Made, NoMemory>
    requires { load.now.alone ≡ false }
    ensures { IfOk result (λ made. MakesOf load.now etag made) }
{
    let roots = roots_of(alloc, load.tables.as_slice())?;
    let name = load.name.as_str();
    let manifest = manifest_of(alloc, &load.set, load.names.id, name, load.long, roots)?;
    Ok(Made {
        manifest: write(alloc, &manifest)?,
        print: print_of(&manifest),
        etag,
    })
}

/// The roots of the shards that have these digest tables.
fn roots_of(alloc: Global, tables: &[Vec<u8>]) -> Result<Vec<[u8; 32]>, AllocError>
    ensures { IfOk result (λ roots. roots.items ≡ map sha256 (all_bytes tables.now)) }
{
    let mut roots = Vec::with_capacity(alloc, tables.len())?;
    for table in tables {
        roots.push(root(table.as_slice()))?;
    }
    Ok(roots)
}
