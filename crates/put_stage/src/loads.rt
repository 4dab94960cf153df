//! The load of a stage before its first call: of a body of which nothing is taken, or of a manifest alone.

ghost use Rattle.std.specs.Prelude.{◌≡◌, ◌<◌, ◌≤◌, ◌^◌, ℕ, false, [], IfOk, length, replicate, slice_index_or};
ghost use Rattle.std.specs.Int.{IsBitSet};
ghost use Rattle.manifest_file.specs.Canonical.{IsCanonical};
ghost use Rattle.put_stage.specs.Loads.{BeginsBody, BeginsManifest, HasFirstLetters, IsFirstLoad};
ghost use Rattle.put_stage.specs.StripeBlocks.{all_bytes};
ghost use Rattle.put_stage.specs.StagedBodies.{IsOfManifest};
ghost use Rattle.md5.specs.Md5.{md5};
ghost use Rattle.manifest_file.specs.Limits.{most_part_bytes};

use crate::dues::Due;
use crate::manifests::{conclude, total_size};
use crate::stage::{Load, Made, Stage, names_of};
use crate::windows::Window;
use call_types::{FileKind, Why, Whys};
use drive_base::SetPlan;
use fault_base::NoMemory;
use manifest_file::{Manifest, print_of, write};
use md5::{Digest, Md5};
use stamp_id::VersionId;
use std::alloc::{AllocError, Global};

impl Stage {
    /// A stage of a body of `size` bytes, at most 5,368,709,120, as the data of an id, for the register of this name.
    /// Where an MD5 is stated, the body must have it.
    pub fn new(
        alloc: Global,
        set: SetPlan,
        id: VersionId,
        name: &str,
        size: u64,
        md5: Option<[u8; 16]>,
    ) -> Result<Stage, NoMemory>
        requires few { size ≤ most_part_bytes }
        requires name { length name.now < 2 ^ 16 }
        ensures { IfOk result (λ stage. BeginsBody set id name.now size md5 stage) }
    {
        let load = load_of_body(alloc, set, id, name, size, md5)?;
        Ok(first_stage(load, Due::Table))
    }

    /// A stage of a manifest alone, over parts that are staged already. It takes no feed, and the ETag is answered as it is
    /// handed in. The manifest is canonical and names the set's drives and parity.
    pub fn of_manifest(
        alloc: Global,
        set: SetPlan,
        id: VersionId,
        manifest: Manifest,
        etag: [u8; 16],
    ) -> Result<Stage, NoMemory>
        requires canonical { IsCanonical manifest }
        requires same_drives { manifest.drives ≡ set.drives }
        requires same_parity { manifest.parity ≡ set.parity }
        ensures { IfOk result (λ stage. BeginsManifest set id manifest etag stage) }
    {
        let load = load_of_manifest(alloc, set, id, &manifest, etag)?;
        Ok(first_stage(load, Due::Manifest))
    }
}

/// A stage of which no call is made: on each drive the first one is this.
fn first_stage(load: Load, due: Due) -> Stage
    ensures load { result.load ≡ load }
    ensures dues { result.dues ≡ replicate 16 due }
    ensures letters { HasFirstLetters result }
{
    let whys = first_letters(&load.set);
    Stage {
        load,
        dues: [due; 16],
        whys,
    }
}

/// The letters before the first call.
fn first_letters(set: &SetPlan) -> Whys
    ensures long { length result ≡ set.now.drives }
    ensures out { (k : ℕ) → k < set.now.drives → IsBitSet set.now.out k → slice_index_or result k Why.Good ≡ Why.Lacks FileKind.Format }
    ensures in_use { (k : ℕ) → k < set.now.drives → (IsBitSet set.now.out k → ⊥) → slice_index_or result k Why.Good ≡ Why.Good }
{
    let mut whys = Whys::all_good(set.drives);
    for index in 0..set.drives {
        if set.is_out(index) {
            whys.set(index as usize, Why::Lacks(FileKind::Format));
        }
    }
    whys
}

/// The load of a body of which nothing is taken.
fn load_of_body(
    alloc: Global,
    set: SetPlan,
    id: VersionId,
    name: &str,
    size: u64,
    md5: Option<[u8; 16]>,
) -> Result<Load, NoMemory>
    requires few { size ≤ most_part_bytes }
    requires name { length name.now < 2 ^ 16 }
    ensures { IfOk result (λ load. IsFirstLoad set id name.now size md5 load) }
{
    let mut load = Load {
        set,
        names: names_of(alloc, id)?,
        name: String::from_str(alloc, name)?,
        alone: false,
        long: size,
        left: size,
        stated: md5,
        hasher: Md5::new(),
        tables: empty_tables(alloc, set.drives)?,
        window: Window::none(alloc),
        made: nothing_made(alloc),
    };
    if size > 0 {
        return Ok(load);
    }
    load.made = conclude(alloc, &load, Md5::new().finalize())?;
    Ok(load)
}

/// The load of a manifest alone.
fn load_of_manifest(
    alloc: Global,
    set: SetPlan,
    id: VersionId,
    manifest: &Manifest,
    etag: [u8; 16],
) -> Result<Load, NoMemory>
    requires canonical { IsCanonical manifest.now }
    ensures { IfOk result (λ load. (load.set ≡ set) × IsOfManifest load id manifest.now etag) }
{
    let made = Made {
        manifest: write(alloc, manifest)?,
        print: print_of(manifest),
        etag,
    };
    Ok(Load {
        set,
        names: names_of(alloc, id)?,
        name: String::new(alloc),
        alone: true,
        long: total_size(manifest),
        left: 0,
        stated: None,
        hasher: Md5::new(),
        tables: empty_tables(alloc, set.drives)?,
        window: Window::none(alloc),
        made,
    })
}

/// So many digest tables without a digest.
fn empty_tables(alloc: Global, count: u8) -> Result<Vec<Vec<u8>>, AllocError>
    ensures { IfOk result (λ tables. all_bytes tables.items ≡ replicate count []) }
{
    let mut tables = Vec::with_capacity(alloc, count as usize)?;
    for made in 0..count {
        tables.push(Vec::new(alloc))?;
    }
    Ok(tables)
}

/// What stands for what is made, before the body is whole.
fn nothing_made(alloc: Global) -> Made {
    Made {
        manifest: Vec::new(alloc),
        print: [0; 32],
        etag: [0; 16],
    }
}
