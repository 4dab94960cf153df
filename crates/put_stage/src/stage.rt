//! A stage: the names of its files, what it writes, and how far it has come on each drive.

ghost use Rattle.std.specs.Prelude.{◌≡◌, IfOk, ◌*◌, ◌<◌, ◌≤◌, ◌^◌, ℕ, true, false, length, slice_index_or, string_bytes};
ghost use Rattle.body_print.specs.Names.{shard_name, manifest_name, loose_shard_name, loose_manifest_name};
ghost use Rattle.std.specs.Int.{IsBitSet};
ghost use Rattle.call_types.specs.Good.{is_good};
ghost use Rattle.call_types.specs.declared.why.Why.TheVariants.{Good};
ghost use Rattle.manifest_file.specs.Limits.{most_part_bytes};

use crate::dues::Due;
use crate::windows::Window;
use body_print::{loose_name_of_manifest, loose_name_of_shard, name_of_manifest, name_of_shard};
use call_types::Whys;
use drive_base::SetPlan;
use md5::Md5;
use stamp_id::VersionId;
use std::alloc::{AllocError, Global};

/// The names of the files of one id, and the loose names under which they are written.
#[derive(Drop)]
pub struct Names {
    /// The id.
    pub id: VersionId,
    /// The name of the shard file.
    pub shard: String,
    /// The name of the manifest.
    pub manifest: String,
    /// The loose name of the shard file.
    pub loose_shard: String,
    /// The loose name of the manifest.
    pub loose_manifest: String,
    pub ghost shard_is: { string_bytes shard ≡ shard_name id },
    pub ghost manifest_is: { string_bytes manifest ≡ manifest_name id },
    pub ghost loose_shard_is: { string_bytes loose_shard ≡ loose_shard_name id },
    pub ghost loose_manifest_is: { string_bytes loose_manifest ≡ loose_manifest_name id },
}

/// The names of the files of an id.
pub fn names_of(alloc: Global, id: VersionId) -> Result<Names, AllocError>
    ensures { IfOk result (λ names. names.id ≡ id) }
{
    let shard = name_of_shard(alloc, id)?;
    let manifest = name_of_manifest(alloc, id)?;
    let loose_shard = loose_name_of_shard(alloc, id)?;
    let loose_manifest = loose_name_of_manifest(alloc, id)?;
    Ok(Names {
        id,
        shard,
        manifest,
        loose_shard,
        loose_manifest,
    })
}

/// What is made once the body is whole.
#[derive(Drop)]
pub struct Made {
    /// The manifest's file.
    pub manifest: Vec<u8>,
    /// The print of the body.
    pub print: [u8; 32],
    /// Its MD5, or the ETag handed in with a manifest.
    pub etag: [u8; 16],
}

/// What a stage writes on the drives of a set: the body as far as it is taken.
#[derive(Drop)]
pub struct Load {
    /// The set.
    pub set: SetPlan,
    /// The names of the files.
    pub names: Names,
    /// The name of the register that the body is for.
    pub name: String,
    /// Whether a manifest alone is written.
    pub alone: bool,
    /// The length of the body.
    pub long: u64,
    /// How many bytes of it are not yet taken.
    pub left: u64,
    /// The MD5 that was stated.
    pub stated: Option<[u8; 16]>,
    /// The hasher of the bytes so far.
    pub hasher: Md5,
    /// The digest table of each shard so far.
    pub tables: Vec<Vec<u8>>,
    /// The stripes that were taken last, of which the blocks are appended.
    pub window: Window,
    /// What is made once no byte is left.
    pub made: Made,
    pub ghost tables_of_all: { length tables.items ≡ set.drives },
    pub ghost blocks_of_all: { length window.blocks.items ≡ window.size * set.drives },
    pub ghost few: { alone ≡ false → long ≤ most_part_bytes },
    pub ghost none_left: { alone ≡ true → left ≡ 0 },
    pub ghost short_name: { length (string_bytes name) < 2 ^ 16 },
}

/// A body, or a manifest alone, that is being staged over the data drives of a set, by one drive call a step.
#[derive(Drop)]
pub struct Stage {
    /// What is written.
    pub(crate) load: Load,
    /// The next call on each drive.
    pub(crate) dues: [Due; 16],
    /// Whether each drive did all calls so far, and if not, why.
    pub(crate) whys: Whys,
    pub ghost letters: { length whys ≡ load.set.drives },
    pub ghost out_lack: { (k : ℕ) → k < load.set.drives → IsBitSet load.set.out k → is_good (slice_index_or whys k Good) ≡ false },
}

/// What comes next for a stage.
#[derive(Clone, Copy, PartialEq, Eq)]
pub enum StageNext {
    /// The next bytes of the body.
    Fill,
    /// One call of a drive.
    Step,
    /// The answer.
    Finish,
}
