//! Calls of drives, each as it was seen: which drive is next, and one call of it.

ghost use Rattle.std.specs.Prelude.{◌≡◌, ◌<◌, ◌≤◌, ◌+◌, ◌*◌, [], ℕ, length, slice_index_or};
ghost use Rattle.call_types.specs.declared.why.Why.TheVariants.{Good};
ghost use Rattle.drive_base.specs.Plan.{data_drives};
ghost use Rattle.drive_base.specs.View.{OnlyRead, view};
ghost use Rattle.field_reader.specs.Spelling.{IsBytes};
ghost use Rattle.body_print.specs.Names.{shard_name};
ghost use Rattle.shard_file.specs.Stripes.{stripe_count};
ghost use Rattle.file_access.specs.Reading.{IdleWithout};
ghost use Rattle.get_read.specs.Calls.{BlockCall, PieceCall, SizeCall, TableCall};
ghost use Rattle.get_read.specs.Causes.{digest_in};
ghost use Rattle.get_read.specs.PassedDrives.{PassesOver};

use call_types::{FileKind, Why, Whys};
use drive_base::{Drive, SetPlan};
use file_access::{FetchFault, piece_into, size_on};
use manifest_file::ManifestPart;
use shard_file::{STRIPE, check_block, layout};
use std::alloc::Global;

/// A block as its drive shows it, and the digest that the drive's table has for it. They are not compared yet.
#[derive(Drop)]
pub struct ShownBlock {
    /// The digest in the table.
    pub stored: [u8; 32],
    /// The bytes of the block.
    pub block: Vec<u8>,
}

/// The first drive from a place on that isn't out, or as many as there are. Those that are passed over lack their format
/// file.
pub fn past_out(set: &SetPlan, from: u8, whys: &mut Whys) -> u8
    requires from { from ≤ set.now.drives }
    requires letters { length whys.old ≡ set.now.drives }
    requires untried { (k : ℕ) → from ≤ k → slice_index_or whys.old k Good ≡ Good }
    ensures { PassesOver set.now from result whys.old whys.new }
{
    let mut next = from;
    while next < set.drives {
        if !set.is_out(next) {
            return next;
        }
        whys.set(next as usize, Why::Lacks(FileKind::Format));
        next += 1;
    }
    next
}

/// The length of a file.
pub fn call_size<D: Drive>(drive: &mut D, kind: FileKind, name: &str) -> Result<u64, Why>
    ensures called { SizeCall kind name.now result (view D.Drive drive.old) (view D.Drive drive.new) }
    ensures read { OnlyRead (view D.Drive drive.old) (view D.Drive drive.new) }
{
    size_on(drive, kind, name)
}

/// So many bytes of a file from the place `at` on. Where there is no memory for them the drive isn't called.
pub fn call_piece<D: Drive>(
    alloc: Global,
    drive: &mut D,
    kind: FileKind,
    name: &str,
    at: u64,
    long: u64,
) -> Result<Vec<u8>, FetchFault>
    ensures called { PieceCall kind name.now at long result (view D.Drive drive.old) (view D.Drive drive.new) }
    ensures idle { IdleWithout result drive.old drive.new }
    ensures read { OnlyRead (view D.Drive drive.old) (view D.Drive drive.new) }
{
    let Ok(mut bytes) = vec![in alloc; 0; long as usize] else {
        return Err(FetchFault::NoMemory);
    };
    let answer = piece_into(drive, kind, name, at, bytes.as_mut_slice());
    byte_law(bytes.as_slice());
    match answer {
        Ok(()) => Ok(bytes),
        Err(why) => Err(FetchFault::Because(why)),
    }
}

/// The digest table of the shard of a part on the drive of this index, if it has the root.
pub fn call_table<D: Drive>(
    alloc: Global,
    set: &SetPlan,
    part: &ManifestPart,
    index: usize,
    name: &str,
    drive: &mut D,
) -> Result<Vec<u8>, FetchFault>
    requires some { 0 < part.now.length }
    requires index { index < length part.now.roots }
    requires name { name.now ≡ shard_name part.now.id }
    ensures called { TableCall (data_drives set.now.drives set.now.parity) part.now (slice_index_or part.now.roots index []) result (view D.Drive drive.old) (view D.Drive drive.new) }
    ensures idle { IdleWithout result drive.old drive.new }
    ensures read { OnlyRead (view D.Drive drive.old) (view D.Drive drive.new) }
{
    let at = layout(set, part.length, 0).digest;
    let long = 32 * part.length.div_ceil(STRIPE);
    match call_piece(alloc, drive, FileKind::Shard, name, at, long) {
        Ok(table) => match check_block(part.roots.as_slice()[index], table.as_slice()) {
            Ok(()) => Ok(table),
            Err(damage) => Err(FetchFault::Because(Why::Damaged(damage))),
        },
        Err(fault) => Err(fault),
    }
}

/// The block of a stripe of a part on a drive, and the digest that the table has for it. They are not compared yet.
pub fn call_block<D: Drive>(
    alloc: Global,
    set: &SetPlan,
    part: &ManifestPart,
    stripe: u64,
    name: &str,
    table: &[u8],
    drive: &mut D,
) -> Result<ShownBlock, FetchFault>
    requires within { stripe < stripe_count part.now.length }
    requires table { length table.now ≡ 32 * stripe_count part.now.length }
    requires name { name.now ≡ shard_name part.now.id }
    ensures called { BlockCall (data_drives set.now.drives set.now.parity) part.now stripe table.now result (view D.Drive drive.old) (view D.Drive drive.new) }
    ensures idle { IdleWithout result drive.old drive.new }
    ensures read { OnlyRead (view D.Drive drive.old) (view D.Drive drive.new) }
{
    let place = layout(set, part.length, stripe);
    let stored = digest_of(table, stripe);
    let (at, long) = (place.block, place.length);
    match call_piece(alloc, drive, FileKind::Shard, name, at, long) {
        Ok(block) => Ok(ShownBlock { stored, block }),
        Err(fault) => Err(fault),
    }
}

/// The digest that a table has for a stripe.
fn digest_of(table: &[u8], stripe: u64) -> [u8; 32]
    requires { 32 * stripe + 32 ≤ length table.now }
    ensures { result ≡ digest_in table.now stripe }
{
    let at = 32 * stripe as usize;
    let mut stored = [0; 32];
    stored.copy_from_slice(&table[at..at + 32]);
    stored
}

/// What the type of a slice says of its items: each is a byte. It does nothing.
fn byte_law(bytes: &[u8])
    ensures { IsBytes bytes.now }
{}
