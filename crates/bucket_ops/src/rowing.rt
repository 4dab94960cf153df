//! The rows of a list of buckets.

ghost use Rattle.std.specs.Prelude.{◌≡◌, ◌≢◌, ◌<◌, ◌≤◌, ℕ, IfOk, length, slice_index_or};
ghost use Rattle.bucket_ops.specs.Rows.{AddsRow, IsPlaceOf};

use bucket_book::BucketRecord;
use call_types::BucketRow;
use fault_base::NoMemory;
use seal_file::Text;
use std::alloc::Global;
use std::cmp::Ordering;

/// The place of a name among rows: that of the first row whose name doesn't stand before it.
fn place_of(rows: &[BucketRow], name: &Text) -> usize
    ensures { IsPlaceOf rows.now name.now result }
{
    for place in 0..rows.len() {
        if rows[place].name.as_slice().cmp(name.as_slice()) != Ordering::Less {
            return place;
        }
    }
    rows.len()
}

/// Puts the row of a bucket in its place, where the bucket is there.
pub(crate) fn add_row(
    alloc: Global,
    rows: &mut Vec<BucketRow>,
    bucket: &Text,
    there: &Option<BucketRecord>,
) -> Result<(), NoMemory>
    ensures { IfOk result (λ _. AddsRow bucket.now there.now rows.old.items rows.new.items) }
{
    let Some(there) = there else {
        return Ok(());
    };
    let place = place_of(rows.as_slice(), bucket);
    let name = Text::from_slice(alloc, bucket.as_slice())?;
    let created = there.created;
    rows.insert(place, BucketRow { name, created })?;
    Ok(())
}
