//! Ways of several workers to the data drives of a store.

ghost use Rattle.std.specs.Prelude.{◌≡◌, All, IfSome, OnOk, length};
ghost use Rattle.ostore.specs.Sharing.{AreShared, EachShared, IsRowTo, LeadTo};

use drive_base::Drive;
use drive_file::Share;
use fault_base::NoMemory;
use std::alloc::Global;

/// Shares each of these drives in place. Where no memory was found the later ones are as they were.
pub fn share_each<D: Share>(alloc: Global, disks: &mut [D]) -> Result<(), NoMemory>
    ensures each { EachShared D.Drive D.root disks.old disks.new }
    ensures all { OnOk result (AreShared D.Drive disks.new) }
{
    for disk in disks.iter_mut() {
        disk.share(alloc)?;
    }
    Ok(())
}

/// So many rows of ways to these drives. Want of memory is the only cause for none.
pub fn rows_of<D: Share + Drop>(alloc: Global, disks: &[D], count: usize) -> Option<Vec<Vec<D>>>
    ensures count { IfSome result (λ rows. length rows.items ≡ count) }
    ensures rows { IfSome result (λ rows. All (IsRowTo D.Drive D.root disks.now) rows.items) }
{
    let mut rows = Vec::with_capacity(alloc, count).ok()?;
    for _ in 0..count {
        rows.push(row_of(alloc, disks)?).ok()?;
    }
    Some(rows)
}

/// One more way to each of these drives.
fn row_of<D: Share + Drop>(alloc: Global, disks: &[D]) -> Option<Vec<D>>
    ensures { IfSome result (λ row. LeadTo D.Drive D.root disks.now row.items) }
{
    let mut row = Vec::with_capacity(alloc, disks.len()).ok()?;
    for disk in disks {
        row.push(disk.again().ok()?).ok()?;
    }
    Some(row)
}
