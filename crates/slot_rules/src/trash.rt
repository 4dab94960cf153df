//! The ids of data that is trash: those that no pin names, and those that come and go.

ghost use Rattle.std.specs.Prelude.{◌≡◌, ◌+◌, ◌≤◌, ◌++◌, IfOk, filter, length, not, take, vec_capacity, vec_len};
ghost use Rattle.std.specs.List.{list_any};
ghost use Rattle.slot_data.specs.Rows.{is_id, pin_names};

use fault_base::NoMemory;
use slot_data::{PinRow, is_pinned};
use stamp_id::VersionId;
use std::alloc::Global;

/// Puts data that is gone into the trash. It takes no memory.
pub fn add_gone(trash: &mut Vec<VersionId>, gone: &[VersionId])
    requires { vec_len trash.old + length gone.now ≤ vec_capacity trash.old }
    ensures items { trash.new.items ≡ trash.old.items ++ gone.now }
    ensures len { vec_len trash.new ≡ vec_len trash.old + length gone.now }
    ensures capacity { vec_capacity trash.new ≡ vec_capacity trash.old }
{
    for id in gone {
        trash.push_reserved(*id);
    }
}

/// The first ids that no pin names, so many at most.
pub fn first_free(
    alloc: Global,
    trash: &[VersionId],
    pins: &[PinRow],
    most: u32,
) -> Result<Vec<VersionId>, NoMemory>
    ensures { IfOk result (λ ids. ids.items ≡ take most (filter (λ id. not (list_any (pin_names id) pins.now)) trash.now)) }
{
    let free = trash.iter().copied().filter(|id| !is_pinned(pins, *id));
    Ok(free.take(most as usize).collect(alloc)?)
}

/// Takes these ids out of the trash, and leaves the others in their order. It takes no memory.
pub fn leave_out(trash: &mut Vec<VersionId>, ids: &[VersionId])
    ensures left { trash.new.items ≡ filter (λ id. not (list_any (is_id id) ids.now)) trash.old.items }
    ensures fewer { vec_len trash.new ≤ vec_len trash.old }
    ensures room { vec_capacity trash.new ≡ vec_capacity trash.old }
{
    trash.retain(|id| !is_among(ids, *id));
}

/// Whether an id is one of these. It takes no memory.
fn is_among(ids: &[VersionId], id: VersionId) -> bool
    ensures { result ≡ list_any (is_id id) ids.now }
{
    ids.iter().any(|other| *other == id)
}
