//! Which bucket a list looks at next, among the names of a page and behind it.

ghost use Rattle.std.specs.Prelude.{◌≡◌, ◌≢◌, ◌+◌, ◌<◌, ◌≤◌, ℕ, List, IfOk, MatchBool, MatchOption, length, map, string_bytes};
ghost use Rattle.bucket_book.specs.Name.{IsBucketName};
ghost use Rattle.slot_history.specs.Names.{bucket_name};
ghost use Rattle.bucket_ops.specs.Seeking.{EndsAt, EndsPage, EndsSlot, Finds, IsNoBucket, IsPassed, IsWanted, Sought, list_left, sheet_of};

use crate::list_state::{ListState, Wanted, Work};
use bucket_book::check_name;
use call_types::{Cut, Listing, Reply};
use fault_base::NoMemory;
use seal_file::Text;
use slot_history::bucket_slot;
use std::alloc::Global;

/// How many names a page has at most.
pub const PAGE_NAMES: u32 = 32;

/// The bytes behind the two with which the name of a bucket's register begins, if a name begins so.
fn behind_begin(name: &[u8]) -> Option<&[u8]>
    ensures { MatchOption result ((bucket : List ℕ) → name.now ≢ bucket_name bucket) (λ bucket. name.now ≡ bucket_name bucket.now) }
{
    match name {
        [b'b', b'/', bucket @ ..] => Some(bucket),
        _ => None,
    }
}

/// The bucket whose register has this name, if one with a lawful name has.
fn bucket_of(name: &[u8]) -> Option<&[u8]>
    ensures { MatchOption result (IsNoBucket name.now) (λ bucket. IsBucketName bucket.now × (name.now ≡ bucket_name bucket.now)) }
{
    let Some(bucket) = behind_begin(name) else {
        return None;
    };
    let Ok(text) = str::from_utf8(bucket) else {
        return None;
    };
    if check_name(text) { Some(bucket) } else { None }
}

/// The bucket of a slot that is looked at for a name of a page from `from` on, if one is.
fn wanted_at(alloc: Global, name: &str, from: &str, slot: u8) -> Result<Option<Wanted>, NoMemory>
    ensures { IfOk result (λ found. MatchOption found (IsPassed slot from.now name.now) (IsWanted slot from.now name.now)) }
{
    if name == from {
        return Ok(None);
    }
    let Some(bytes) = bucket_of(name.as_bytes()) else {
        return Ok(None);
    };
    let bucket = Text::from_slice(alloc, bytes)?;
    if bucket_slot(&bucket) != slot {
        return Ok(None);
    }
    let name = String::from_str(alloc, name)?;
    Ok(Some(Wanted { name, bucket }))
}

/// The first bucket of a slot that is looked at for the names of a page from a place on, and the place behind its name, if there is one.
fn find_wanted(
    alloc: Global,
    names: &[String],
    at: usize,
    from: &str,
    slot: u8,
) -> Result<Option<(usize, Wanted)>, NoMemory>
    ensures { IfOk result (Finds slot from.now names.now at) }
{
    for place in at..names.len() {
        if let Some(wanted) = wanted_at(alloc, names[place].as_str(), from, slot)? {
            return Ok(Some((place + 1, wanted)));
        }
    }
    Ok(None)
}

/// Whether behind a page no name of a bucket's register can stand: it isn't full, or its last name is none that begins so.
fn ends_slot(names: &[String]) -> bool
    ensures { MatchBool result (EndsSlot (map string_bytes names.now)) (0 < length names.now) }
{
    names.len() < PAGE_NAMES as usize || behind_begin(names[names.len() - 1].as_bytes()).is_none()
}

/// What comes next where the names of a slot are done with: the first page of the next slot, or the reply.
fn next_slot(alloc: Global, mut work: Work) -> ListState
    ensures ends { EndsAt (sheet_of work) result }
    ensures left { list_left result ≤ work.sections_left + 2 }
{
    if work.slot == 63 {
        return ListState::Telling(Reply::Buckets(Listing::from_vec(work.rows)));
    }
    let Ok(from) = String::from_str(alloc, "b/") else {
        return ListState::Over(Some(Cut::NoMemory));
    };
    work.slot += 1;
    work.from = from;
    ListState::Paging(work)
}

/// What comes next where the names of a page are done with: the next page of its slot, or what comes behind the slot.
fn next_page(alloc: Global, mut work: Work) -> ListState
    ensures ends { EndsPage (sheet_of work) result }
    ensures left { list_left result ≤ work.sections_left + 2 }
{
    if ends_slot(work.names.as_slice()) {
        return next_slot(alloc, work);
    }
    let Some(last) = work.names.pop() else {
        unreachable!()
    };
    work.from = last;
    ListState::Paging(work)
}

/// What comes next, behind the names of its page that are done with.
pub(crate) fn seek(alloc: Global, mut work: Work) -> ListState
    ensures sought { Sought (sheet_of work) result }
    ensures left { list_left result ≤ work.sections_left + 2 }
{
    let found = find_wanted(
        alloc,
        work.names.as_slice(),
        work.at,
        work.from.as_str(),
        work.slot,
    );
    match found {
        Ok(Some((at, wanted))) => {
            work.at = at;
            ListState::Looking(work, wanted)
        }
        Ok(None) => next_page(alloc, work),
        Err(_) => ListState::Over(Some(Cut::NoMemory)),
    }
}
