//! What a list of buckets does after each of its sections.

ghost use Rattle.std.specs.Prelude.{◌≡◌, ◌+◌, ◌<◌, ◌≤◌, Ok};
ghost use Rattle.bucket_ops.specs.Seeking.{AfterBucket, AfterNames, Refuses, Sought, barred_list, list_left, sheet_of};

use crate::list_state::{ListState, Wanted, Work};
use crate::rowing::add_row;
use crate::seeking::seek;
use bucket_book::read;
use call_types::{Cut, Refusal, Reply};
use op_steps::section_refusal;
use receipts::Barred;
use seal_file::Bytes;
use slot_core::{Names, SlotFault};
use std::alloc::Global;

/// How far a list is whose section can't be done.
pub(crate) fn barred_list(why: Barred) -> ListState
    ensures { result ≡ barred_list why }
{
    match why {
        Barred::Spent => ListState::Telling(Reply::Refused(Refusal::SeqSpent)),
        Barred::NoMemory => ListState::Over(Some(Cut::NoMemory)),
    }
}

/// How far it is whose section was refused.
fn refused(fault: &SlotFault) -> ListState
    ensures refuses { Refuses fault.now result }
    ensures left { list_left result ≤ 1 }
{
    match section_refusal(fault) {
        Some(why) => ListState::Telling(Reply::Refused(why)),
        None => ListState::Over(Some(Cut::NoMemory)),
    }
}

/// How far it is after a section that was done: it goes on, but where it did as many as it may.
fn go_on(alloc: Global, mut work: Work) -> ListState
    ensures sought { Sought (sheet_of work) result }
    ensures left { list_left result < work.sections_left + 2 }
{
    if work.sections_left == 0 {
        return ListState::Over(Some(Cut::NoMemory));
    }
    work.sections_left -= 1;
    seek(alloc, work)
}

/// How far it is after a page of names.
pub(crate) fn after_names(
    alloc: Global,
    mut work: Work,
    answer: Result<Names, SlotFault>,
) -> ListState
    ensures after { AfterNames (sheet_of work) answer result }
    ensures left { list_left result < work.sections_left + 2 }
{
    match answer {
        Ok(names) => {
            work.names = names.into_vec();
            work.at = 0;
            go_on(alloc, work)
        }
        Err(fault) => refused(&fault),
    }
}

/// How far it is after the look at a bucket that was done.
fn after_content(alloc: Global, mut work: Work, wanted: &Wanted, content: &Bytes) -> ListState
    ensures after { AfterBucket wanted.now.bucket (sheet_of work) (Ok content.now) result }
    ensures left { list_left result < work.sections_left + 2 }
{
    let Ok(there) = read(alloc, content.as_slice()) else {
        return ListState::Over(Some(Cut::NoMemory));
    };
    let Ok(()) = add_row(alloc, &mut work.rows, &wanted.bucket, &there) else {
        return ListState::Over(Some(Cut::NoMemory));
    };
    go_on(alloc, work)
}

/// How far it is after the look at a bucket.
pub(crate) fn after_look(
    alloc: Global,
    work: Work,
    wanted: &Wanted,
    answer: &Result<Bytes, SlotFault>,
) -> ListState
    ensures after { AfterBucket wanted.now.bucket (sheet_of work) answer.now result }
    ensures left { list_left result < work.sections_left + 2 }
{
    match answer {
        Ok(content) => after_content(alloc, work, wanted, content),
        Err(fault) => refused(fault),
    }
}
