//! What a listing does after each of its sections.

ghost use Rattle.std.specs.Prelude.{◌≡◌, ◌⊎◌, ◌+◌, ◌<◌, ◌≤◌, IfOk, IsUtf8, Ok, Some};
ghost use Rattle.call_types.specs.declared.feed.Cut.TheVariants as cut;
ghost use Rattle.list_page.specs.Asks.{rule_of};
ghost use Rattle.list_page.specs.Starting.{first_key};
ghost use Rattle.list_ops.specs.declared.page_state.PageState.TheVariants as state;
ghost use Rattle.list_ops.specs.Sheets.{AfterLook, AfterNames, AfterView, AsksOn, Begins, GoesOn, Refuses, barred_page, first_sheet, page_left, sheet_of};

use crate::gathering::{bound_behind, keep_found};
use crate::page_state::{PageState, Wanted, Work};
use crate::seeking::{seek, sort_found};
use crate::target::Target;
use call_types::{Cut, Refusal, Reply};
use fault_base::NoMemory;
use list_page::{add_candidate, first_key, page_of};
use op_steps::{Looked, section_refusal};
use receipts::Barred;
use seal_file::Bytes;
use slot_core::{Names, SlotFault};
use std::alloc::Global;
use version_list::read;

/// How many names are asked of a slot in the first round.
const FIRST_NAMES: u32 = 48;

/// How far a listing is whose section can't be done.
pub(crate) fn barred_page(why: Barred) -> PageState
    ensures { result ≡ barred_page why }
{
    match why {
        Barred::Spent => PageState::Telling(Reply::Refused(Refusal::SeqSpent)),
        Barred::NoMemory => PageState::Over(Some(Cut::NoMemory)),
    }
}

/// How far it is whose section was refused.
fn refused(fault: &SlotFault) -> PageState
    ensures refuses { Refuses fault.now result }
    ensures left { page_left result ≤ 1 }
{
    match section_refusal(fault) {
        Some(why) => PageState::Telling(Reply::Refused(why)),
        None => PageState::Over(Some(Cut::NoMemory)),
    }
}

/// Bytes that are UTF-8, as text.
fn text_of(bytes: &[u8]) -> &str
    requires { IsUtf8 bytes.now }
    ensures { result.now ≡ bytes.now }
{
    let Ok(text) = str::from_utf8(bytes) else {
        unreachable!()
    };
    text
}

/// The work of the first round.
fn first_work(alloc: Global, target: &Target) -> Result<Work, NoMemory>
    ensures { IfOk result (λ work. sheet_of work ≡ first_sheet (rule_of target.now.ask) target.now.bucket) }
{
    let first = first_key(alloc, &target.ask)?;
    let mut from = String::from_str(alloc, target.begin.as_str())?;
    from.push_str(text_of(first.as_slice()))?;
    Ok(Work {
        from,
        most: FIRST_NAMES,
        slot: 0,
        bound: None,
        found: Vec::new(alloc),
        at: 0,
        last: None,
        rows: Vec::new(alloc),
        sections_left: u64::MAX,
    })
}

/// How far it is after the look that found its bucket.
fn begin(alloc: Global, target: &Target) -> PageState
    ensures begins { Begins (rule_of target.now.ask) target.now.bucket result }
    ensures left { page_left result ≤ 18446744073709551617 }
{
    if target.ask.most == 0 {
        return match page_of(alloc, &target.ask, Vec::new(alloc)) {
            Ok(reply) => PageState::Telling(reply),
            Err(_) => PageState::Over(Some(Cut::NoMemory)),
        };
    }
    match first_work(alloc, target) {
        Ok(work) => PageState::Asking(work),
        Err(_) => PageState::Over(Some(Cut::NoMemory)),
    }
}

/// How far it is after the look at the bucket.
pub(crate) fn after_look(alloc: Global, target: &Target, looked: Looked) -> PageState
    ensures after { AfterLook (rule_of target.now.ask) target.now.bucket looked result }
    ensures left { page_left result ≤ 18446744073709551617 }
{
    match looked {
        Looked::There(_) => begin(alloc, target),
        Looked::Refused(why) => PageState::Telling(Reply::Refused(why)),
        Looked::LacksMemory => PageState::Over(Some(Cut::NoMemory)),
    }
}

/// What comes next behind a page of names: the next slot, or the looks.
fn ask_on(alloc: Global, target: &Target, mut work: Work) -> PageState
    ensures asks { AsksOn (rule_of target.now.ask) target.now.bucket (sheet_of work) result }
    ensures left { page_left result < work.sections_left + 2 }
{
    if work.sections_left == 0 {
        return PageState::Over(Some(Cut::NoMemory));
    }
    work.sections_left -= 1;
    if work.slot < 63 {
        work.slot += 1;
        return PageState::Asking(work);
    }
    sort_found(&mut work);
    seek(alloc, target, work)
}

/// How far it is after a page of names that was shown.
fn after_page(alloc: Global, target: &Target, mut work: Work, names: Names) -> PageState
    ensures after { AfterNames (rule_of target.now.ask) target.now.bucket (sheet_of work) (Ok names) result }
    ensures left { page_left result < work.sections_left + 2 }
{
    let names = names.into_vec();
    let bound = work.bound.take();
    let Ok(bound) = bound_behind(alloc, target, work.most, names.as_slice(), bound) else {
        return PageState::Over(Some(Cut::NoMemory));
    };
    work.bound = bound;
    let Ok(()) = keep_found(target, work.slot, names, &mut work.found) else {
        return PageState::Over(Some(Cut::NoMemory));
    };
    ask_on(alloc, target, work)
}

/// How far it is after a page of names.
pub(crate) fn after_names(
    alloc: Global,
    target: &Target,
    work: Work,
    answer: Result<Names, SlotFault>,
) -> PageState
    ensures after { AfterNames (rule_of target.now.ask) target.now.bucket (sheet_of work) answer result }
    ensures left { page_left result < work.sections_left + 2 }
{
    match answer {
        Ok(names) => after_page(alloc, target, work, names),
        Err(fault) => refused(&fault),
    }
}

/// How far it is after a look at a key whose rows were added: where there is a row more than the page gives, the page is whole.
fn go_on(alloc: Global, target: &Target, mut work: Work) -> PageState
    ensures goes { GoesOn (rule_of target.now.ask) target.now.bucket (sheet_of work) result ⊎ (result ≡ state.Over (Some cut.NoMemory)) }
    ensures left { page_left result < work.sections_left + 2 }
{
    if work.sections_left == 0 {
        return PageState::Over(Some(Cut::NoMemory));
    }
    work.sections_left -= 1;
    if work.rows.len() <= usize::from(target.ask.most) {
        return seek(alloc, target, work);
    }
    match page_of(alloc, &target.ask, work.rows) {
        Ok(reply) => PageState::Telling(reply),
        Err(_) => PageState::Over(Some(Cut::NoMemory)),
    }
}

/// How far it is after a look at a key that was done.
fn after_content(
    alloc: Global,
    target: &Target,
    mut work: Work,
    wanted: &Wanted,
    content: &Bytes,
) -> PageState
    ensures after { AfterView (rule_of target.now.ask) target.now.bucket wanted.now.at.key (sheet_of work) (Ok content.now) result }
    ensures left { page_left result < work.sections_left + 2 }
{
    let Ok(state) = read(alloc, content.as_slice()) else {
        return PageState::Over(Some(Cut::NoMemory));
    };
    let Ok(()) = add_candidate(alloc, &target.ask, &mut work.rows, &wanted.at.key, &state) else {
        return PageState::Over(Some(Cut::NoMemory));
    };
    drop(state);
    go_on(alloc, target, work)
}

/// How far it is after a look at a key.
pub(crate) fn after_view(
    alloc: Global,
    target: &Target,
    work: Work,
    wanted: &Wanted,
    answer: &Result<Bytes, SlotFault>,
) -> PageState
    ensures after { AfterView (rule_of target.now.ask) target.now.bucket wanted.now.at.key (sheet_of work) answer.now result }
    ensures left { page_left result < work.sections_left + 2 }
{
    match answer {
        Ok(content) => after_content(alloc, target, work, wanted, content),
        Err(fault) => refused(fault),
    }
}
