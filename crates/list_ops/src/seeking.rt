//! Which key a listing looks at next, among the names that were found and behind them.

ghost use Rattle.std.specs.Prelude.{◌≡◌, ◌+◌, ◌≤◌, false, IfOk, MatchOption, option_map, string_bytes};
ghost use Rattle.receipts.specs.Pages.{is_behind};
ghost use Rattle.list_page.specs.Asks.{rule_of};
ghost use Rattle.list_ops.specs.Seeking.{EndsAt, FindsNext, IsWanted};
ghost use Rattle.list_ops.specs.Sheets.{EndsRound, IsPassed, Sorts, Sought, is_within, page_left, sheet_of};

use crate::gathering::{is_before, key_behind, slot_of};
use crate::page_state::{PageState, Wanted, Work};
use crate::target::Target;
use call_types::{Cut, Key};
use fault_base::NoMemory;
use list_page::{is_in_last, page_of};
use seal_file::Text;
use std::alloc::Global;

/// How many names are asked of a slot at most.
pub(crate) const MOST_NAMES: u32 = 1000;

/// Puts the names that were found in their order.
pub(crate) fn sort_found(work: &mut Work)
    ensures sorts { Sorts (sheet_of work.old) (sheet_of work.new) }
    ensures left { work.new.sections_left ≡ work.old.sections_left }
{
    work.found[work.at..].sort_unstable();
}

/// Whether a name stands behind another, where there is one.
fn is_behind(before: &Option<String>, name: &str) -> bool
    ensures { result ≡ is_behind (option_map string_bytes before.now) name.now }
{
    match before {
        None => true,
        Some(before) => is_before(before.as_str(), name),
    }
}

/// Whether a name isn't behind a bound, where there is one.
fn is_within(bound: &Option<String>, name: &str) -> bool
    ensures { result ≡ is_within (option_map string_bytes bound.now) name.now }
{
    match bound {
        None => true,
        Some(bound) => !is_before(bound.as_str(), name),
    }
}

/// The key that is looked at for a name, if it isn't passed over.
fn wanted_at(
    alloc: Global,
    target: &Target,
    work: &Work,
    name: &str,
) -> Result<Option<Wanted>, NoMemory>
    ensures { IfOk result (λ found. MatchOption found (IsPassed (rule_of target.now.ask) target.now.bucket (sheet_of work.now) name.now)
        (IsWanted (rule_of target.now.ask) target.now.bucket (sheet_of work.now) name.now)) }
{
    let Some(key) = key_behind(target, name.as_bytes()) else {
        return Ok(None);
    };
    if !is_behind(&work.last, name) || is_in_last(&target.ask, work.rows.as_slice(), key) {
        return Ok(None);
    }
    let slot = slot_of(target, key);
    let bucket = Text::from_slice(alloc, target.bucket.as_slice())?;
    let key = Text::from_slice(alloc, key)?;
    let name = String::from_str(alloc, name)?;
    let at = Key { bucket, key };
    Ok(Some(Wanted { name, at, slot }))
}

/// The key that is looked at next and the place behind its name, if one is left in this round.
fn find_wanted(
    alloc: Global,
    target: &Target,
    work: &Work,
) -> Result<Option<(usize, Wanted)>, NoMemory>
    ensures { IfOk result (λ found. MatchOption found (EndsRound (rule_of target.now.ask) target.now.bucket (sheet_of work.now))
        (FindsNext (rule_of target.now.ask) target.now.bucket work.now)) }
{
    for place in work.at..work.found.len() {
        let name = work.found[place].as_str();
        if !is_within(&work.bound, name) {
            return Ok(None);
        }
        if let Some(wanted) = wanted_at(alloc, target, work, name)? {
            return Ok(Some((place + 1, wanted)));
        }
    }
    Ok(None)
}

/// What comes next where the names of a round are done with: the next round, from behind its bound on, or the page.
fn end_round(alloc: Global, target: &Target, mut work: Work) -> PageState
    ensures ends { EndsAt (rule_of target.now.ask) (sheet_of work) result }
    ensures left { page_left result ≤ work.sections_left + 2 }
{
    let Some(mut from) = work.bound.take() else {
        return match page_of(alloc, &target.ask, work.rows) {
            Ok(reply) => PageState::Telling(reply),
            Err(_) => PageState::Over(Some(Cut::NoMemory)),
        };
    };
    let Ok(()) = from.push('\0') else {
        return PageState::Over(Some(Cut::NoMemory));
    };
    work.from = from;
    work.most = if work.most < MOST_NAMES / 2 {
        2 * work.most
    } else {
        MOST_NAMES
    };
    work.slot = 0;
    work.at = 0;
    work.found.clear();
    PageState::Asking(work)
}

/// What comes next behind the names that are done with.
pub(crate) fn seek(alloc: Global, target: &Target, mut work: Work) -> PageState
    ensures sought { Sought (rule_of target.now.ask) target.now.bucket (sheet_of work) result }
    ensures left { page_left result ≤ work.sections_left + 2 }
{
    match find_wanted(alloc, target, &work) {
        Ok(Some((at, wanted))) => {
            let Ok(name) = String::from_str(alloc, wanted.name.as_str()) else {
                return PageState::Over(Some(Cut::NoMemory));
            };
            work.at = at;
            work.last = Some(name);
            PageState::Viewing(work, wanted)
        }
        Ok(None) => end_round(alloc, target, work),
        Err(_) => PageState::Over(Some(Cut::NoMemory)),
    }
}
