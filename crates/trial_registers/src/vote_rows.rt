//! Rows over `vote_core`: verdicts over worked lanes and over all small patterns of lanes, and what becomes of what is pending.

use crate::words::{amount, plan, small};
use drive_base::SetPlan;
use stamp_id::{Ballot, ChangeId};
use std::alloc::Global;
use trial_base::{NoAnswer, first, said, word, yes};
use vote_core::{
    NextRow, Onward, Row, Verdict, calm_laws, decide, fresh_laws, history_laws, judge, live_laws,
    mark_laws, mend_law, number_laws, place_laws, prepare_laws, value_laws, verdict_laws,
};

/// A ballot of term 1 with this sequence number; 0 is the ballot of a lane that keeps no file.
fn ballot(seq: u16) -> Ballot {
    if seq == 0 {
        return Ballot { term: 0, seq: 0 };
    }
    Ballot {
        term: 1,
        seq: u64::from(seq),
    }
}

/// A row of a base alone, from the numbers of its ballot and its change.
fn base(number: u16, change: u16) -> Row {
    Row::Good {
        base: ballot(number),
        change: ChangeId(ballot(change)),
        next: None,
    }
}

/// A row of a base and a next that adds data, from the numbers of their ballots and changes.
fn next(number: u16, change: u16, next_number: u16, next_change: u16) -> Row {
    Row::Good {
        base: ballot(number),
        change: ChangeId(ballot(change)),
        next: Some(NextRow {
            ballot: ballot(next_number),
            change: ChangeId(ballot(next_change)),
            adds: true,
        }),
    }
}

/// The numbers of a word `BALLOT/CHANGE`.
fn numbers(word: &str) -> Result<(u16, u16), NoAnswer> {
    let Some((number, change)) = word.split_once("/") else {
        return Err(NoAnswer);
    };
    Ok((amount(number)?, amount(change)?))
}

/// The row of a word: `bad`, `absent`, `BALLOT/CHANGE` of a base, or that with `>BALLOT/CHANGE` of a next.
fn row(word: &str) -> Result<Row, NoAnswer> {
    match word {
        "bad" => return Ok(Row::Bad),
        "absent" => return Ok(base(0, 0)),
        _ => {}
    }
    let Some((of_base, of_next)) = word.split_once(">") else {
        let (number, change) = numbers(word)?;
        return Ok(base(number, change));
    };
    let (number, change) = numbers(of_base)?;
    let (next_number, next_change) = numbers(of_next)?;
    Ok(next(number, change, next_number, next_change))
}

/// A verdict in words.
fn told(alloc: Global, verdict: Verdict) -> Result<String, NoAnswer> {
    match verdict {
        Verdict::TooFew { good } => Ok(format!(in alloc; "too few, {good} good")?),
        Verdict::Settled { lane } => Ok(format!(in alloc; "settled on {lane}")?),
        Verdict::Pending {
            base_lane,
            lane,
            k,
            u,
        } => Ok(format!(in alloc; "pending on {lane} over {base_lane}, {k} have it, {u} unread")?),
    }
}

/// `judge DRIVES PARITY ROW..`: the verdict over these rows.
fn judged(alloc: Global, words: &str) -> Result<String, NoAnswer> {
    let (drives, words) = first(words);
    let (parity, words) = first(words);
    let set = plan(7, small(drives)?, small(parity)?)?;
    let mut rows = Vec::new(alloc);
    for word in words.split(' ') {
        rows.push(row(word)?)?;
    }
    if rows.len() != set.drives as usize {
        return Err(NoAnswer);
    }
    told(alloc, judge(&set, rows.as_slice()))
}

/// What a lane may show of two changes, 1 and 3, each proposed under two ballots.
fn pattern(which: u8) -> Row {
    match which {
        0 => Row::Bad,
        1 => base(0, 0),
        2 => next(0, 0, 2, 1),
        3 => next(0, 0, 5, 1),
        4 => base(2, 1),
        5 => base(5, 1),
        6 => next(2, 1, 4, 3),
        7 => next(2, 1, 6, 3),
        8 => next(5, 1, 6, 3),
        9 => base(4, 3),
        10 => next(4, 3, 5, 1),
        _ => base(6, 3),
    }
}

/// A number of its own for each verdict over four lanes.
fn number_of(verdict: Verdict) -> u64 {
    match verdict {
        Verdict::TooFew { good } => u64::from(good),
        Verdict::Settled { lane } => 10 + u64::from(lane),
        Verdict::Pending {
            base_lane,
            lane,
            k,
            u,
        } => {
            let lanes = 10 * u64::from(base_lane) + u64::from(lane);
            10000 + 100 * lanes + 10 * u64::from(k) + u64::from(u)
        }
    }
}

/// The verdicts of some patterns.
#[derive(Clone, Copy, Default)]
struct Counts {
    settled: u32,
    pending: u32,
    few: u32,
    /// The numbers of all verdicts in their order, as digits of a number of base 31, below 2^64.
    sum: u64,
}

impl Counts {
    /// Counts a verdict.
    fn add(&mut self, verdict: Verdict) {
        match verdict {
            Verdict::Settled { .. } => self.settled = self.settled.saturating_add(1),
            Verdict::Pending { .. } => self.pending = self.pending.saturating_add(1),
            Verdict::TooFew { .. } => self.few = self.few.saturating_add(1),
        }
        self.sum = self.sum.wrapping_mul(31).wrapping_add(number_of(verdict));
    }
}

/// `patterns PARITY PATTERN`: the verdicts over all four lanes of which the first shows this pattern: how many are settled,
/// pending and of too few rows, and the sum of their numbers.
fn patterns(alloc: Global, words: &str) -> Result<String, NoAnswer> {
    let (parity, which) = (small(word(words, 0))?, small(word(words, 1))?);
    if parity < 1 || parity > 2 || which > 11 {
        return Err(NoAnswer);
    }
    let set = SetPlan::new([7; 16], 4, parity);
    let mut counts = Counts::default();
    for second in 0..12u8 {
        for third in 0..12u8 {
            for fourth in 0..12u8 {
                let rows = [
                    pattern(which),
                    pattern(second),
                    pattern(third),
                    pattern(fourth),
                ];
                counts.add(judge(&set, &rows));
            }
        }
    }
    let Counts {
        settled,
        pending,
        few,
        sum,
    } = counts;
    Ok(format!(in alloc; "{settled} {pending} {few} {sum}")?)
}

/// `decide DRIVES PARITY adds|none THERE`: what becomes of a change that adds data or none, with its manifest on so many drives.
fn decided(alloc: Global, words: &str) -> Result<String, NoAnswer> {
    let set = plan(7, small(word(words, 0))?, small(word(words, 1))?)?;
    let adds = match word(words, 2) {
        "adds" => true,
        "none" => false,
        _ => return Err(NoAnswer),
    };
    match decide(&set, adds, small(word(words, 3))?) {
        Onward::Forward => said(alloc, "forward"),
        Onward::Undecided => said(alloc, "undecided"),
    }
}

/// Calls what carries laws. Each does nothing.
fn laws() {
    verdict_laws();
    prepare_laws();
    mark_laws();
    mend_law();
    fresh_laws();
    number_laws();
    calm_laws();
    history_laws();
    live_laws();
    value_laws();
    place_laws();
}

pub fn answer(alloc: Global, asked: &str) -> Result<String, NoAnswer> {
    let (call, words) = first(asked);
    match call {
        "judge" => judged(alloc, words),
        "patterns" => patterns(alloc, words),
        "decide" => decided(alloc, words),
        "good" => yes(alloc, row(words)?.is_good()),
        "laws" => {
            laws();
            said(alloc, "done")
        }
        _ => said(alloc, "no such call"),
    }
}
