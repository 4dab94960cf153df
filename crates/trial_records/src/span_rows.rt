//! Rows over `span_plan`. A range is `whole`, `FIRST-LAST`, `FIRST-` or `-COUNT`.

use crate::call_rows::range_refusal;
use call_types::{RangeAsk, Refusal};
use span_plan::{is_partial, plan, span_laws};
use std::alloc::Global;
use trial_base::{NoAnswer, number, said, word, yes};

/// The range of a word.
fn range(word: &str) -> RangeAsk {
    match word.split_once("-") {
        None => RangeAsk::Whole,
        Some(("", count)) => RangeAsk::Last(number(count)),
        Some((first, "")) => RangeAsk::From(number(first)),
        Some((first, last)) => RangeAsk::FromTo(number(first), number(last)),
    }
}

/// `plan LENGTH RANGE`
fn planned(alloc: Global, length: u64, ask: &RangeAsk) -> Result<String, NoAnswer> {
    match plan(length, ask) {
        Ok(span) => Ok(format!(in alloc; "{} from {}", span.length, span.at)?),
        Err(invalid) => range_refusal(alloc, Refusal::from(invalid)),
    }
}

pub fn answer(alloc: Global, row: &str) -> Result<String, NoAnswer> {
    let (length, ask) = (number(word(row, 1)), range(word(row, 2)));
    match word(row, 0) {
        "plan" => planned(alloc, length, &ask),
        "partial" => yes(alloc, is_partial(length, &ask)),
        "laws" => {
            span_laws();
            said(alloc, "done")
        }
        _ => said(alloc, "no such call"),
    }
}
