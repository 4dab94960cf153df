//! Two calls on one key, step by step in the orders of their steps.

use crate::callers::Callers;
use crate::files::{Kept, kept_by};
use std::alloc::Global;
use trial_base::{Names, NoAnswer, first, number, said};
use trial_rig::Store;

/// A store, and the two calls on it that are under way.
#[derive(Drop)]
pub struct Pair<'a> {
    pub names: &'a Names,
    pub store: &'a mut Store,
    pub callers: &'a mut Callers,
    pub one: &'a str,
    pub other: &'a str,
}

/// What both calls are told, and then what the drives keep once the trash was taken that a pin may have held back.
#[derive(Drop)]
struct Outcome {
    told: String,
    files: Vec<u8>,
}

/// Whether two outcomes are one.
fn is_same(one: &Outcome, other: &Outcome) -> bool {
    one.told.as_str() == other.told.as_str() && one.files.as_slice() == other.files.as_slice()
}

impl<'a> Pair<'a> {
    /// A store with the bucket, whose mode was never set, and the object `old`, and both calls begun.
    fn begin(&mut self, alloc: Global) -> Result<(), NoAnswer> {
        for row in [
            "new 4 2",
            "open 10 11 1",
            "commit 10 none 784111777 make pic",
        ] {
            let answer = self.store.answer(alloc, self.names, row)?;
            drop(answer);
        }
        let old = "call put fox 'old'";
        let answer = self.callers.answer(alloc, self.names, self.store, old)?;
        drop(answer);
        self.callers
            .begin(alloc, self.names, self.store.set, self.one)?;
        self.callers
            .begin(alloc, self.names, self.store.set, self.other)
    }

    /// Does a step of the first call or of the second one, or ends it, and tells what it gave.
    fn go(&mut self, alloc: Global, is_first: bool, step: &str) -> Result<String, NoAnswer> {
        let kind = first(if is_first { self.one } else { self.other }).0;
        self.callers.go(alloc, self.store, step, kind, 1)
    }

    /// What comes of two calls whose steps are done in the order of a word, of which a bit that is set is a step of the first call, the lowest bit first. A call
    /// that is over early has no step any more, and one that isn't over behind the word ends then.
    fn ordered(&mut self, alloc: Global, order: u64) -> Result<Outcome, NoAnswer> {
        self.begin(alloc)?;
        for place in 0..64u32 {
            let letters = self.go(alloc, order >> place & 1 == 1, "step")?;
            drop(letters);
        }
        let one = self.go(alloc, true, "end")?;
        let other = self.go(alloc, false, "end")?;
        let sweep = "call delete sea";
        let swept = self.callers.answer(alloc, self.names, self.store, sweep)?;
        let told = format!(in alloc; "{one}; {other}; {swept}")?;
        let Kept { files, .. } = kept_by(alloc, self.store)?;
        Ok(Outcome { told, files })
    }

    /// Compares each word from the first to the last, or one of so many, with the outcomes of those two: how many words there are, how many were compared, and how
    /// many of these came to neither. Where both outcomes are one nothing is compared.
    fn compare(
        &mut self,
        alloc: Global,
        least: u64,
        most: u64,
        every: u64,
    ) -> Result<(u64, u64, u64), NoAnswer> {
        let one = self.ordered(alloc, least)?;
        let other = self.ordered(alloc, most)?;
        let (mut order, mut compared, mut others) = (least, 0u64, 0u64);
        for count in 0..10_000_000u64 {
            if order > most {
                return Ok((count, compared, others));
            }
            if every != 0 && count % every == 0 && !is_same(&one, &other) {
                let found = self.ordered(alloc, order)?;
                let is_one = is_same(&found, &one) || is_same(&found, &other);
                compared = compared.saturating_add(1);
                others = others.saturating_add(u64::from(!is_one));
            }
            order = next_word(order);
        }
        Err(NoAnswer)
    }
}

/// The next greater word with as many bits set, or a greatest one.
fn next_word(word: u64) -> u64 {
    let low = word & word.wrapping_neg();
    let ripple = word.wrapping_add(low);
    if low == 0 || ripple == 0 {
        return u64::MAX;
    }
    ((ripple ^ word) >> 2) / low | ripple
}

/// `STEPS1 STEPS2 EVERY CALL1 | CALL2`: the orders of the steps of two calls, of which one of so many is compared with the two orders of the whole calls.
pub fn answer(
    alloc: Global,
    names: &Names,
    store: &mut Store,
    callers: &mut Callers,
    row: &str,
) -> Result<String, NoAnswer> {
    let (steps, rest) = first(row);
    let (more, rest) = first(rest);
    let (every, calls) = first(rest);
    let (steps, more) = (number(steps), number(more));
    let Some((one, other)) = calls.split_once(" | ") else {
        return said(alloc, "no two calls");
    };
    if steps >= 30 || more >= 60 {
        return said(alloc, "too many steps");
    }
    let mut pair = Pair {
        names,
        store,
        callers,
        one,
        other,
    };
    let least = (1u64 << steps) - 1;
    let (orders, compared, others) = pair.compare(alloc, least, least << more, number(every))?;
    Ok(format!(in alloc; "{orders} orders, {compared} compared, {others} otherwise")?)
}
