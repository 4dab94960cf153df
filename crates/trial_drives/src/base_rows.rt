//! Rows over `drive_base`: sets of drives, plans, listings, and a drive that lies.

ghost use Rattle.std.specs.Prelude.{◌≤◌};

use crate::liar::{Liar, Stumble};
use crate::steps::{self, listed, short_number};
use drive_base::{
    DriveFault, DriveSet, MOST_DRIVES, SetPlan, Trouble, drive_set_laws, page, usual_parity,
    view_laws,
};
use std::alloc::{AllocError, Global};
use std::collections::BTreeMap;
use trial_base::{Names, NoAnswer, first, number, said, said_number, word, yes};

/// A number of at most so much.
fn at_most(word: &str, most: u8) -> u8
    ensures { result ≤ most }
{
    number(word).min(u64::from(most)) as u8
}

/// The set of a mask.
fn set(word: &str) -> DriveSet {
    DriveSet::from_mask(number(word).min(0xffff) as u16)
}

/// `with INDEX..`: the mask of the set of these drives.
fn with(alloc: Global, row: &str) -> Result<String, NoAnswer> {
    let mut set = DriveSet::none();
    for word in row.split(' ') {
        set = set.with(at_most(word, 15));
    }
    said_number(alloc, "mask ", u64::from(set.mask()))
}

/// The parity of a plan: as it is given, or the usual one.
fn parity(word: &str, drives: u8) -> u8 {
    if word == "usual" && drives >= 4 {
        return usual_parity(drives);
    }
    at_most(word, MOST_DRIVES)
}

/// The drives of a plan that are out, by their bits.
fn out_of(plan: &SetPlan) -> u64 {
    let mut mask = 0u64;
    let mut bit = 1u64;
    for index in 0..plan.drives {
        if plan.is_out(index) {
            mask |= bit;
        }
        bit = bit.wrapping_mul(2);
    }
    mask
}

/// `plan DRIVES PARITY OUT`: its parity, its quorums, and the mask of the drives that are out.
fn plan(alloc: Global, row: &str) -> Result<String, NoAnswer> {
    let drives = at_most(word(row, 0), MOST_DRIVES);
    let parity = parity(word(row, 1), drives);
    if drives < 4 || parity < 1 || parity > drives / 2 {
        return said(alloc, "no such plan");
    }
    let mut plan = SetPlan::new([0; 16], drives, parity);
    let none = out_of(&plan);
    plan.out = set(word(row, 2));
    let (read, write, out) = (plan.read_quorum(), plan.write_quorum(), out_of(&plan));
    Ok(format!(in alloc; "parity {parity}, read {read}, write {write}, out {none} and {out}")?)
}

/// A map with these names.
fn map_of(alloc: Global, row: &str) -> Result<BTreeMap<String, ()>, AllocError> {
    let mut files = BTreeMap::new(alloc);
    for name in row.split(' ') {
        files.insert(String::from_str(alloc, name)?, ())?;
    }
    Ok(files)
}

/// `page FROM MOST NAME..`
fn page_of(alloc: Global, row: &str) -> Result<String, NoAnswer> {
    let (from, rest) = first(row);
    let (most, rest) = first(rest);
    let files = map_of(alloc, rest)?;
    match page(alloc, &files, from.trim_matches('\''), short_number(most)) {
        Ok(names) => listed(alloc, Ok(names), false),
        Err(_) => listed(alloc, Err(DriveFault::NoMemory), false),
    }
}

/// `stumble BELOW`: whether a trouble struck, at its first time and at its second.
fn stumble(alloc: Global, liar: &mut Liar, below: u64) -> Result<String, NoAnswer> {
    let mut trouble = Stumble { below };
    let (once, twice) = (trouble.strike(liar), trouble.strike(liar));
    Ok(format!(in alloc; "{once}, {twice}")?)
}

/// What the drive that lies was told, or a step of it gave.
fn lie(alloc: Global, names: &Names, liar: &mut Liar, row: &str) -> Result<String, NoAnswer> {
    let (call, rest) = first(row);
    match call {
        "new" => {
            liar.faults = number(rest);
            said(alloc, "new")
        }
        "stumble" => stumble(alloc, liar, number(rest)),
        _ => steps::answer(alloc, names, liar, row),
    }
}

/// What a call gave.
pub fn answer(
    alloc: Global,
    names: &Names,
    liar: &mut Liar,
    row: &str,
) -> Result<String, NoAnswer> {
    let (call, rest) = first(row);
    let (one, other) = (word(rest, 0), word(rest, 1));
    match call {
        "with" => with(alloc, rest),
        "has" => yes(alloc, set(one).has(at_most(other, 15))),
        "count" => {
            let count = set(one).count(at_most(other, MOST_DRIVES));
            said_number(alloc, "", u64::from(count))
        }
        "either" => {
            let mask = set(one).either(set(other)).mask();
            said_number(alloc, "mask ", u64::from(mask))
        }
        "plan" => plan(alloc, rest),
        "page" => page_of(alloc, rest),
        "liar" => lie(alloc, names, liar, rest),
        "laws" => {
            drive_set_laws();
            view_laws();
            said(alloc, "done")
        }
        _ => said(alloc, "no such call"),
    }
}
