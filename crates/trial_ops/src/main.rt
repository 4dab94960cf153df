//! Rows over the ops on objects, over the sections of their slot, and over the desks of a store: step by step, alone, beside one another, and where drives fail.
//!
//! A row is `CRATE CALL WORDS = ANSWER`, and what one row leaves the next one finds. `script NAME ROW; ROW; ..` names some rows, and `play NAME WORDS` does
//! them: `$0`, `$1` and so on stand for the words, and the answers of the rows that begin with `?` are told. The program prints each row with the answer that it
//! finds.
#![tactic(auto)]

mod any_op;
mod asks;
mod callers;
mod desks;
mod files;
mod last_slot;
mod orders;
mod scripts;
mod sharing;

use callers::Callers;
use desks::Desks;
use scripts::{Scripts, define, filled};
use std::alloc::Global;
use std::io;
use std::sync::Wait;
use trial_base::{Names, NoAnswer, first, name, said};
use trial_rig::Store;

/// What the rows find and leave.
#[derive(Drop)]
struct Trial<R: Wait> {
    store: Store,
    callers: Callers,
    kept: Vec<u8>,
    scripts: Scripts,
    desks: Desks<R>,
}

impl<R: Wait + Copy + Drop + Sync> Trial<R> {
    /// A row that is no script.
    fn one(&mut self, alloc: Global, names: &Names, row: &str) -> Result<String, NoAnswer> {
        let (crate_name, words) = first(row);
        match crate_name {
            "slot_core" => self.store.answer(alloc, names, words),
            "drive_memory" => files::answer(alloc, &mut self.store, &mut self.kept, words),
            "object_ops" => self.callers.answer(alloc, names, &mut self.store, words),
            "orders" => orders::answer(alloc, names, &mut self.store, &mut self.callers, words),
            "store_shared" => self.desks.answer(alloc, names, words),
            _ => said(alloc, "no such crate"),
        }
    }

    /// `NAME WORDS`: plays a script.
    fn play(&mut self, alloc: Global, names: &Names, words: &str) -> Result<String, NoAnswer> {
        let (name, words) = first(words);
        let rows = match self.scripts.get(name) {
            Some(rows) => String::from_str(alloc, rows.as_str())?,
            None => return said(alloc, "no such script"),
        };
        let mut told = String::new(alloc);
        for row in rows.as_str().split(';') {
            let row = filled(alloc, row, words)?;
            let shown = row.as_str().strip_prefix("? ");
            let answer = self.one(alloc, names, shown.unwrap_or(row.as_str()))?;
            if shown.is_some() {
                told.push_str(if told.is_empty() { "" } else { "; " })?;
                told.push_str(answer.as_str())?;
            }
        }
        Ok(told)
    }
}

impl<R: Wait + Copy + Drop + Sync> Trial<R> {
    /// What a row is answered, of which this is the part before ` = `.
    fn answer(&mut self, alloc: Global, names: &Names, asked: &str) -> Result<String, NoAnswer> {
        let (crate_name, words) = first(asked);
        match crate_name {
            "script" => define(alloc, &mut self.scripts, words),
            "play" => self.play(alloc, names, words),
            _ => self.one(alloc, names, asked),
        }
    }
}

/// The line that is printed for a row.
fn told<R: Wait + Copy + Drop + Sync>(
    alloc: Global,
    trial: &mut Trial<R>,
    names: &mut Names,
    row: &str,
) -> Result<String, NoAnswer> {
    if row.is_empty() || row.starts_with("#") {
        return said(alloc, row);
    }
    let asked = match row.split_once(" = ") {
        Some((asked, _)) => asked,
        None => row,
    };
    if let Some(called) = asked.strip_prefix("let ") {
        name(alloc, names, called, row)?;
        return said(alloc, row);
    }
    let answer = trial.answer(alloc, names, asked)?;
    Ok(format!(in alloc; "{asked} = {answer}")?)
}

/// Reads rows to the end of standard input. The loop of `trial_base` stands here once more, since a method of a trait can't
/// hand on that what two callers share may be sent to a thread.
fn main(rt: HostRuntime) -> io::Result<()> {
    let alloc = rt.alloc();
    let mut names = Names::new(alloc);
    let mut trial = Trial {
        store: Store::new(alloc),
        callers: Callers::none(),
        kept: Vec::new(alloc),
        scripts: Scripts::new(alloc),
        desks: Desks { rt, pass: None },
    };
    for line in rt.lines(alloc) {
        let line = line?;
        match told(alloc, &mut trial, &mut names, line.as_str()) {
            Ok(text) => println!(rt; "{text}")?,
            Err(NoAnswer) => println!(rt; "no memory, or a word that spells nothing: {line}")?,
        }
    }
    Ok(())
}
