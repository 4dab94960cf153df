//! Rows over the pages of listings.
//!
//! A row is `list_page CALL WORDS = ANSWER`. The program does the call with the words, and prints the row with what it
//! answered, so that `stdout` is `stdin` again where each answer is the one that the row wants. `let NAME = BYTES`
//! gives bytes a name for the rows below. A line that begins with `#`, and an empty one, are printed as they are.
#![tactic(auto)]

mod asks;
mod keys;
mod told;

use crate::asks::{ask, text};
use crate::keys::rows;
use crate::told::{told_page, told_text};
use list_page::{PageAsk, first_key, is_in_last, page_laws, page_of, wants};
use std::alloc::Global;
use std::io;
use trial_base::{Names, NoAnswer, Rows, first, print_rows, said, yes};

/// The rows of the crate. No row leaves anything for the next one.
#[derive(Drop)]
struct Pages;

/// `page ASK ; KEY ..`: the page of these keys.
fn page(alloc: Global, names: &Names, words: &str) -> Result<String, NoAnswer> {
    let ask = ask(alloc, names, words)?;
    let rows = rows(alloc, names, &ask, words)?;
    let page = page_of(alloc, &ask, rows)?;
    let told = told_page(alloc, &page);
    drop(page);
    told
}

/// Whether a key is in the group that is the last row of these keys.
fn in_last(
    alloc: Global,
    names: &Names,
    ask: &PageAsk,
    key: &[u8],
    words: &str,
) -> Result<String, NoAnswer> {
    let rows = rows(alloc, names, ask, words)?;
    let answer = is_in_last(ask, rows.as_slice(), key);
    drop(rows);
    yes(alloc, answer)
}

/// `wants KEY ASK`, and `is_in_last KEY ASK ; KEY ..`.
fn of_key(alloc: Global, names: &Names, call: &str, rest: &str) -> Result<String, NoAnswer> {
    let (key, words) = first(rest);
    let key = text(alloc, names, key)?;
    let ask = ask(alloc, names, words)?;
    match call {
        "wants" => yes(alloc, wants(&ask, key.as_slice())),
        "is_in_last" => in_last(alloc, names, &ask, key.as_slice(), words),
        _ => said(alloc, "no such call"),
    }
}

/// `first_key ASK`
fn first_of(alloc: Global, names: &Names, words: &str) -> Result<String, NoAnswer> {
    let ask = ask(alloc, names, words)?;
    let key = first_key(alloc, &ask)?;
    told_text(alloc, &key)
}

impl Rows for Pages {
    fn answer(&mut self, alloc: Global, names: &Names, asked: &str) -> Result<String, NoAnswer> {
        let Some(row) = asked.strip_prefix("list_page ") else {
            return said(alloc, "no such crate");
        };
        let (call, rest) = first(row);
        match call {
            "page" => page(alloc, names, rest),
            "first_key" => first_of(alloc, names, rest),
            "laws" => {
                page_laws();
                said(alloc, "done")
            }
            _ => of_key(alloc, names, call, rest),
        }
    }
}

fn main(rt: HostRuntime) -> io::Result<()> {
    print_rows(rt, &mut Pages)
}
