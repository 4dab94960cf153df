//! Rows that are played over, with words of their own.

use std::alloc::Global;
use std::collections::BTreeMap;
use trial_base::{NoAnswer, first, said, word};

/// Scripts: some rows each, with `;` between them.
pub type Scripts = BTreeMap<String, String>;

/// `NAME ROW; ROW; ..`: gives some rows a name.
pub fn define(alloc: Global, scripts: &mut Scripts, words: &str) -> Result<String, NoAnswer> {
    let (name, rows) = first(words);
    let count = rows.split(';').count();
    let name = String::from_str(alloc, name)?;
    let rows = String::from_str(alloc, rows)?;
    scripts.insert(name, rows)?;
    Ok(format!(in alloc; "{count} rows")?)
}

/// A row of a script, in which `$0`, `$1` and so on stand for words.
pub fn filled(alloc: Global, row: &str, words: &str) -> Result<String, NoAnswer> {
    let mut out = String::new(alloc);
    for (place, part) in row.trim().split(' ').enumerate() {
        if place > 0 {
            out.push_str(" ")?;
        }
        match part.strip_prefix("$") {
            Some(digit) => match digit.parse::<usize>() {
                Ok(at) => out.push_str(word(words, at))?,
                Err(_) => return said(alloc, "no such word"),
            },
            None => out.push_str(part)?,
        }
    }
    Ok(out)
}
