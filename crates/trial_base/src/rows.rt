//! The loop over the rows of standard input.

use crate::words::{Names, NoAnswer, name, said};
use std::alloc::Global;
use std::io;

/// What answers the rows of a trial program. What one row leaves, the next one finds.
pub trait Rows {
    /// What a row is answered, of which this is the part before ` = `.
    fn answer(&mut self, alloc: Global, names: &Names, asked: &str) -> Result<String, NoAnswer>;
}

/// The part of a row before its answer.
fn asked(row: &str) -> &str {
    match row.split_once(" = ") {
        Some((asked, _)) => asked,
        None => row,
    }
}

/// The line that is printed for a row.
fn told<R: Rows>(
    alloc: Global,
    rows: &mut R,
    names: &mut Names,
    row: &str,
) -> Result<String, NoAnswer> {
    if row.is_empty() || row.starts_with("#") {
        return said(alloc, row);
    }
    let asked = asked(row);
    if let Some(called) = asked.strip_prefix("let ") {
        name(alloc, names, called, row)?;
        return said(alloc, row);
    }
    let answer = rows.answer(alloc, names, asked)?;
    Ok(format!(in alloc; "{asked} = {answer}")?)
}

/// Reads rows to the end of standard input, and prints each with what it was answered.
pub fn print_rows<R: Rows>(rt: HostRuntime, rows: &mut R) -> io::Result<()> {
    let mut names = Names::new(rt.alloc());
    for line in rt.lines(rt.alloc()) {
        let line = line?;
        match told(rt.alloc(), rows, &mut names, line.as_str()) {
            Ok(text) => println!(rt; "{text}")?,
            Err(NoAnswer) => println!(rt; "no memory, or a word that spells nothing: {line}")?,
        }
    }
    Ok(())
}
