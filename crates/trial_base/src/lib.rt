//! What the trial programs have in common: rows, their words, the bytes that words spell, and answers.
//!
//! A trial program calls the public functions of a group of crates on rows of its standard input. A row is
//! `CRATE CALL WORDS = ANSWER`. The program does the call, and prints the row with the answer that it found, so that its
//! standard output is its standard input again where each answer is the one that the row wants. `let NAME = BYTES`
//! gives bytes a name for the rows below. A line that begins with `#`, and an empty one, are printed as they are.
//!
//! It stands on `fault_base`, and promises nothing but that it is safe: what it does is shown by the rows.
#![tactic(auto)]

mod rows;
mod words;

pub use rows::{Rows, print_rows};
pub use words::{
    Names, NoAnswer, bytes, first, name, number, said, said_bytes, said_number, word, yes,
};
