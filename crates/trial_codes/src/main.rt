//! Rows over the crates that code and hash: the field, its products over blocks, the erasure code, digests side by side,
//! and the names of a body's files.
//!
//! A row is `CRATE CALL WORDS = ANSWER`. The program does the call with the words, and prints the row with what it
//! answered, so that `stdout` is `stdin` again where each answer is the one that the row wants. `let NAME = BYTES`
//! gives bytes a name for the rows below. A line that begins with `#`, and an empty one, are printed as they are.
#![tactic(auto)]

mod digest_rows;
mod field_rows;
mod lane_rows;
mod name_rows;
mod stripe_rows;
mod told;

use std::alloc::Global;
use std::io;
use trial_base::{Names, NoAnswer, Rows, first, print_rows, said};

/// The rows of these crates. No row leaves anything for the next one.
#[derive(Drop)]
struct Codes;

impl Rows for Codes {
    fn answer(&mut self, alloc: Global, names: &Names, asked: &str) -> Result<String, NoAnswer> {
        let (crate_name, words) = first(asked);
        match crate_name {
            "gf256" => field_rows::answer(alloc, words),
            "code_lanes" => lane_rows::answer(alloc, names, words),
            "poly_code" => stripe_rows::answer(alloc, names, words),
            "hash_lanes" => digest_rows::answer(alloc, names, words),
            "body_print" => name_rows::answer(alloc, words),
            _ => said(alloc, "no such crate"),
        }
    }
}

fn main(rt: HostRuntime) -> io::Result<()> {
    print_rows(rt, &mut Codes)
}
