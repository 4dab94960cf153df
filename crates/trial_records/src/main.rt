//! Rows over the records: the crates that read and write ids, seals, fields, files, rows and states of keys, and plan
//! spans and shards.
//!
//! A row is `CRATE CALL WORDS = ANSWER`. The program does the call with the words, and prints the row with what it
//! answered, so that `stdout` is `stdin` again where each answer is the one that the row wants. `let NAME = BYTES`
//! gives bytes a name for the rows below. A line that begins with `#`, and an empty one, are printed as they are.
#![tactic(auto)]

mod base_rows;
mod books;
mod call_rows;
mod field_rows;
mod id_rows;
mod key_rows;
mod manifest_rows;
mod part_rows;
mod record_rows;
mod register_rows;
mod seal_rows;
mod shard_rows;
mod span_rows;

use std::alloc::Global;
use std::io;
use trial_base::{Names, NoAnswer, Rows, first, print_rows, said};

/// The rows of these crates. No row leaves anything for the next one.
#[derive(Drop)]
struct Records;

impl Rows for Records {
    fn answer(&mut self, alloc: Global, names: &Names, asked: &str) -> Result<String, NoAnswer> {
        let (crate_name, words) = first(asked);
        match crate_name {
            "fault_base" => base_rows::answer(alloc, words),
            "field_reader" => field_rows::answer(alloc, names, words),
            "stamp_id" => id_rows::answer(alloc, names, words),
            "seal_file" => seal_rows::answer(alloc, names, words),
            "sealed_record" => record_rows::answer(alloc, names, words),
            "call_types" => call_rows::answer(alloc, words),
            "span_plan" => span_rows::answer(alloc, words),
            "shard_file" => shard_rows::answer(alloc, names, words),
            "bucket_book" => books::answer(alloc, names, words),
            "manifest_file" => manifest_rows::answer(alloc, names, words),
            "register_file" => register_rows::answer(alloc, names, words),
            "upload_book" => part_rows::answer(alloc, names, words),
            "version_list" => key_rows::answer(alloc, names, words),
            _ => said(alloc, "no such crate"),
        }
    }
}

fn main(rt: HostRuntime) -> io::Result<()> {
    print_rows(rt, &mut Records)
}
