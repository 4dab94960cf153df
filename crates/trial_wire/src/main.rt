//! Rows over what comes and goes on a connection: heads, the calls that they state, the documents that follow them, and
//! replies; and over command lines and drill scripts.
//!
//! A row is `CRATE CALL WORDS = ANSWER`. The program does the call with the words, and prints the row with what it
//! answered, so that `stdout` is `stdin` again where each answer is the one that the row wants. A line that begins with
//! `#`, and an empty one, are printed as they are. `README.md` has the grammar of the words.
#![tactic(auto)]

mod calls;
mod desk_rows;
mod document_rows;
mod line_rows;
mod refusals;
mod replies;
mod reply_rows;
mod request_rows;
mod requests;
mod script_rows;
mod sources;
mod texts;
mod value_rows;
mod wire_rows;

use std::alloc::Global;
use std::io;
use trial_base::{Names, NoAnswer, Rows, first, print_rows, said};
use wire_rows::Connection;

/// The rows of these crates.
#[derive(Drop)]
struct Wires {
    /// The texts that were kept under a name.
    kept: Names,
    /// The connection of the last row `http_wire new`.
    connection: Option<Connection>,
}

impl Rows for Wires {
    fn answer(&mut self, alloc: Global, _names: &Names, asked: &str) -> Result<String, NoAnswer> {
        let (crate_name, words) = first(asked);
        match crate_name {
            "keep" => texts::keep(alloc, &mut self.kept, words),
            "s3_reply" => reply_rows::answer(alloc, &self.kept, words),
            "s3_request" => request_rows::answer(alloc, &self.kept, words),
            "http_wire" => wire_rows::answer(alloc, &self.kept, &mut self.connection, words),
            "header_values" => value_rows::answer(alloc, &self.kept, words),
            "s3_docs" => document_rows::answer(alloc, &self.kept, words),
            "desk_base" => desk_rows::answer(alloc, &self.kept, words),
            "command_line" => line_rows::answer(alloc, words),
            "drill_script" => script_rows::answer(alloc, &self.kept, words),
            _ => said(alloc, "no such crate"),
        }
    }
}

fn main(rt: HostRuntime) -> io::Result<()> {
    let mut rows = Wires {
        kept: Names::new(rt.alloc()),
        connection: None,
    };
    print_rows(rt, &mut rows)
}
