//! Rows over the crates of slots: what their audits keep, what their registers are named, their sections, the calls on
//! buckets that do them, and what a call is told of a section that is refused.
//!
//! A row is `CRATE CALL WORDS = ANSWER`. The program does the call with the words, and prints the row with what it answered,
//! so that `stdout` is `stdin` again where each answer is the one that the row wants. `let NAME = BYTES` gives bytes a name
//! for the rows below. A line that begins with `#`, and an empty one, are printed as they are. What one row leaves in the
//! slots and in the call under way the next one finds.
#![tactic(auto)]

mod callers;
mod data_rows;
mod entries;
mod name_rows;
mod op_rows;
mod refusal_rows;
mod trail_rows;

use callers::AnyCaller;
use std::alloc::Global;
use std::io;
use trial_base::{Names, NoAnswer, Rows, first, print_rows, said};
use trial_rig::Store;

#[derive(Drop)]
/// The rows of these crates, with the slots and the call that they are about.
struct Slots {
    store: Store,
    caller: AnyCaller,
}

impl Rows for Slots {
    fn answer(&mut self, alloc: Global, names: &Names, asked: &str) -> Result<String, NoAnswer> {
        let (crate_name, words) = first(asked);
        match crate_name {
            "audit_trail" => trail_rows::answer(alloc, names, words),
            "slot_history" => name_rows::answer(alloc, words),
            "slot_data" => data_rows::answer(alloc, words),
            "slot_core" => self.store.answer(alloc, names, words),
            "bucket_ops" => {
                op_rows::answer(alloc, names, &mut self.store, &mut self.caller, words)
            }
            "op_steps" => refusal_rows::answer(alloc, words),
            _ => said(alloc, "no such crate"),
        }
    }
}

fn main(rt: HostRuntime) -> io::Result<()> {
    let mut slots = Slots {
        store: Store::new(rt.alloc()),
        caller: AnyCaller::Nothing,
    };
    print_rows(rt, &mut slots)
}
