//! Rows over the registers and what stands below them: the verdict over lanes, a register over lanes, its sections, and the
//! terms of a set.
//!
//! A row is `CRATE CALL WORDS = ANSWER`, or a step that befalls the drives. Each row finds what the rows before it left, and
//! `set new ..` starts over. The program does the step, and prints the row with what it answered, so that `stdout` is `stdin`
//! again where each answer is the one that the row wants.
#![tactic(auto)]

mod gate_rows;
mod register_rows;
mod sections;
mod vote_rows;
mod words;
mod world;

use crate::world::World;
use std::alloc::Global;
use std::io;
use trial_base::{Names, NoAnswer, Rows, first, print_rows, said};

impl Rows for World {
    fn answer(&mut self, alloc: Global, names: &Names, asked: &str) -> Result<String, NoAnswer> {
        let (about, words) = first(asked);
        match about {
            "set" => self.answer_set(alloc, words),
            "lane" | "disk" | "both" => self.befall(alloc, names, about, words),
            "vote_core" => vote_rows::answer(alloc, words),
            "register_core" => self.step(alloc, names, words),
            "register_caller" => self.section(alloc, names, words),
            "term_gate" => self.gate(alloc, names, words),
            _ => said(alloc, "no such crate"),
        }
    }
}

fn main(rt: HostRuntime) -> io::Result<()> {
    let mut world = World::new(rt.alloc());
    print_rows(rt, &mut world)
}
