//! Rows over stages and readers of bodies, on drives in memory.
//!
//! A row is `CRATE CALL WORDS = ANSWER`. The program does the call with the words, and prints the row with what it
//! answered, so that `stdout` is `stdin` again where each answer is the one that the row wants. `let NAME = BYTES`
//! gives bytes a name for the rows below. A line that begins with `#`, and an empty one, are printed as they are.
//! Drives, a stage and a reader that a row makes are there for the next ones.
#![tactic(auto)]

mod bodies;
mod drive_rows;
mod others;
mod read_rows;
mod reading;
mod source;
mod stage_rows;
mod told;
mod watched;
mod work;

use crate::bodies::Bodies;
use std::io;
use trial_base::print_rows;

fn main(rt: HostRuntime) -> io::Result<()> {
    let mut bodies = Bodies::new(rt.alloc());
    print_rows(rt, &mut bodies)
}
