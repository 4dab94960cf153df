//! Rows over `command_line`: what command lines say.

use command_line::{Command, Plan, Usage, number_between, number_of, plan_of};
use std::alloc::Global;
use trial_base::{NoAnswer, first, said, said_bytes, said_number, word};

/// A command in words.
fn said_command(command: Command) -> &'static str {
    match command {
        Command::Pipe => "pipe",
        Command::Serve => "serve",
        Command::Status => "status",
    }
}

/// The folder of the drives in words.
fn said_root(alloc: Global, root: &Option<String>) -> Result<String, NoAnswer> {
    match root {
        Some(root) => Ok(format!(in alloc; "in [{root}]")?),
        None => said(alloc, "in memory"),
    }
}

/// A plan in words.
fn said_plan(alloc: Global, plan: &Plan) -> Result<String, NoAnswer> {
    let (drives, parity, workers) = (plan.set.drives, plan.set.parity, plan.workers);
    let id = said_bytes(alloc, "", plan.set.id.as_slice())?;
    let root = said_root(alloc, &plan.root)?;
    let (command, listen) = (said_command(plan.command), plan.listen.as_str());
    Ok(format!(in alloc;
        "{command} {root}, drives {drives}, parity {parity}, set {id}, at [{listen}], workers {workers}"
    )?)
}

/// What words say.
fn read(alloc: Global, words: &[String]) -> Result<String, NoAnswer> {
    match plan_of(alloc, words) {
        Ok(plan) => said_plan(alloc, &plan),
        Err(Usage::NotACommand) => said(alloc, "no command line"),
        Err(Usage::NoMemory) => Err(NoAnswer),
    }
}

/// `plan WORDS`: a word ends at each space, so two spaces have an empty word between them.
fn plan(alloc: Global, line: &str) -> Result<String, NoAnswer> {
    let mut words = Vec::new(alloc);
    for word in line.split(' ') {
        words.push(String::from_str(alloc, word)?)?;
    }
    read(alloc, words.as_slice())
}

/// A number that is read, or `none`.
fn said_read(alloc: Global, number: Option<u64>) -> Result<String, NoAnswer> {
    match number {
        Some(number) => said_number(alloc, "", number),
        None => said(alloc, "none"),
    }
}

/// `between TEXT`: a number from 4 to 16, which is 5 where there is no text.
fn between(alloc: Global, text: &str) -> Result<String, NoAnswer> {
    let text = if text == "-" { None } else { Some(text) };
    said_read(alloc, number_between(text, 4, 16, 5).map(u64::from))
}

pub fn answer(alloc: Global, words: &str) -> Result<String, NoAnswer> {
    let (call, rest) = first(words);
    match call {
        "plan" => plan(alloc, rest),
        "no_words" => read(alloc, Vec::new(alloc).as_slice()),
        "number" => said_read(alloc, number_of(rest)),
        "between" => between(alloc, word(rest, 0)),
        _ => said(alloc, "no such call"),
    }
}
