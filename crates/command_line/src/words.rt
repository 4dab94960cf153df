//! What the words of a command line say.

ghost use Rattle.std.specs.Prelude.{◌≡◌, ◌↔◌, IfOk, Err, MatchOption, option_map, map, List, ℕ};
ghost use Rattle.std.specs.String.{string_bytes};
ghost use Rattle.command_line.specs.Words.{Says};
ghost use Rattle.command_line.specs.Values.{IsSetIn, IsNoSet, IsIdOf, IsRootOf, IsListenOf};
ghost use Rattle.command_line.specs.declared.plan.Plan.{Plan as CommandLine};
ghost use Rattle.command_line.specs.declared.plan.Usage.TheVariants.{NotACommand as NotALine};

use crate::line::line_of;
use crate::numbers::number_between;
use crate::options::Options;
use crate::plan::{Plan, Usage};
use drive_base::{SetPlan, usual_parity};
use std::alloc::{AllocError, Global};
use uuid::Uuid;

/// How many drives a set has where it isn't said.
const USUAL_DRIVES: u8 = 4;

/// How many connections are served at once where it isn't said.
const USUAL_WORKERS: u8 = 16;

/// Where connections are awaited where it isn't said.
const USUAL_LISTEN: &str = "127.0.0.1:9000";

/// Reads words as a command line: options, each at most once, as `--NAME VALUE` or `--NAME=VALUE`, and then one command. A value isn't empty, and in the first
/// form it doesn't begin with `-`.
pub fn plan_of(alloc: Global, words: &[String]) -> Result<Plan, Usage>
    ensures ok { IfOk result (λ plan. Says words.now plan) }
    ensures none { result ≡ Err NotALine → (plan : CommandLine) → Says words.now plan → ⊥ }
{
    let Some(line) = line_of(words) else {
        return Err(Usage::NotACommand);
    };
    let options = line.options;
    let Some(set) = set_of(options) else {
        return Err(Usage::NotACommand);
    };
    let Some(workers) = number_between(options.workers, 1, 64, USUAL_WORKERS) else {
        return Err(Usage::NotACommand);
    };
    let root = root_of(alloc, options.root)?;
    let listen = listen_of(alloc, options.listen)?;
    Ok(Plan {
        set,
        workers,
        root,
        listen,
        command: line.command,
    })
}

/// The set that the options say.
fn set_of(options: Options<'_>) -> Option<SetPlan>
    ensures { MatchOption result (IsNoSet options.entry) (IsSetIn options.entry) }
{
    let Some(drives) = number_between(options.drives, 4, 16, USUAL_DRIVES) else {
        return None;
    };
    let Some(parity) = number_between(options.parity, 1, drives / 2, usual_parity(drives)) else {
        return None;
    };
    let Some(id) = id_of(options.set) else {
        return None;
    };
    Some(SetPlan::new(id, drives, parity))
}

/// The set's id, which is the nil UUID where it isn't said.
fn id_of(text: Option<&str>) -> Option<[u8; 16]>
    ensures { (id : List ℕ) → (result ≡ Some id) ↔ IsIdOf (option_map (λ t. t.now) text.entry) id }
{
    let Some(text) = text else {
        return Some([0; 16]);
    };
    match Uuid::parse_str(text) {
        Ok(uuid) => Some(uuid.into_bytes()),
        Err(_) => None,
    }
}

/// The folder of the drives, or None where it isn't said.
fn root_of(alloc: Global, text: Option<&str>) -> Result<Option<String>, AllocError>
    ensures { IfOk result (IsRootOf (option_map (λ t. t.now) text.entry)) }
{
    match text {
        Some(text) => Ok(Some(String::from_str(alloc, text)?)),
        None => Ok(None),
    }
}

/// Where connections are awaited.
fn listen_of(alloc: Global, text: Option<&str>) -> Result<String, AllocError>
    ensures { IfOk result (λ listen. IsListenOf (option_map (λ t. t.now) text.entry) (string_bytes listen)) }
{
    match text {
        Some(text) => String::from_str(alloc, text),
        None => String::from_str(alloc, USUAL_LISTEN),
    }
}
