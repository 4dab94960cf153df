//! A command line, word by word: its options, and the command behind them.

ghost use Rattle.std.specs.Prelude.{◌≡◌, ◌<◌, map, length, List, ℕ, MatchOption, IfSome, OnSome};
ghost use Rattle.std.specs.String.{string_bytes};
ghost use Rattle.command_line.specs.Values.{IsSplit, LacksDashes, IsFound, BeginsWithNone, IsCommandWord, IsEnd, IsNoCommand, IsLine, IsNoLine};

use crate::options::{OptionName, Options, name_of};
use crate::plan::Command;

/// A command line.
#[derive(Clone, Copy)]
pub struct Line<'a> {
    /// The values of its options.
    pub options: Options<'a>,
    /// Its command.
    pub command: Command,
}

/// An option at the front of words.
#[derive(Clone, Copy)]
struct Found<'a> {
    /// The option's name.
    name: OptionName,
    /// Its value.
    value: &'a str,
    /// The words behind it.
    rest: &'a [String],
}

/// Reads words as options, each at most once, and then one command.
pub fn line_of<'a>(words: &'a [String]) -> Option<Line<'a>>
    ensures { MatchOption result (IsNoLine (map string_bytes words.entry.now)) (IsLine (map string_bytes words.entry.now)) }
{
    let mut options = Options::none();
    let mut rest = words;
    loop {
        let Some(found) = option_at(rest) else {
            return line_behind(options, rest);
        };
        let Some(more) = options.with(found.name, found.value) else {
            return None;
        };
        options = more;
        rest = found.rest;
    }
}

/// The line of these options and the command behind them.
fn line_behind<'a>(options: Options<'a>, rest: &'a [String]) -> Option<Line<'a>>
    ensures { MatchOption result (IsNoCommand (map string_bytes rest.entry.now)) (IsEnd options.entry (map string_bytes rest.entry.now)) }
{
    let Some(command) = command_at(rest) else {
        return None;
    };
    Some(Line { options, command })
}

/// The option at the front of words: `--NAME=VALUE` or `--NAME VALUE`. The value isn't empty, and in the second form it doesn't begin with `-`.
fn option_at<'a>(words: &'a [String]) -> Option<Found<'a>>
    ensures found { MatchOption result (BeginsWithNone (map string_bytes words.entry.now)) (IsFound (map string_bytes words.entry.now)) }
    ensures shorter { IfSome result (λ found. length found.rest.now < length words.entry.now) }
{
    let Some((word, rest)) = words.split_first() else {
        return None;
    };
    let Some((name, joined)) = split_word(word.as_str()) else {
        return None;
    };
    let Some(name) = name_of(name) else {
        return None;
    };
    match joined {
        Some(value) => {
            if value.is_empty() {
                return None;
            }
            Some(Found { name, value, rest })
        }
        None => {
            let Some((value, rest)) = rest.split_first() else {
                return None;
            };
            let value = value.as_str();
            if value.is_empty() || value.starts_with('-') {
                return None;
            }
            Some(Found { name, value, rest })
        }
    }
}

/// The name in a word that begins with `--`, and the value behind its first `=`, where it has one.
fn split_word<'a>(word: &'a str) -> Option<(&'a str, Option<&'a str>)>
    ensures { MatchOption result (LacksDashes word.entry.now) (λ parts. IsSplit word.entry.now parts.0.now parts.1) }
{
    let Some(text) = word.strip_prefix("--") else {
        return None;
    };
    match text.split_once('=') {
        Some((name, value)) => Some((name, Some(value))),
        None => Some((text, None)),
    }
}

/// The command that words are, where they are one word.
fn command_at(words: &[String]) -> Option<Command>
    ensures { MatchOption result (IsNoCommand (map string_bytes words.now)) (IsCommandWord (map string_bytes words.now)) }
{
    let Some((word, rest)) = words.split_first() else {
        return None;
    };
    if !rest.is_empty() {
        return None;
    }
    match word.as_str() {
        "pipe" => Some(Command::Pipe),
        "serve" => Some(Command::Serve),
        "status" => Some(Command::Status),
        _ => None,
    }
}
