//! Where a line may stand.

ghost use Rattle.std.specs.Prelude.{◌≡◌, ◌↔◌, IsTrue};
ghost use Rattle.drill_script.specs.Limits.{most_fill, most_key};
ghost use Rattle.drill_script.specs.Reader.{MayFollow};
ghost use Rattle.drill_script.specs.Scripts.{IsEvent, IsKey, IsSetLine, drives_of};

use crate::line::Line;
use seal_file::Text;

/// The most bytes of a key: what S3 lets one have.
const MOST_KEY: usize = 1_024;

/// The most bytes of a body that is filled, by "Drill scripts" of `docs/FORMATS.md`.
const MOST_FILL: u64 = 16_777_216;

/// Whether a line may stand behind these: the first makes the set, and no other does.
pub fn may_follow(before: &[Line], line: &Line) -> bool
    ensures { IsTrue result ↔ MayFollow before.now line.now }
{
    match before.first() {
        None => is_set_line(line),
        Some(first) => is_event(drives_of(first), line),
    }
}

/// Whether a line makes a set: one of 4 to 16 drives, of which 1 to half are parity.
fn is_set_line(line: &Line) -> bool
    ensures { IsTrue result ↔ IsSetLine line.now }
{
    match line {
        Line::Set { drives, parity, .. } => {
            4 <= *drives && *drives <= 16 && 1 <= *parity && *parity <= *drives / 2
        }
        _ => false,
    }
}

/// The number of drives of the set that a line makes.
fn drives_of(line: &Line) -> u8
    ensures { result ≡ drives_of line.now }
{
    match line {
        Line::Set { drives, .. } => *drives,
        _ => 0,
    }
}

/// Whether a text isn't too long for a key.
fn is_key(text: &Text) -> bool
    ensures { IsTrue result ↔ IsKey text.now }
{
    text.len() <= MOST_KEY
}

/// Whether a line is an event in a set of so many drives: it makes no set, its key and its body aren't too long, and the drive
/// that it names is in the set.
fn is_event(drives: u8, line: &Line) -> bool
    ensures { IsTrue result ↔ IsEvent drives line.now }
{
    match line {
        Line::Set { .. } => false,
        Line::Put { key, .. } => is_key(key),
        Line::Fill { key, length, .. } => is_key(key) && *length <= MOST_FILL,
        Line::Get { key, .. } => is_key(key),
        Line::GetVersion { key, .. } => is_key(key),
        Line::Range { key, .. } => is_key(key),
        Line::Delete { key, .. } => is_key(key),
        Line::DeleteVersion { key, .. } => is_key(key),
        Line::Lose(index) => *index < drives,
        Line::Back(index) => *index < drives,
        Line::Hurt { index, .. } => *index < drives,
        Line::Fuse { index, .. } => *index < drives,
        Line::Go(_) | Line::Run(_) | Line::UpTo(_) | Line::Stop => true,
    }
}
