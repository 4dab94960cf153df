//! The line that words spell, kind by kind.

ghost use Rattle.std.specs.Prelude.{◌≡◌, IfOk, MatchOption, codes, true};
ghost use Rattle.drill_script.specs.Lines.{texts_of};
ghost use Rattle.drill_script.specs.Reads.{AreActorAndKey, AreActorAndVersion, IsActor, IsFuse, IsIndex, NamesNoActor, NamesNoFuse, NamesNoIndex, NamesNoKey, NamesNoVersion, ReadsAs};
ghost use Rattle.drill_script.specs.declared.kind.Kind.TheVariants as kind;

use crate::fields::{byte_of, mode_of, number_of, version_of};
use crate::kind::Kind;
use crate::line::Line;
use call_types::VersionName;
use fault_base::NoMemory;
use seal_file::Text;
use std::alloc::Global;

/// The line of a kind that these words spell behind the first, where they spell one.
pub fn line_of_kind(alloc: Global, kind: Kind, fields: &[&str]) -> Result<Option<Line>, NoMemory>
    ensures { IfOk result (ReadsAs kind (texts_of fields.now)) }
{
    match kind {
        Kind::Set => Ok(set_line(fields)),
        Kind::Put => put_line(alloc, fields),
        Kind::Fill => fill_line(alloc, fields),
        Kind::Get => get_line(alloc, fields),
        Kind::GetVersion => get_version_line(alloc, fields),
        Kind::Range => range_line(alloc, fields),
        Kind::Delete => delete_line(alloc, fields),
        Kind::DeleteVersion => delete_version_line(alloc, fields),
        Kind::Go => go_line(alloc, fields),
        Kind::Run => run_line(alloc, fields),
        Kind::UpTo => up_to_line(alloc, fields),
        Kind::Lose => Ok(lose_line(fields)),
        Kind::Back => Ok(back_line(fields)),
        Kind::Hurt => hurt_line(alloc, fields),
        Kind::Fuse => Ok(fuse_line(fields)),
        Kind::Stop => Ok(stop_line(fields)),
    }
}

/// A text of these bytes.
fn text_of(alloc: Global, word: &str) -> Result<Text, NoMemory>
    ensures { IfOk result (λ text. text ≡ word.now) }
{
    Text::from_slice(alloc, word.as_bytes())
}

/// An actor alone.
fn actor_in(alloc: Global, fields: &[&str]) -> Result<Option<Text>, NoMemory>
    ensures { IfOk result (λ found. MatchOption found (NamesNoActor (texts_of fields.now)) (IsActor (texts_of fields.now))) }
{
    let [actor] = fields else {
        return Ok(None);
    };
    Ok(Some(text_of(alloc, actor)?))
}

/// An actor and a key.
fn key_in(alloc: Global, fields: &[&str]) -> Result<Option<(Text, Text)>, NoMemory>
    ensures { IfOk result (λ found. MatchOption found (NamesNoKey (texts_of fields.now)) (λ at. AreActorAndKey (texts_of fields.now) at.0 at.1)) }
{
    let [actor, key] = fields else {
        return Ok(None);
    };
    Ok(Some((text_of(alloc, actor)?, text_of(alloc, key)?)))
}

/// An actor, a key and a version.
fn version_in(alloc: Global, fields: &[&str]) -> Result<Option<(Text, Text, VersionName)>, NoMemory>
    ensures { IfOk result (λ found. MatchOption found (NamesNoVersion (texts_of fields.now)) (λ at. AreActorAndVersion (texts_of fields.now) at.0 at.1 at.2)) }
{
    let [actor, key, id] = fields else {
        return Ok(None);
    };
    let Some(id) = version_of(id) else {
        return Ok(None);
    };
    Ok(Some((text_of(alloc, actor)?, text_of(alloc, key)?, id)))
}

/// The index of a drive alone.
fn index_in(fields: &[&str]) -> Option<u8>
    ensures { MatchOption result (NamesNoIndex (texts_of fields.now)) (IsIndex (texts_of fields.now)) }
{
    let [index] = fields else {
        return None;
    };
    byte_of(index)
}

/// `set N P MODE`
fn set_line(fields: &[&str]) -> Option<Line>
    ensures { ReadsAs kind.Set (texts_of fields.now) result }
{
    let [drives, parity, mode] = fields else {
        return None;
    };
    let Some(drives) = byte_of(drives) else {
        return None;
    };
    let Some(parity) = byte_of(parity) else {
        return None;
    };
    let Some(mode) = mode_of(mode) else {
        return None;
    };
    Some(Line::Set {
        drives,
        parity,
        mode,
    })
}

/// `put ACTOR KEY TEXT`
fn put_line(alloc: Global, fields: &[&str]) -> Result<Option<Line>, NoMemory>
    ensures { IfOk result (ReadsAs kind.Put (texts_of fields.now)) }
{
    let [actor, key, body] = fields else {
        return Ok(None);
    };
    Ok(Some(Line::Put {
        actor: text_of(alloc, actor)?,
        key: text_of(alloc, key)?,
        body: text_of(alloc, body)?,
    }))
}

/// `fill ACTOR KEY LENGTH`
fn fill_line(alloc: Global, fields: &[&str]) -> Result<Option<Line>, NoMemory>
    ensures { IfOk result (ReadsAs kind.Fill (texts_of fields.now)) }
{
    let [actor, key, length] = fields else {
        return Ok(None);
    };
    let Some(length) = number_of(length) else {
        return Ok(None);
    };
    Ok(Some(Line::Fill {
        actor: text_of(alloc, actor)?,
        key: text_of(alloc, key)?,
        length,
    }))
}

/// `get ACTOR KEY`
fn get_line(alloc: Global, fields: &[&str]) -> Result<Option<Line>, NoMemory>
    ensures { IfOk result (ReadsAs kind.Get (texts_of fields.now)) }
{
    match key_in(alloc, fields)? {
        Some((actor, key)) => Ok(Some(Line::Get { actor, key })),
        None => Ok(None),
    }
}

/// `getv ACTOR KEY ID`
fn get_version_line(alloc: Global, fields: &[&str]) -> Result<Option<Line>, NoMemory>
    ensures { IfOk result (ReadsAs kind.GetVersion (texts_of fields.now)) }
{
    match version_in(alloc, fields)? {
        Some((actor, key, id)) => Ok(Some(Line::GetVersion { actor, key, id })),
        None => Ok(None),
    }
}

/// `range ACTOR KEY A B`
fn range_line(alloc: Global, fields: &[&str]) -> Result<Option<Line>, NoMemory>
    ensures { IfOk result (ReadsAs kind.Range (texts_of fields.now)) }
{
    let [actor, key, from, to] = fields else {
        return Ok(None);
    };
    let Some(from) = number_of(from) else {
        return Ok(None);
    };
    let Some(to) = number_of(to) else {
        return Ok(None);
    };
    Ok(Some(Line::Range {
        actor: text_of(alloc, actor)?,
        key: text_of(alloc, key)?,
        from,
        to,
    }))
}

/// `del ACTOR KEY`
fn delete_line(alloc: Global, fields: &[&str]) -> Result<Option<Line>, NoMemory>
    ensures { IfOk result (ReadsAs kind.Delete (texts_of fields.now)) }
{
    match key_in(alloc, fields)? {
        Some((actor, key)) => Ok(Some(Line::Delete { actor, key })),
        None => Ok(None),
    }
}

/// `delv ACTOR KEY ID`
fn delete_version_line(alloc: Global, fields: &[&str]) -> Result<Option<Line>, NoMemory>
    ensures { IfOk result (ReadsAs kind.DeleteVersion (texts_of fields.now)) }
{
    match version_in(alloc, fields)? {
        Some((actor, key, id)) => Ok(Some(Line::DeleteVersion { actor, key, id })),
        None => Ok(None),
    }
}

/// `go ACTOR`
fn go_line(alloc: Global, fields: &[&str]) -> Result<Option<Line>, NoMemory>
    ensures { IfOk result (ReadsAs kind.Go (texts_of fields.now)) }
{
    match actor_in(alloc, fields)? {
        Some(actor) => Ok(Some(Line::Go(actor))),
        None => Ok(None),
    }
}

/// `run ACTOR`
fn run_line(alloc: Global, fields: &[&str]) -> Result<Option<Line>, NoMemory>
    ensures { IfOk result (ReadsAs kind.Run (texts_of fields.now)) }
{
    match actor_in(alloc, fields)? {
        Some(actor) => Ok(Some(Line::Run(actor))),
        None => Ok(None),
    }
}

/// `upto ACTOR`
fn up_to_line(alloc: Global, fields: &[&str]) -> Result<Option<Line>, NoMemory>
    ensures { IfOk result (ReadsAs kind.UpTo (texts_of fields.now)) }
{
    match actor_in(alloc, fields)? {
        Some(actor) => Ok(Some(Line::UpTo(actor))),
        None => Ok(None),
    }
}

/// `lose I`
fn lose_line(fields: &[&str]) -> Option<Line>
    ensures { ReadsAs kind.Lose (texts_of fields.now) result }
{
    match index_in(fields) {
        Some(index) => Some(Line::Lose(index)),
        None => None,
    }
}

/// `back I`
fn back_line(fields: &[&str]) -> Option<Line>
    ensures { ReadsAs kind.Back (texts_of fields.now) result }
{
    match index_in(fields) {
        Some(index) => Some(Line::Back(index)),
        None => None,
    }
}

/// `hurt I NAME PLACE`
fn hurt_line(alloc: Global, fields: &[&str]) -> Result<Option<Line>, NoMemory>
    ensures { IfOk result (ReadsAs kind.Hurt (texts_of fields.now)) }
{
    let [index, name, place] = fields else {
        return Ok(None);
    };
    let Some(index) = byte_of(index) else {
        return Ok(None);
    };
    let Some(place) = number_of(place) else {
        return Ok(None);
    };
    let name = text_of(alloc, name)?;
    Ok(Some(Line::Hurt { index, name, place }))
}

/// `fuse I K`, or `fuse I K late`
fn fuse_line(fields: &[&str]) -> Option<Line>
    ensures { ReadsAs kind.Fuse (texts_of fields.now) result }
{
    match fields {
        [index, calls] => fuse_of(index, calls, false),
        [index, calls, late] => late_fuse_of(index, calls, late),
        _ => None,
    }
}

/// `stop`
fn stop_line(fields: &[&str]) -> Option<Line>
    ensures { ReadsAs kind.Stop (texts_of fields.now) result }
{
    if fields.is_empty() {
        Some(Line::Stop)
    } else {
        None
    }
}

/// A fuse of an index and a number of calls.
fn fuse_of(index: &str, calls: &str, late: bool) -> Option<Line>
    ensures { MatchOption result (NamesNoFuse index.now calls.now) (IsFuse index.now calls.now late) }
{
    let Some(index) = byte_of(index) else {
        return None;
    };
    let Some(calls) = number_of(calls) else {
        return None;
    };
    Some(Line::Fuse { index, calls, late })
}

/// A fuse of an index, a number of calls and the word `late`.
fn late_fuse_of(index: &str, calls: &str, late: &str) -> Option<Line>
    ensures { MatchOption result (late.now ≡ codes "late" → NamesNoFuse index.now calls.now) (λ fuse. (late.now ≡ codes "late") × IsFuse index.now calls.now true fuse) }
{
    if late != "late" {
        return None;
    }
    fuse_of(index, calls, true)
}
