//! What a read of a key begins with, and how it is planned.

ghost use Rattle.std.specs.Prelude.{◌≡◌, ◌∷◌, [], IfErr, IfOk, Err};
ghost use Rattle.version_list.specs.Reads.{Reads};
ghost use Rattle.version_list.specs.Step.{told as step_told};
ghost use Rattle.slot_history.specs.Contents.{IsVersionOf, NamedData};
ghost use Rattle.slot_history.specs.Doing.{body_length};
ghost use Rattle.slot_history.specs.Names.{key_name};
ghost use Rattle.slot_data.specs.Holding.Purpose.{ForRead};
ghost use Rattle.slot_data.specs.Rows.{pinned_of};
ghost use Rattle.slot_core.specs.ReadSection.{AreEntries, IsFound, PlansRead, found_reply, read_entry};

use crate::audit_entry::Entries;
use crate::holding::Pin;
use audit_trail::{Deed, Entry};
use call_types::{
    Brief, Key, KeyRefusal, Mode, Pick, Refusal, Reply, Span, Version, VersionName, What,
};
use fault_base::NoMemory;
use seal_file::Text;
use slot_data::{PinFor, PinRow};
use slot_rules::Site;
use stamp_id::VersionId;
use std::alloc::Global;
use version_list::{KeyState, find};

/// A version that was found, an object, and the pin of its data.
#[derive(Drop)]
pub struct ReadStart {
    /// The version.
    pub version: Version,
    /// The pin.
    pub pin: Pin,
}

/// What a read is asked beside its key.
#[derive(Clone, Copy)]
pub(crate) struct ReadAsk {
    /// Where its section is done.
    pub(crate) site: Site,
    /// The mode of the key's bucket.
    pub(crate) mode: Mode,
    /// The version that it names.
    pub(crate) pick: Pick,
}

/// What a read answers, with all that it takes memory for.
#[derive(Drop)]
pub(crate) enum ReadPlan {
    /// A version is given: the answer, the row of its pin, and the entries.
    Gives(ReadStart, PinRow, Entries),
    /// The state of the key refuses it; the entries.
    Refuses(KeyRefusal, Entries),
}

/// Plans a read of a key over its state. `name` is that of the key's register.
pub(crate) fn plan_read(
    alloc: Global,
    ask: &ReadAsk,
    name: &str,
    at: &Key,
    state: &KeyState,
) -> Result<ReadPlan, NoMemory>
    requires { name.now ≡ key_name at.now }
    ensures { IfOk result (λ plan. PlansRead ask.now.site.turns at.now ask.now.mode ask.now.pick state.now plan) }
{
    match version_found(state, &ask.pick) {
        Ok(version) => {
            let reply = reply_of(version, ask.mode)?;
            let entries = entries_of(alloc, ask, name, at, &reply)?;
            let start = ReadStart {
                version: version.clone()?,
                pin: Pin {
                    ticket: ask.site.turns,
                },
            };
            let row = row_of(alloc, &ask.site, name, data_of(version))?;
            Ok(ReadPlan::Gives(start, row, entries))
        }
        Err(why) => {
            let reply = Reply::Refused(Refusal::from(why));
            let entries = entries_of(alloc, ask, name, at, &reply)?;
            Ok(ReadPlan::Refuses(why, entries))
        }
    }
}

/// The version that a read gives.
fn version_found<'a>(state: &'a KeyState, pick: &Pick) -> Result<&'a Version, KeyRefusal>
    ensures found { IfOk result (λ version. IsFound state.now pick.now version.now) }
    ensures refused { IfErr result (λ why. Reads state.now.versions pick.now (Err why)) }
{
    match find(state, pick) {
        Ok(place) => Ok(&state.versions.as_slice()[place]),
        Err(why) => Err(why),
    }
}

/// The id of the data of a version that is an object.
fn data_of(version: &Version) -> VersionId
    requires { (named : NamedData) × IsVersionOf named version.now }
    ensures { (named : NamedData) × IsVersionOf named version.now × (named.id ≡ result) }
{
    let What::Object { data_id, .. } = &version.what else {
        unreachable!()
    };
    *data_id
}

/// The length of a version's body in bytes, 0 for a marker.
fn length_of(what: &What) -> u64
    ensures { result ≡ body_length what.now }
{
    match what {
        What::Marker => 0,
        What::Object { length, .. } => *length,
    }
}

/// The name that a reply tells of a version.
fn told(mode: Mode, name: VersionName) -> Option<VersionName>
    ensures { result ≡ step_told mode name }
{
    match mode {
        Mode::Never => None,
        Mode::Enabled => Some(name),
        Mode::Suspended => Some(name),
    }
}

/// The reply of a read that gives a version, whole.
fn reply_of(version: &Version, mode: Mode) -> Result<Reply, NoMemory>
    ensures { IfOk result (λ reply. reply ≡ found_reply mode version.now) }
{
    Ok(Reply::Found {
        version: version.clone()?,
        span: Span {
            at: 0,
            length: length_of(&version.what),
        },
        id: told(mode, version.id),
    })
}

/// The row of the pin of a read.
fn row_of(alloc: Global, site: &Site, name: &str, id: VersionId) -> Result<PinRow, NoMemory>
    ensures { IfOk result (λ row. pinned_of row ≡ record { ticket = site.now.turns; purpose = ForRead; name = name.now; ids = id ∷ [] }) }
{
    let name = Text::from_slice(alloc, name.as_bytes())?;
    let mut ids = Vec::new(alloc);
    ids.push(id)?;
    Ok(PinRow {
        ticket: site.turns,
        purpose: PinFor::Read,
        name,
        ids,
    })
}

/// The entries of a read with this reply.
fn entries_of(
    alloc: Global,
    ask: &ReadAsk,
    name: &str,
    at: &Key,
    reply: &Reply,
) -> Result<Entries, NoMemory>
    requires { name.now ≡ key_name at.now }
    ensures { IfOk result (λ entries. AreEntries (read_entry ask.now.site.turns at.now ask.now.mode ask.now.pick reply.now) entries) }
{
    let audit = entry_of(alloc, ask, name, at, reply)?;
    match entry_of(alloc, ask, name, at, reply) {
        Ok(stub) => Ok(Entries { audit, stub }),
        Err(why) => {
            drop(audit);
            Err(why)
        }
    }
}

fn entry_of(
    alloc: Global,
    ask: &ReadAsk,
    name: &str,
    at: &Key,
    reply: &Reply,
) -> Result<Entry, NoMemory>
    requires { name.now ≡ key_name at.now }
    ensures { IfOk result (λ entry. entry ≡ read_entry ask.now.site.turns at.now ask.now.mode ask.now.pick reply.now) }
{
    let name = Text::from_slice(alloc, name.as_bytes())?;
    let at = at.clone()?;
    let reply = reply.clone()?;
    Ok(Entry {
        ticket: ask.site.turns,
        late: None,
        name,
        deed: Deed::Done {
            call: Brief::Read {
                at,
                mode: ask.mode,
                pick: ask.pick,
            },
            reply: Brief::Answer(reply),
        },
    })
}
