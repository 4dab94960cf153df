//! What a deed does to the content of its register.

ghost use Rattle.std.specs.Prelude.{◌≡◌, ◌≢◌, ℕ, false, true, IfOk, IfSome, List, [], MatchOption, Some, None};
ghost use Rattle.std.specs.List.{flat_map};
ghost use Rattle.stamp_id.specs.VersionId.{id_bytes};
ghost use Rattle.stamp_id.specs.declared.version.VersionId.{VersionId};
ghost use Rattle.call_types.specs.declared.names.Key.{Key};
ghost use Rattle.call_types.specs.Refusals.{refusal_of};
ghost use Rattle.bucket_book.specs.Content.{IsCanonicalRow, content_of};
ghost use Rattle.bucket_book.specs.Step.{IsLawful as IsLawfulBucketAct};
ghost use Rattle.bucket_book.specs.Table.{IsCanonical as IsCanonicalRecord};
ghost use Rattle.version_list.specs.Lawful.{IsLawful};
ghost use Rattle.version_list.specs.NamesId.{names_id};
ghost use Rattle.version_list.specs.Spelling.{spelling};
ghost use Rattle.version_list.specs.State.{IsCanonical, IsMoment};
ghost use Rattle.upload_book.specs.Content.{IsCanonicalRow as IsPartRow};
ghost use Rattle.upload_book.specs.Storing.{stored_at};
ghost use Rattle.slot_history.specs.Contents.{SpellsBucket, SpellsKey, SpellsPart};
ghost use Rattle.slot_rules.specs.Planning.{Applies, IsBucketDeed, IsPlanned, SpellsStored};
ghost use Rattle.slot_rules.specs.declared.commit.Commit.{Commit};

use bucket_book::{BucketAct, BucketRecord, BucketStep};
use call_types::{Act, Brief, Etag, KeyRefusal, Mode, PartRecord, Refusal, Reply};
use fault_base::NoMemory;
use seal_file::Bytes;
use stamp_id::VersionId;
use std::alloc::Global;
use version_list::{ActFault, Applied, KeyState, state_laws};

/// What a deed does to the content of its register.
#[derive(Drop)]
pub struct Planned {
    /// What it is replied.
    pub reply: Reply,
    /// Why the state of the key refuses it, where it does.
    pub refused: Option<KeyRefusal>,
    /// The content that it leaves, none where it leaves the old one.
    pub content: Option<Bytes>,
    /// The data that the register doesn't name any more.
    pub gone: Vec<VersionId>,
}

/// What an act does to a key of this state, under this id.
pub fn plan_key(
    alloc: Global,
    state: &KeyState,
    mode: Mode,
    act: &Act,
    id: VersionId,
    now: u64,
) -> Result<Planned, NoMemory>
    requires canonical { IsCanonical state.now }
    requires fresh { names_id id state.now ≡ false }
    requires moment { IsMoment now }
    requires lawful { IsLawful act.now }
    ensures { (at : Key) (content : List ℕ) → SpellsKey content state.now → IfOk result (λ planned. IsPlanned (Commit.Key at mode act.now) now id content planned) }
{
    state_laws();
    match version_list::apply(alloc, state, mode, act, id, now) {
        Ok(applied) => plan_applied(alloc, applied),
        Err(ActFault::Refused(why)) => Ok(refused(alloc, why)),
        Err(ActFault::NoMemory) => Err(NoMemory),
    }
}

/// A refusal by the state of a key, which leaves it.
fn refused(alloc: Global, why: KeyRefusal) -> Planned
    ensures reply { result.reply ≡ Reply.Refused (refusal_of why) }
    ensures refused { result.refused ≡ Some why }
    ensures content { result.content ≡ None }
    ensures gone { result.gone.items ≡ [] }
{
    Planned {
        reply: Reply::Refused(Refusal::from(why)),
        refused: Some(why),
        content: None,
        gone: Vec::new(alloc),
    }
}

/// What an act that is done does.
fn plan_applied(alloc: Global, applied: Applied) -> Result<Planned, NoMemory>
    requires done { (reply : Reply) × (applied.done ≡ Brief.Answer reply) }
    requires canonical { IfSome applied.state IsCanonical }
    ensures { IfOk result (λ planned. Applies applied planned) }
{
    let Applied { state, done, gone } = applied;
    let Brief::Answer(reply) = done else {
        unreachable!()
    };
    let content = match spelled(alloc, &state) {
        Ok(content) => content,
        Err(why) => {
            drop(state);
            drop(reply);
            return Err(why);
        }
    };
    drop(state);
    match ids_of(alloc, gone.as_slice()) {
        Ok(gone) => Ok(Planned {
            reply,
            refused: None,
            content,
            gone,
        }),
        Err(why) => {
            drop(reply);
            Err(why)
        }
    }
}

/// The content of a new state, where there is one.
fn spelled(alloc: Global, state: &Option<KeyState>) -> Result<Option<Bytes>, NoMemory>
    requires { IfSome state.now IsCanonical }
    ensures { IfOk result (λ content. MatchOption state.now (content ≡ None) (λ new. content ≡ Some (spelling new))) }
{
    match state {
        None => Ok(None),
        Some(state) => {
            let content = version_list::write(alloc, state)?;
            Ok(Some(Bytes::from_vec(content)))
        }
    }
}

/// The ids with these bytes, 16 each. Bytes of no id are passed over.
fn ids_of(alloc: Global, bytes: &[u8]) -> Result<Vec<VersionId>, NoMemory>
    ensures { (ids : List VersionId) → bytes.now ≡ flat_map id_bytes ids → IfOk result (λ read. read.items ≡ ids) }
{
    let mut ids = Vec::new(alloc);
    let mut left = bytes;
    while let Some((first, rest)) = left.split_first_chunk::<16>() {
        if let Ok(id) = VersionId::from_bytes(*first) {
            ids.push(id)?;
        }
        left = rest;
    }
    Ok(ids)
}

/// What an act does to a bucket, or to none.
pub fn plan_bucket(
    alloc: Global,
    row: &Option<BucketRecord>,
    act: BucketAct,
    now: u64,
) -> Result<Planned, NoMemory>
    requires canonical { IsCanonicalRow row.now }
    requires moment { IsMoment now }
    requires lawful { IsLawfulBucketAct act }
    ensures { (deed : Commit) (id : VersionId) (content : List ℕ) → IsBucketDeed deed act → SpellsBucket content row.now
        → IfOk result (λ planned. IsPlanned deed now id content planned) }
{
    bucket_book::row_laws();
    let BucketStep { changed, reply } = bucket_book::apply(row, act, now);
    match spelled_row(alloc, changed) {
        Ok(content) => Ok(Planned {
            reply,
            refused: None,
            content,
            gone: Vec::new(alloc),
        }),
        Err(why) => {
            drop(reply);
            Err(why)
        }
    }
}

/// The content of a bucket's record, where there is one.
fn spelled_row(alloc: Global, changed: Option<BucketRecord>) -> Result<Option<Bytes>, NoMemory>
    requires { IfSome changed IsCanonicalRecord }
    ensures { IfOk result (λ content. MatchOption changed (content ≡ None) (λ there. content ≡ Some (content_of (Some there)))) }
{
    match changed {
        None => Ok(None),
        Some(there) => {
            let content = bucket_book::write(alloc, &Some(there))?;
            Ok(Some(Bytes::from_vec(content)))
        }
    }
}

/// What the store of a part of an open upload does to the part of its number, or to none.
pub fn plan_part(
    alloc: Global,
    row: &Option<PartRecord>,
    part: &PartRecord,
    now: u64,
) -> Result<Planned, NoMemory>
    requires canonical { IsPartRow row.now }
    requires moment { IsMoment now }
    ensures { (at : Key) (upload : VersionId) (number : ℕ) (id : VersionId) (content : List ℕ) → SpellsPart content row.now
        → IfOk result (λ planned. IsPlanned (Commit.Part at upload number part.now) now id content planned) }
{
    upload_book::row_laws();
    let stored = stored_at(*part, now);
    let content = spelled_part(alloc, row, stored)?;
    Ok(Planned {
        reply: Reply::Stored {
            etag: Etag {
                md5: part.md5,
                parts: 0,
            },
            id: None,
        },
        refused: None,
        content,
        gone: Vec::new(alloc),
    })
}

/// A part that is stored in this second.
fn stored_at(part: PartRecord, now: u64) -> PartRecord
    requires moment { IsMoment now }
    ensures value { result ≡ stored_at part now }
    ensures canonical { IsPartRow (Some result) }
{
    let PartRecord {
        data_id,
        print,
        length,
        md5,
        ..
    } = part;
    PartRecord {
        data_id,
        print,
        length,
        md5,
        modified: now,
    }
}

/// Whether a register has this part.
fn is_stored(row: &Option<PartRecord>, stored: &PartRecord) -> bool
    ensures yes { result ≡ true → row.now ≡ Some stored.now }
    ensures no { result ≡ false → row.now ≢ Some stored.now }
{
    match row {
        None => false,
        Some(there) => *there == *stored,
    }
}

/// The content of a part that is stored, none where the register has it already.
fn spelled_part(
    alloc: Global,
    row: &Option<PartRecord>,
    stored: PartRecord,
) -> Result<Option<Bytes>, NoMemory>
    requires { IsPartRow (Some stored) }
    ensures { IfOk result (λ content. SpellsStored row.now stored content) }
{
    if is_stored(row, &stored) {
        return Ok(None);
    }
    let content = upload_book::write(alloc, &Some(stored))?;
    Ok(Some(Bytes::from_vec(content)))
}
