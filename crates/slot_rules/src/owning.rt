//! A section's own change: its id, its numbers and its files.

ghost use Rattle.std.specs.Prelude.{◌≡◌, ◌+◌, ◌<◌, ◌≤◌, ◌^◌, IfOk, Some, length};
ghost use Rattle.sealed_record.specs.Fields.{IfThere};
ghost use Rattle.register_file.specs.Record.{AddsPrint, IsCanonicalNext};
ghost use Rattle.slot_rules.specs.Owning.{IsDraftable, IsOwnDraft, IsOwnId, OwnLeaves, again_takes, id_over, life_at, own_seq};
ghost use Rattle.slot_rules.specs.Planning.{act_adds, adds_of, most_for};
ghost use Rattle.slot_rules.specs.Owning.{base_after};

use crate::commit::Commit;
use crate::numbers::next_ballot;
use crate::ready::Ready;
use crate::site::{Drawn, Site};
use call_types::Act;
use fault_base::NoMemory;
use register_core::{Draft, draft_after, draft_change};
use register_file::{Adds, Next};
use seal_file::Bytes;
use stamp_id::{Ballot, ChangeId, VersionId};
use std::alloc::Global;

/// A change of a section's own, with its files.
#[derive(Drop)]
pub struct Own {
    /// The change.
    pub change: ChangeId,
    /// The sequence number of its ballot.
    pub seq: u64,
    /// Its files.
    pub draft: Draft,
}

/// The ids that a section's own change may have.
#[derive(Clone, Copy)]
pub struct OwnIds {
    /// The one that it has where nothing is pending.
    pub alone: VersionId,
    /// The one that it has where a pending change is completed first.
    pub after: VersionId,
}

/// The ids that a section's own change may have: that of the put which it ends, or of the slot's next two numbers.
pub fn own_ids(site: &Site, drawn: &Drawn, put: Option<VersionId>) -> OwnIds
    requires seq { drawn.now.seq + 2 < 2 ^ 62 }
    ensures alone { IsOwnId (life_at site.now) drawn.now.seq put result.alone }
    ensures after { IsOwnId (life_at site.now) (drawn.now.seq + 1) put result.after }
{
    OwnIds {
        alone: own_id(site, drawn.seq, put),
        after: own_id(site, drawn.seq + 1, put),
    }
}

/// The id of a section's own change, where the last number drawn is this one.
fn own_id(site: &Site, last: u64, put: Option<VersionId>) -> VersionId
    requires seq { last + 1 < 2 ^ 62 }
    ensures { IsOwnId (life_at site.now) last put result }
{
    match put {
        None => VersionId::from_parts(ChangeId(next_ballot(site.term, last)), site.index),
        Some(id) => VersionId::from_parts(id.change, site.index),
    }
}

/// The id that it has, by what is completed first.
pub fn id_over(ids: &OwnIds, ready: &Ready) -> VersionId
    ensures { result ≡ id_over ids.now ready.now.first }
{
    match &ready.first {
        None => ids.alone,
        Some(_) => ids.after,
    }
}

/// The last sequence number that is drawn once what is pending is completed.
pub fn last_over(drawn: &Drawn, ready: &Ready) -> u64
    requires { drawn.now.seq + 1 < 2 ^ 62 }
    ensures { result ≡ drawn.now.seq + again_takes ready.now.first }
{
    match &ready.first {
        None => drawn.seq,
        Some(_) => drawn.seq + 1,
    }
}

/// The sequence number of the ballot of a section's own change, where the last number drawn is this one.
fn ballot_seq(last: u64, put: Option<VersionId>) -> u64
    requires { last + 2 < 2 ^ 62 }
    ensures { result ≡ own_seq last put }
{
    match put {
        None => last + 2,
        Some(_) => last + 1,
    }
}

/// The data that a deed adds.
fn adds_of(deed: &Commit) -> Option<Adds>
    ensures adds { result ≡ adds_of deed.now }
    ensures print { IfThere AddsPrint result }
{
    match deed {
        Commit::Key { act, .. } => adds_of_act(act),
        Commit::Part { part, .. } => Some(adding(part.data_id, part.print)),
        Commit::MakeBucket(_) => None,
        Commit::SetMode(_, _) => None,
    }
}

/// The data that an act adds.
fn adds_of_act(act: &Act) -> Option<Adds>
    ensures adds { result ≡ act_adds act.now }
    ensures print { IfThere AddsPrint result }
{
    match act {
        Act::Put { data_id, print, .. } => Some(adding(*data_id, *print)),
        Act::Delete(_) => None,
        Act::Create { .. } => None,
        Act::Complete { data_id, print, .. } => Some(adding(*data_id, *print)),
        Act::Abort { .. } => None,
    }
}

/// Data of this id and this print.
fn adding(id: VersionId, print: [u8; 32]) -> Adds
    ensures adds { result ≡ record { id = id; print = print } }
    ensures print { AddsPrint result }
{
    Adds { id, print }
}

/// The change of the base over which a section's own change is drafted.
fn parent_of(ready: &Ready) -> ChangeId
    ensures { result ≡ (base_after ready.now.looked.base ready.now.first).change }
{
    match &ready.first {
        None => ready.looked.base.change,
        Some(first) => first.value.change,
    }
}

/// The draft of a change of one's own over what a look settled, or over what is completed first.
fn draft_own(alloc: Global, ready: &Ready, own: &Next) -> Result<Draft, NoMemory>
    requires draftable { IsDraftable ready.now.looked ready.now.first }
    requires next { IsCanonicalNext (base_after ready.now.looked.base ready.now.first).change own.now }
    requires within { length own.now.content ≤ ready.now.looked.longest }
    ensures { IfOk result (λ draft. IsOwnDraft ready.now.looked ready.now.first own.now draft) }
{
    match &ready.first {
        None => draft_change(alloc, &ready.looked, own),
        Some(first) => draft_after(alloc, first, own),
    }
}

/// A change under the ballot of this term and this sequence number.
fn next_of(
    term: u64,
    seq: u64,
    change: ChangeId,
    parent: ChangeId,
    adds: Option<Adds>,
    content: Bytes,
) -> Next
    requires term { term < 2 ^ 48 }
    requires seq { seq < 2 ^ 62 }
    ensures term { result.ballot.term ≡ term }
    ensures seq { result.ballot.seq ≡ seq }
    ensures change { result.change ≡ change }
    ensures parent { result.parent ≡ parent }
    ensures adds { result.adds ≡ adds }
    ensures content { result.content ≡ content }
{
    Next {
        ballot: Ballot { term, seq },
        change,
        parent,
        adds,
        content,
    }
}

/// The own change of a deed that leaves this content, with its files. Nothing is written, and no number is drawn.
pub(crate) fn own_of(
    alloc: Global,
    site: &Site,
    last: u64,
    ready: &Ready,
    deed: &Commit,
    put: Option<VersionId>,
    id: VersionId,
    content: Bytes,
) -> Result<Own, NoMemory>
    requires seq { last + 2 < 2 ^ 62 }
    requires draftable { IsDraftable ready.now.looked ready.now.first }
    requires id { IsOwnId (life_at site.now) last put id }
    requires short { length content ≤ most_for deed.now }
    requires within { most_for deed.now ≤ ready.now.looked.longest }
    ensures change { IfOk result (λ own. own.change ≡ id.change) }
    ensures own { OwnLeaves site.now last ready.now deed.now put id content result }
{
    let seq = ballot_seq(last, put);
    let parent = parent_of(ready);
    let adds = adds_of(deed);
    let next = next_of(site.term, seq, id.change, parent, adds, content);
    let draft = draft_own(alloc, ready, &next)?;
    Ok(Own {
        change: id.change,
        seq,
        draft,
    })
}
