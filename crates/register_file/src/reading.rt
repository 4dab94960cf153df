//! Taking the fields of a record.

ghost use Rattle.std.specs.Prelude.{◌≡◌, ◌<◌, ◌^◌, IfOk};
ghost use Rattle.std.specs.Option.{option_map};
ghost use Rattle.std.specs.Int.{w64};
ghost use Rattle.field_reader.specs.Format.{number, with_rule};
ghost use Rattle.field_reader.specs.Reading.{Gives, Takes};
ghost use Rattle.sealed_record.specs.Fields.{optional};
ghost use Rattle.register_file.specs.Rows.{ballot_row, change_row, base_row, adds_row, next_row, row_of};
ghost use Rattle.register_file.specs.Layout.{is_term, is_seq, is_same_stamp, stamp, content, base, adds, next, register};

use crate::record::{Adds, Base, Next, RegFile};
use field_reader::{Fields, Misspelled, ReadFault, refuse_unless};
use seal_file::Bytes;
use sealed_record::{take_flag, take_format};
use stamp_id::{Ballot, ChangeId, take_id};
use std::alloc::Global;

/// The terms are below this.
const TERM_LIMIT: u64 = 0x1_0000_0000_0000;

/// The sequence numbers are below this.
const SEQ_LIMIT: u64 = 0x4000_0000_0000_0000;

/// Takes a term.
fn take_term(fields: &mut Fields) -> Result<u64, Misspelled>
    ensures gives { Takes (λ term. term) result fields.new (with_rule is_term (number w64) fields.old) }
    ensures fits { IfOk result (λ term. term < 2 ^ 48) }
{
    let start = fields.at();
    let term = fields.take_u64()?;
    refuse_unless(term < TERM_LIMIT, start)?;
    Ok(term)
}

/// Takes a sequence number.
fn take_seq(fields: &mut Fields) -> Result<u64, Misspelled>
    ensures gives { Takes (λ seq. seq) result fields.new (with_rule is_seq (number w64) fields.old) }
    ensures fits { IfOk result (λ seq. seq < 2 ^ 62) }
{
    let start = fields.at();
    let seq = fields.take_u64()?;
    refuse_unless(seq < SEQ_LIMIT, start)?;
    Ok(seq)
}

/// Takes a ballot.
#[tactic(auto, unfolding(crate::specs::Layout::stamp))]
fn take_ballot(fields: &mut Fields) -> Result<Ballot, Misspelled>
    ensures { Takes ballot_row result fields.new (stamp fields.old) }
{
    let term = take_term(fields)?;
    let seq = take_seq(fields)?;
    Ok(Ballot { term, seq })
}

/// Takes a change.
fn take_change(fields: &mut Fields) -> Result<ChangeId, Misspelled>
    ensures { Takes change_row result fields.new (stamp fields.old) }
{
    Ok(ChangeId(take_ballot(fields)?))
}

/// Takes the parent of a next, which must be this change. Where it is another, the fault is at its start.
fn take_parent(fields: &mut Fields, change: ChangeId) -> Result<ChangeId, Misspelled>
    ensures { Takes change_row result fields.new (with_rule (is_same_stamp (change_row change)) stamp fields.old) }
{
    let start = fields.at();
    let parent = take_change(fields)?;
    let follows = change.0.term == parent.0.term && change.0.seq == parent.0.seq;
    refuse_unless(follows, start)?;
    Ok(parent)
}

/// Takes a content: its length, and its bytes.
#[tactic(auto, unfolding(sealed_record::specs::Fields::counted))]
fn take_content(alloc: Global, fields: &mut Fields) -> Result<Bytes, ReadFault>
    ensures { Gives (λ bytes. bytes) result fields.new (content fields.old) }
{
    let size = fields.take_u32()?;
    let bytes = fields.take_slice(size as usize)?;
    Ok(Bytes::from_vec(Vec::from_slice(alloc, bytes)?))
}

/// Takes a base.
#[tactic(auto, unfolding(crate::specs::Layout::base))]
fn take_base(alloc: Global, fields: &mut Fields) -> Result<Base, ReadFault>
    ensures { Gives base_row result fields.new (base fields.old) }
{
    let ballot = take_ballot(fields)?;
    let change = take_change(fields)?;
    let content = take_content(alloc, fields)?;
    Ok(Base {
        ballot,
        change,
        content,
    })
}

/// Takes the data that a change adds.
#[tactic(auto, unfolding(crate::specs::Layout::adds))]
fn take_adds(fields: &mut Fields) -> Result<Adds, Misspelled>
    ensures { Takes adds_row result fields.new (adds fields.old) }
{
    let id = take_id(fields)?;
    let print = fields.take_bytes()?;
    Ok(Adds { id, print })
}

/// Takes a flag and the data that a change adds, if any.
#[tactic(auto, unfolding(sealed_record::specs::Fields::optional))]
fn take_optional_adds(fields: &mut Fields) -> Result<Option<Adds>, Misspelled>
    ensures { Takes (option_map adds_row) result fields.new (optional adds fields.old) }
{
    if !take_flag(fields)? {
        return Ok(None);
    }
    Ok(Some(take_adds(fields)?))
}

/// Takes a next whose parent must be this change.
#[tactic(auto, unfolding(crate::specs::Layout::next))]
fn take_next(alloc: Global, fields: &mut Fields, change: ChangeId) -> Result<Next, ReadFault>
    ensures { Gives next_row result fields.new (next (change_row change) fields.old) }
{
    let ballot = take_ballot(fields)?;
    let own = take_change(fields)?;
    let parent = take_parent(fields, change)?;
    let adds = take_optional_adds(fields)?;
    let content = take_content(alloc, fields)?;
    Ok(Next {
        ballot,
        change: own,
        parent,
        adds,
        content,
    })
}

/// Takes a flag and a next whose parent must be this change, if any.
#[tactic(auto, unfolding(sealed_record::specs::Fields::optional))]
fn take_optional_next(
    alloc: Global,
    fields: &mut Fields,
    change: ChangeId,
) -> Result<Option<Next>, ReadFault>
    ensures { Gives (option_map next_row) result fields.new (optional (next (change_row change)) fields.old) }
{
    if !take_flag(fields)? {
        return Ok(None);
    }
    Ok(Some(take_next(alloc, fields, change)?))
}

/// Takes a record.
#[tactic(auto, unfolding(crate::specs::Layout::register))]
pub(crate) fn take_record(alloc: Global, fields: &mut Fields) -> Result<RegFile, ReadFault>
    ensures { Gives row_of result fields.new (register fields.old) }
{
    take_format(fields)?;
    let base = take_base(alloc, fields)?;
    let next = take_optional_next(alloc, fields, base.change)?;
    Ok(RegFile { base, next })
}
