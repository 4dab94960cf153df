//! Putting the fields of a record.

ghost use Rattle.std.specs.Prelude.{◌≡◌, ◌+◌, ◌^◌, ◌<◌, ◌++◌, length, OnOk};
ghost use Rattle.std.specs.Option.{option_map};
ghost use Rattle.sealed_record.specs.Fields.{optional_bytes};
ghost use Rattle.register_file.specs.Rows.{ballot_row, change_row, base_row, adds_row, next_row};
ghost use Rattle.register_file.specs.Spelling.{stamp_bytes, content_bytes, base_bytes, adds_bytes, next_bytes, spelling};
ghost use Rattle.register_file.specs.Record.{IsContent, IsCanonical};
ghost use Rattle.register_file.specs.declared.record.Adds.{Adds};
ghost use Rattle.register_file.specs.declared.record.Next.{Next};

use crate::record::{Adds, Base, Next, RegFile};
use field_reader::{put_bytes, put_u8, put_u32, put_u64};
use seal_file::Bytes;
use stamp_id::Ballot;
use std::alloc::AllocError;

/// Appends a ballot, or that of a change.
fn put_ballot(out: &mut Vec<u8>, ballot: Ballot) -> Result<(), AllocError>
    ensures { OnOk result (out.new.items ≡ out.old.items ++ stamp_bytes (ballot_row ballot)) }
{
    put_u64(out, ballot.term)?;
    put_u64(out, ballot.seq)
}

/// Appends a content: its length, and its bytes.
fn put_content(out: &mut Vec<u8>, content: &Bytes) -> Result<(), AllocError>
    requires { IsContent content.now }
    ensures { OnOk result (out.new.items ≡ out.old.items ++ content_bytes content.now) }
{
    put_u32(out, content.len() as u32)?;
    put_bytes(out, content.as_slice())
}

/// Appends a base.
fn put_base(out: &mut Vec<u8>, base: &Base) -> Result<(), AllocError>
    requires { IsContent base.now.content }
    ensures { OnOk result (out.new.items ≡ out.old.items ++ base_bytes (base_row base.now)) }
{
    put_ballot(out, base.ballot)?;
    put_ballot(out, base.change.0)?;
    put_content(out, &base.content)
}

/// Appends what a change adds, after its flag.
fn put_adds(out: &mut Vec<u8>, adds: Option<Adds>) -> Result<(), AllocError>
    ensures { OnOk result (out.new.items ≡ out.old.items ++ optional_bytes adds_bytes (option_map adds_row adds)) }
{
    match adds {
        None => put_u8(out, 0),
        Some(adds) => {
            put_u8(out, 1)?;
            put_bytes(out, adds.id.bytes().as_slice())?;
            put_bytes(out, adds.print.as_slice())
        }
    }
}

/// Appends a next, without its flag.
fn put_next(out: &mut Vec<u8>, next: &Next) -> Result<(), AllocError>
    requires { IsContent next.now.content }
    ensures { OnOk result (out.new.items ≡ out.old.items ++ next_bytes (next_row next.now)) }
{
    put_ballot(out, next.ballot)?;
    put_ballot(out, next.change.0)?;
    put_ballot(out, next.parent.0)?;
    put_adds(out, next.adds)?;
    put_content(out, &next.content)
}

/// The bytes of a record with no content and no next.
const BASE_BYTES: usize = 38;

/// The bytes of a next with no content, but for what it adds.
const NEXT_BYTES: usize = 53;

/// The bytes of what a next adds, but for its flag.
const ADDS_BYTES: usize = 48;

/// The bytes of a next, where there is one, but for its flag.
#[tactic(auto, unfolding(field_reader::specs::Spelling::number_bytes, stamp_id::specs::VersionId::id_bytes))]
fn next_size(file: &RegFile) -> usize
    requires { IsCanonical file.now }
    ensures size { result + 1 ≡ length (optional_bytes next_bytes (option_map next_row file.now.next)) }
    ensures bound { result < 2 ^ 33 }
{
    match &file.next {
        None => 0,
        Some(next) => {
            let adds = if next.adds.is_some() { ADDS_BYTES } else { 0 };
            NEXT_BYTES + adds + next.content.len()
        }
    }
}

/// The bytes of the spelling of a record.
#[tactic(auto, unfolding(field_reader::specs::Spelling::number_bytes))]
pub(crate) fn spelling_size(file: &RegFile) -> usize
    requires { IsCanonical file.now }
    ensures { result ≡ length (spelling file.now) }
{
    BASE_BYTES + file.base.content.len() + next_size(file)
}

/// Appends the spelling of a record.
pub(crate) fn put_record(out: &mut Vec<u8>, file: &RegFile) -> Result<(), AllocError>
    requires { IsCanonical file.now }
    ensures { OnOk result (out.new.items ≡ out.old.items ++ spelling file.now) }
{
    put_u8(out, 1)?;
    put_base(out, &file.base)?;
    match &file.next {
        None => put_u8(out, 0),
        Some(next) => {
            put_u8(out, 1)?;
            put_next(out, next)
        }
    }
}
