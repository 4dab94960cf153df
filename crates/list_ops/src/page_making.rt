//! How the op of a listing begins.

ghost use Rattle.std.specs.Prelude.{◌≡◌, ◌<◌, ℕ, [], IfOk, IsUtf8, string_bytes};
ghost use Rattle.bucket_book.specs.Name.{IsBucketName};
ghost use Rattle.desk_base.specs.Calls.{IsListAsk, IsVersionsAsk};
ghost use Rattle.desk_base.specs.declared.call.Call.TheVariants as call_of;
ghost use Rattle.op_steps.specs.Claims.{no_claim};
ghost use Rattle.list_ops.specs.Names.{front};
ghost use Rattle.list_ops.specs.OpStands.{IsListing, IsNewPage};

use crate::asked::Asked;
use crate::page_op::PageOp;
use crate::page_state::PageState;
use crate::target::Target;
use call_types::Key;
use desk_base::{Call, ListAsk, VersionsAsk};
use drive_base::SetPlan;
use fault_base::NoMemory;
use list_page::PageAsk;
use op_steps::Op;
use seal_file::Text;
use slot_history::{bucket_name, key_name};
use std::alloc::Global;

/// A copy of a text.
fn copy_of(alloc: Global, text: &Text) -> Result<Text, NoMemory>
    ensures { IfOk result (λ copy. copy ≡ text.now) }
{
    Text::from_slice(alloc, text.as_slice())
}

/// A copy of a text, where there is one.
fn copy_if_any(alloc: Global, text: &Option<Text>) -> Result<Option<Text>, NoMemory>
    ensures { IfOk result (λ copy. copy ≡ text.now) }
{
    match text {
        None => Ok(None),
        Some(text) => Ok(Some(copy_of(alloc, text)?)),
    }
}

/// A copy of what ListObjectsV2 asks for.
fn copy_keys(alloc: Global, ask: &ListAsk) -> Result<ListAsk, NoMemory>
    ensures { IfOk result (λ copy. copy ≡ ask.now) }
{
    let prefix = copy_of(alloc, &ask.prefix)?;
    let delimiter = copy_of(alloc, &ask.delimiter)?;
    let start_after = copy_if_any(alloc, &ask.start_after)?;
    let token = copy_if_any(alloc, &ask.token)?;
    Ok(ListAsk {
        prefix,
        delimiter,
        most: ask.most,
        encoded: ask.encoded,
        start_after,
        token,
    })
}

/// A copy of what ListObjectVersions asks for.
fn copy_versions(alloc: Global, ask: &VersionsAsk) -> Result<VersionsAsk, NoMemory>
    ensures { IfOk result (λ copy. copy ≡ ask.now) }
{
    let prefix = copy_of(alloc, &ask.prefix)?;
    let delimiter = copy_of(alloc, &ask.delimiter)?;
    let key_marker = copy_if_any(alloc, &ask.key_marker)?;
    Ok(VersionsAsk {
        prefix,
        delimiter,
        most: ask.most,
        encoded: ask.encoded,
        key_marker,
        id_marker: ask.id_marker,
    })
}

/// With what the names of the registers of a bucket's keys begin: the name of the register that an empty key would have.
fn begin_of(alloc: Global, bucket: &Text) -> Result<String, NoMemory>
    requires { IsUtf8 bucket.now }
    ensures { IfOk result (λ begin. string_bytes begin ≡ front bucket.now) }
{
    let at = Key {
        bucket: copy_of(alloc, bucket)?,
        key: Text::from_slice(alloc, b"")?,
    };
    key_name(alloc, &at)
}

impl PageOp {
    /// The op of a listing of a bucket, made in this Unix second, on a store over this set. It has done nothing yet.
    pub fn new(alloc: Global, set: SetPlan, call: &Call, now: u64) -> Result<PageOp, NoMemory>
        requires { IsListing call.now }
        ensures set { IfOk result (λ op. ⟦<PageOp as Op>⟧.set op ≡ set) }
        ensures task { IfOk result (λ op. ⟦<PageOp as Op>⟧.asked op ≡ record { call = call.now; now = now }) }
        ensures taken { IfOk result (λ op. ⟦<PageOp as Op>⟧.taken op ≡ 0) }
        ensures begins { IfOk result (λ op. (slot : ℕ) × (slot < 64) × ⟦<PageOp as Op>⟧.stands op (no_claim slot) []) }
    {
        match call {
            Call::List2 { bucket, page } => PageOp::of_keys(alloc, set, bucket, page, now),
            Call::ListVersions { bucket, page } => {
                PageOp::of_versions(alloc, set, bucket, page, now)
            }
            _ => Err(NoMemory),
        }
    }

    /// The op of a ListObjectsV2.
    fn of_keys(
        alloc: Global,
        set: SetPlan,
        bucket: &Text,
        page: &ListAsk,
        now: u64,
    ) -> Result<PageOp, NoMemory>
        requires bucket { IsBucketName bucket.now }
        requires page { IsListAsk page.now }
        ensures { IfOk result (IsNewPage set (call_of.List2 bucket.now page.now) now) }
    {
        let begin = begin_of(alloc, bucket)?;
        let name = bucket_name(alloc, bucket)?;
        let own = copy_of(alloc, bucket)?;
        let asked = copy_keys(alloc, page)?;
        let ask = PageAsk::of_keys(alloc, page)?;
        let target = Target {
            ask,
            bucket: own,
            begin,
        };
        Ok(PageOp {
            set,
            asked: Asked::Keys(asked),
            now,
            name,
            target,
            state: PageState::Looking,
        })
    }

    /// The op of a ListObjectVersions.
    fn of_versions(
        alloc: Global,
        set: SetPlan,
        bucket: &Text,
        page: &VersionsAsk,
        now: u64,
    ) -> Result<PageOp, NoMemory>
        requires bucket { IsBucketName bucket.now }
        requires page { IsVersionsAsk page.now }
        ensures { IfOk result (IsNewPage set (call_of.ListVersions bucket.now page.now) now) }
    {
        let begin = begin_of(alloc, bucket)?;
        let name = bucket_name(alloc, bucket)?;
        let own = copy_of(alloc, bucket)?;
        let asked = copy_versions(alloc, page)?;
        let ask = PageAsk::of_versions(alloc, page)?;
        let target = Target {
            ask,
            bucket: own,
            begin,
        };
        Ok(PageOp {
            set,
            asked: Asked::Versions(asked),
            now,
            name,
            target,
            state: PageState::Looking,
        })
    }
}
