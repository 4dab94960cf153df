//! What a call that changes a bucket does after its document, and after its commit.

ghost use Rattle.std.specs.Prelude.{◌≡◌, ◌≤◌, true, IfOk, length};
ghost use Rattle.bucket_ops.specs.Changes.{AfterCommit, AfterDocument, barred_state};
ghost use Rattle.bucket_ops.specs.Deeds.{AreLow, is_asked};
ghost use Rattle.slot_rules.specs.declared.commit.Commit.TheVariants.{MakeBucket, SetMode};

use crate::change_state::{BucketDeed, ChangeState};
use call_types::{Cut, Mode, Refusal, Reply};
use fault_base::NoMemory;
use op_steps::call_refusal;
use receipts::Barred;
use s3_docs::{DocFault, read_versioning};
use seal_file::Text;
use slot_core::{Commit, Committed, SlotFault};
use std::alloc::Global;

/// How far a call is whose commit can't be done.
pub(crate) fn barred_state(why: Barred) -> ChangeState
    ensures { result ≡ barred_state why }
{
    match why {
        Barred::Spent => ChangeState::Telling(Reply::Refused(Refusal::SeqSpent)),
        Barred::NoMemory => ChangeState::Over(Some(Cut::NoMemory)),
    }
}

/// The deed that makes a bucket.
pub(crate) fn make_deed(alloc: Global, bucket: &Text) -> Result<BucketDeed, NoMemory>
    requires low { AreLow bucket.now }
    requires short { length bucket.now ≤ 63 }
    ensures { IfOk result (λ deed. deed.commit ≡ MakeBucket bucket.now) }
{
    let bucket = Text::from_slice(alloc, bucket.as_slice())?;
    Ok(BucketDeed {
        commit: Commit::MakeBucket(bucket),
    })
}

/// The deed that sets a bucket's mode.
fn mode_deed(alloc: Global, bucket: &Text, mode: Mode) -> Result<BucketDeed, NoMemory>
    requires low { AreLow bucket.now }
    requires short { length bucket.now ≤ 63 }
    requires mode { is_asked mode ≡ true }
    ensures { IfOk result (λ deed. deed.commit ≡ SetMode bucket.now mode) }
{
    let bucket = Text::from_slice(alloc, bucket.as_slice())?;
    Ok(BucketDeed {
        commit: Commit::SetMode(bucket, mode),
    })
}

/// What a call does once its document is whole: it commits the mode that the document says, or tells where it stops to be one.
pub(crate) fn after_document(alloc: Global, bucket: &Text, document: &[u8]) -> ChangeState
    requires low { AreLow bucket.now }
    requires short { length bucket.now ≤ 63 }
    ensures { AfterDocument bucket.now document.now result }
{
    match read_versioning(document) {
        Ok(mode) => match mode_deed(alloc, bucket, mode) {
            Ok(deed) => ChangeState::Committing(deed),
            Err(_) => ChangeState::Over(Some(Cut::NoMemory)),
        },
        Err(DocFault::MalformedXML(place)) => {
            ChangeState::Telling(Reply::Refused(Refusal::MalformedXML(place)))
        }
        Err(DocFault::NoMemory) => ChangeState::Over(Some(Cut::NoMemory)),
    }
}

/// What it does after its commit: it tells the reply or the refusal. Want of memory has none.
pub(crate) fn after_commit(answer: Result<Committed, SlotFault>) -> ChangeState
    ensures { AfterCommit answer result }
{
    match answer {
        Ok(made) => ChangeState::Telling(made.done),
        Err(fault) => match call_refusal(&fault) {
            Some(why) => ChangeState::Telling(Reply::Refused(why)),
            None => ChangeState::Over(Some(Cut::NoMemory)),
        },
    }
}
