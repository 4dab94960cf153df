//! Steps on the register of a bucket.

ghost use Rattle.std.specs.Prelude.{◌≡◌, ◌≢◌, ℕ, ◌<◌, Some, None, IfSome, MatchOption};
ghost use Rattle.bucket_book.specs.Content.{IsCanonicalRow};
ghost use Rattle.bucket_book.specs.Table.{IsCanonical};
ghost use Rattle.bucket_book.specs.Laws.{BucketsStay, StepsAreOne};
ghost use Rattle.bucket_book.specs.Step.{IsLawful, Serves, with_mode};
ghost use Rattle.bucket_book.specs.Limits.{moment_limit};

use crate::record::BucketRecord;
use call_types::{Mode, Refusal, Reply};

/// What a call does to a bucket, or asks of it.
#[derive(Clone, Copy, PartialEq, Eq)]
pub enum BucketAct {
    /// CreateBucket.
    Make,
    /// PutBucketVersioning: the mode is Enabled or Suspended.
    SetMode(Mode),
    /// HeadBucket.
    Head,
    /// GetBucketVersioning.
    GetMode,
}

/// What a step on a bucket leaves, and answers.
#[derive(Drop)]
pub struct BucketStep {
    /// The bucket that is made or changed, none where the register stays as it is.
    pub changed: Option<BucketRecord>,
    /// The reply.
    pub reply: Reply,
}

/// Does `act` to a bucket, or to none, in the Unix second `now`.
///
/// A Make answers `BucketThere` where there is a bucket, and the other acts answer `NoSuchBucket` where there is none;
/// nothing changes then. Nor does it where the bucket has the mode that is set.
pub fn apply(row: &Option<BucketRecord>, act: BucketAct, now: u64) -> BucketStep
    requires lawful { IsLawful act }
    ensures step { Serves row.now act now result }
    ensures canonical { IsCanonicalRow row.now → now < moment_limit → IfSome result.changed IsCanonical }
{
    match row {
        None => apply_to_none(act, now),
        Some(there) => apply_to(there, act),
    }
}

/// An answer that changes nothing.
fn answered(reply: Reply) -> BucketStep
    ensures changed { result.changed ≡ None }
    ensures reply { result.reply ≡ reply }
{
    BucketStep {
        changed: None,
        reply,
    }
}

/// The step where there is no bucket.
fn apply_to_none(act: BucketAct, now: u64) -> BucketStep
    ensures step { Serves None act now result }
    ensures canonical { now < moment_limit → IfSome result.changed IsCanonical }
{
    match act {
        BucketAct::Make => BucketStep {
            changed: Some(BucketRecord {
                created: now,
                mode: Mode::Never,
            }),
            reply: Reply::Plain,
        },
        BucketAct::SetMode(_) => answered(Reply::Refused(Refusal::NoSuchBucket)),
        BucketAct::Head => answered(Reply::Refused(Refusal::NoSuchBucket)),
        BucketAct::GetMode => answered(Reply::Refused(Refusal::NoSuchBucket)),
    }
}

/// The step of a bucket that is there.
fn apply_to(there: &BucketRecord, act: BucketAct) -> BucketStep
    ensures step { (now : ℕ) → Serves (Some there.now) act now result }
    ensures canonical { IsCanonical there.now → IfSome result.changed IsCanonical }
{
    match act {
        BucketAct::Make => answered(Reply::Refused(Refusal::BucketThere)),
        BucketAct::SetMode(mode) => BucketStep {
            changed: changed_mode(there, mode),
            reply: Reply::Plain,
        },
        BucketAct::Head => answered(Reply::Plain),
        BucketAct::GetMode => answered(Reply::Mode(there.mode)),
    }
}

/// The bucket with this mode, where it has another one.
fn changed_mode(there: &BucketRecord, mode: Mode) -> Option<BucketRecord>
    ensures { MatchOption result (there.now ≡ with_mode there.now mode) (λ new. (new ≡ with_mode there.now mode) × (Some new ≢ Some there.now)) }
{
    if there.mode == mode {
        return None;
    }
    Some(BucketRecord {
        created: there.created,
        mode,
    })
}

/// The laws of steps, for a caller's proof: a row, an act and a moment have one reply and one new row, and a bucket that
/// is there stays, with its moment, and never returns to the mode Never. It does nothing.
pub fn step_laws()
    ensures one { StepsAreOne }
    ensures stay { BucketsStay }
{}
