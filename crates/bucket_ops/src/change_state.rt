//! How far a call is that changes a bucket.

ghost use Rattle.std.specs.Prelude.{◌≡◌, ◌≤◌, true, length};
ghost use Rattle.bucket_ops.specs.Deeds.{AreLow, bucket_in, is_on_bucket};

use call_types::{Cut, Reply};
use slot_core::Commit;

/// A deed on a bucket that can be committed: the mode that it sets, if it sets one, may be set, and its bucket has a lawful name.
#[derive(Drop)]
pub struct BucketDeed {
    /// The deed.
    pub(crate) commit: Commit,
    pub ghost on_bucket: { is_on_bucket commit ≡ true },
    pub ghost low: { AreLow (bucket_in commit) },
    pub ghost short: { length (bucket_in commit) ≤ 63 },
}

/// How far a call is that changes a bucket.
#[derive(Drop)]
pub enum ChangeState {
    /// The next bytes of its document come next.
    Reading,
    /// This is committed next.
    Committing(BucketDeed),
    /// This reply is told next.
    Telling(Reply),
    /// It is over, and was cut for this, if it was.
    Over(Option<Cut>),
}
