//! Where a section is done, the numbers that it draws, and what a commit is asked.

ghost use Rattle.std.specs.Prelude.{◌<◌, ◌≤◌, ◌^◌};
ghost use Rattle.version_list.specs.State.{IsMoment};

use drive_base::SetPlan;
use stamp_id::VersionId;

/// Where a section is done: the slot, its set and its turn.
#[derive(Clone, Copy)]
pub struct Site {
    /// The set, with the drives that are out.
    pub set: SetPlan,
    /// The slot's index.
    pub index: u8,
    /// The term of its life.
    pub term: u64,
    /// How many sections were done before.
    pub turns: u64,
    pub ghost index_fits: { index < 64 },
    pub ghost term_counts: { 1 ≤ term },
    pub ghost term_fits: { term < 2 ^ 48 },
}

/// The numbers that a slot drew so far.
#[derive(Clone, Copy)]
pub struct Drawn {
    /// The last sequence number.
    pub seq: u64,
    /// The number of the next loose name.
    pub count: u64,
}

/// What a commit is asked beside its deed.
#[derive(Clone, Copy)]
pub struct Ask {
    /// Where its section is done.
    pub site: Site,
    /// The put that it ends, if it ends one.
    pub put: Option<VersionId>,
    /// When it is done.
    pub moment: u64,
    /// How many ids the trash keeps room for, beside those that the commit puts there.
    pub spare: usize,
    pub ghost moment_is: { IsMoment moment },
    pub ghost spare_fits: { spare < 2 ^ 63 },
}
