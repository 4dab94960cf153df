//! The verdict over the lanes of a register.

ghost use Rattle.std.specs.Prelude.{◌≡◌, ◌≢◌, ◌⊎◌, ◌<◌, ◌≤◌, MatchBool, length};
ghost use Rattle.drive_base.specs.Plan.{data_drives, write_drives};
ghost use Rattle.vote_core.specs.Row.{base_height, next_height, base_change, next_change};
ghost use Rattle.vote_core.specs.Verdict.{VerdictRule, OnwardRule, IsGreatestBase, IsGreatestNext, good_rows, holders};

use crate::row::{Row, base_change, base_height, carries, next_change, next_height};
use drive_base::SetPlan;

/// What the rows of a register's lanes say.
#[derive(Clone, Copy, PartialEq, Eq)]
pub enum Verdict {
    /// Fewer rows are good than a read takes.
    TooFew {
        /// How many are good.
        good: u8,
    },
    /// The register has the base of a lane.
    Settled {
        /// The first lane with the greatest base.
        lane: u8,
    },
    /// A change may have taken effect already, so it is completed before anything else is done.
    Pending {
        /// The first lane with the greatest base.
        base_lane: u8,
        /// The first lane with the greatest next, whose change is pending.
        lane: u8,
        /// How many good rows have that change in base or next.
        k: u8,
        /// How many rows are not good.
        u: u8,
    },
}

/// What becomes of a pending change.
#[derive(Clone, Copy, PartialEq, Eq)]
pub enum Onward {
    /// It is completed.
    Forward,
    /// Its data can't be found now, so nothing can be said.
    Undecided,
}

/// The verdict over the rows of all lanes of a set. Of lanes with equal greatest ballots that of least index counts.
pub fn judge(set: &SetPlan, rows: &[Row]) -> Verdict
    requires { length rows.now ≡ set.now.drives }
    ensures { VerdictRule (write_drives set.now.drives set.now.parity) (data_drives set.now.drives set.now.parity) rows.now result }
{
    let good = count_good(rows);
    if good < set.read_quorum() {
        return Verdict::TooFew { good };
    }
    let base_lane = greatest_base(rows);
    let lane = greatest_next(rows);
    let k = count_holders(rows, next_change(rows[lane]));
    let u = set.drives - good;
    if is_settled(rows[base_lane], rows[lane], k + u, set.write_quorum()) {
        return Verdict::Settled {
            lane: base_lane as u8,
        };
    }
    Verdict::Pending {
        base_lane: base_lane as u8,
        lane: lane as u8,
        k,
        u,
    }
}

/// Whether the greatest base stands against the greatest next, whose change `most` lanes may have, where `quorum` lanes must take a write.
fn is_settled(base: Row, next: Row, most: u8, quorum: u8) -> bool
    ensures { MatchBool result
        ((next_height next ≤ base_height base) ⊎ ((next_change next ≡ base_change base) ⊎ (most < quorum)))
        ((base_height base < next_height next) × (next_change next ≢ base_change base) × (quorum ≤ most)) }
{
    next_height(next) <= base_height(base)
        || next_change(next) == base_change(base)
        || most < quorum
}

/// Whether a pending change is completed. `adds` says whether it adds data, and `there` on how many data drives a manifest of that data verified.
pub fn decide(set: &SetPlan, adds: bool, there: u8) -> Onward
    ensures { OnwardRule (data_drives set.now.drives set.now.parity) adds there result }
{
    if !adds || there >= set.read_quorum() {
        return Onward::Forward;
    }
    Onward::Undecided
}

/// How many rows are good.
fn count_good(rows: &[Row]) -> u8
    requires { length rows.now ≤ 16 }
    ensures count { result ≡ good_rows rows.now }
    ensures within { result ≤ length rows.now }
{
    let mut count = 0u8;
    for row in rows {
        if row.is_good() {
            count += 1;
        }
    }
    count
}

/// How many good rows have the change of this number in base or next.
fn count_holders(rows: &[Row], change: u128) -> u8
    requires { length rows.now ≤ 16 }
    ensures count { result ≡ holders change rows.now }
    ensures within { result ≤ length rows.now }
{
    let mut count = 0u8;
    for row in rows {
        if carries(*row, change) {
            count += 1;
        }
    }
    count
}

/// The first lane with the greatest base.
fn greatest_base(rows: &[Row]) -> usize
    requires { 0 < length rows.now }
    ensures { IsGreatestBase rows.now result }
{
    let mut best = 0;
    for lane in 1..rows.len() {
        if base_height(rows[lane]) > base_height(rows[best]) {
            best = lane;
        }
    }
    best
}

/// The first lane with the greatest next.
fn greatest_next(rows: &[Row]) -> usize
    requires { 0 < length rows.now }
    ensures { IsGreatestNext rows.now result }
{
    let mut best = 0;
    for lane in 1..rows.len() {
        if next_height(rows[lane]) > next_height(rows[best]) {
            best = lane;
        }
    }
    best
}
