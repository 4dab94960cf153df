//! Mending: the value, without a next, on every lane that has anything else.

ghost use Rattle.std.specs.Prelude.{◌≡◌, ◌↔◌, ◌+◌, ◌<◌, ◌≤◌, ◌^◌, IsTrue, length, string_bytes, string_len};
ghost use Rattle.std.specs.Int.{IsBitSet};
ghost use Rattle.drive_base.specs.View.{AllGoOn, views};
ghost use Rattle.call_types.specs.declared.why.Why.TheVariants.{Good};
ghost use Rattle.register_core.specs.LaneWrites.{KeepsOthers, letter_at};
ghost use Rattle.register_core.specs.Proposals.{CountsWritten, KeepsMended, Mends};
ghost use Rattle.drive_base.specs.declared.drive.TheConstants.{LONGEST_NAME};

use crate::drafts::Draft;
use crate::lanes::is_out;
use crate::proposals::{Writing, write_each};
use call_types::Whys;
use drive_base::{Drive, DriveSet};
use vote_core::{calm_laws, mend_law, number_laws, place_laws};

/// What a mend did.
#[derive(Clone, Copy, PartialEq, Eq)]
pub struct Mended {
    /// How many lanes were written.
    pub lanes: u8,
    /// The letter of each lane, which is good where it had the value already or was written.
    pub whys: Whys,
}

/// Writes the last file of a draft on each lane that isn't out and wasn't shown to have it. A lane that fails is left. The
/// draft is one of `draft_mend`, or one whose mark succeeded, and no file of the name was written since the look or that
/// mark.
pub fn mend<D: Drive>(
    lanes: &mut [D],
    out: DriveSet,
    draft: &Draft,
    term: u64,
    count: &mut u64,
) -> Mended
    requires drives { length lanes.old ≡ draft.now.set.drives }
    requires named { string_len draft.now.name ≤ LONGEST_NAME }
    requires room { count.old + draft.now.set.drives < 2 ^ 64 }
    ensures outcome { Mends D.Drive draft.now out term count.old count.new result lanes.old lanes.new }
    ensures keeps { KeepsMended D.Drive draft.now out term count.old result lanes.old lanes.new }
    ensures drives { KeepsOthers D.Drive out (string_bytes draft.now.name) term count.old count.new lanes.old lanes.new }
    ensures lanes { AllGoOn (views D.Drive lanes.old) (views D.Drive lanes.new) }
{
    place_laws();
    mend_law();
    calm_laws();
    number_laws();
    let writing = Writing {
        name: draft.name.as_str(),
        bytes: draft.last.as_slice(),
        term,
    };
    let all = Whys::all_good(draft.set.drives);
    let whys = write_each(lanes, out, draft.passed, all, &writing, count);
    Mended {
        lanes: count_written(draft.passed, &whys),
        whys,
    }
}

/// How many lanes were written: those whose letter is good and which weren't passed over.
fn count_written(passed: DriveSet, whys: &Whys) -> u8
    requires { length whys.now ≤ 16 }
    ensures { CountsWritten passed whys.now result }
{
    let mut count = 0;
    for k in 0..whys.len() {
        if is_written(passed, whys, k) {
            count += 1;
        }
    }
    count
}

/// Whether a lane was written.
fn is_written(passed: DriveSet, whys: &Whys, lane: usize) -> bool
    requires few { length whys.now ≤ 16 }
    requires inside { lane < length whys.now }
    ensures { IsTrue result ↔ ((IsBitSet passed lane → ⊥) × (letter_at whys.now lane ≡ Good)) }
{
    !is_out(passed, lane) && whys.get(lane).is_good()
}
