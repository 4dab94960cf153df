//! The changes of one register: the draft of what is pending, and both writes of a draft.

ghost use Rattle.std.specs.Prelude.{◌≡◌, ◌+◌, ◌*◌, ◌<◌, ◌≤◌, ◌^◌, IfOk, Some, length, string_bytes, string_len};
ghost use Rattle.drive_base.specs.View.{AllGoOn, views};
ghost use Rattle.drive_base.specs.declared.drive.TheConstants.{LONGEST_NAME};
ghost use Rattle.register_file.specs.Record.{IsContent};
ghost use Rattle.register_file.specs.declared.record.Next.{Next};
ghost use Rattle.register_core.specs.Drafts.{IsDraftAfterLook};
ghost use Rattle.register_core.specs.Found.{IsLawfulPending, content_of};
ghost use Rattle.register_core.specs.LaneWrites.{KeepsOthers};
ghost use Rattle.register_core.specs.Records.{again_of};
ghost use Rattle.register_core.specs.ServingLanes.{OkWhereServed};
ghost use Rattle.register_caller.specs.BothWrites.{KeepsBoth};
ghost use Rattle.register_caller.specs.Steps.{WritesBoth};

use call_types::Whys;
use drive_base::{Drive, DriveSet};
use fault_base::NoMemory;
use register_core::{Draft, Looked, QuorumFault, draft_change, mark, propose};
use stamp_id::Ballot;
use std::alloc::Global;
use vote_core::{fresh_laws, live_laws, place_laws, value_laws};

/// The draft of what is pending, under this ballot.
pub fn draft_again(alloc: Global, looked: &Looked, ballot: Ballot) -> Result<Draft, NoMemory>
    requires pending { (found : Next) × (looked.now.pending ≡ Some found) }
    requires base { IsContent looked.now.base.content }
    requires lawful { IsLawfulPending looked.now.pending }
    requires found_within { length (content_of looked.now.base looked.now.pending) ≤ looked.now.longest }
    ensures { (found : Next) → looked.now.pending ≡ Some found → IfOk result (λ draft. IsDraftAfterLook looked.now (again_of looked.now.base ballot found) draft) }
{
    let again = looked.again(alloc, ballot)?;
    draft_change(alloc, looked, &again)
}

/// Writes both files of a draft: proposes the change, and marks it where enough lanes took it. `Ok` has the letters of the mark, and the change's content
/// is the value then. It is refused with `WriteQuorum` where fewer lanes than a write needs took either file, and then the change may have taken effect or
/// may take effect later. It takes no memory.
pub fn write_both<D: Drive>(
    lanes: &mut [D],
    out: DriveSet,
    draft: &mut Draft,
    term: u64,
    count: &mut u64,
) -> Result<Whys, QuorumFault>
    requires drives { length lanes.old ≡ draft.old.set.drives }
    requires letters { length draft.old.letters ≡ draft.old.set.drives }
    requires named { string_len draft.old.name ≤ LONGEST_NAME }
    requires room { count.old + 2 * draft.old.set.drives < 2 ^ 64 }
    ensures wrote { KeepsBoth D.Drive draft.old out term count.old count.new result lanes.old lanes.new }
    ensures value { draft.new.value ≡ draft.old.value }
    ensures calls { WritesBoth D.Drive draft.old out term count.old count.new result lanes.old lanes.new }
    ensures enough { OkWhereServed D.Drive draft.old.set out draft.old.letters result lanes.old lanes.new }
    ensures drives { KeepsOthers D.Drive out (string_bytes draft.old.name) term count.old count.new lanes.old lanes.new }
    ensures lanes { AllGoOn (views D.Drive lanes.old) (views D.Drive lanes.new) }
    ensures rises { count.old ≤ count.new }
    ensures count { count.new ≤ count.old + 2 * draft.old.set.drives }
{
    live_laws();
    place_laws();
    fresh_laws();
    value_laws();
    let prepared = match propose(lanes, out, draft, term, count) {
        Ok(prepared) => prepared,
        Err(fault) => return Err(fault),
    };
    mark(lanes, draft, prepared, term, count)
}
