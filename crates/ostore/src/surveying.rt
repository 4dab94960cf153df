//! The command `status`.

ghost use Rattle.std.specs.Prelude.{◌≡◌, ℕ, List, Option, length};
ghost use Rattle.drive_base.specs.View.{AllOnlyRead, views};
ghost use Rattle.io_base.specs.Trail.{TakeCall};
ghost use Rattle.serve_loop.specs.Deeds.{wires};
ghost use Rattle.serve_loop.specs.Sending.{sink_view};
ghost use Rattle.ostore.specs.Rigs.{HasOneRow};
ghost use Rattle.ostore.specs.Surveying.{Surveyed, Tells};

use crate::document::document;
use crate::rig::{Ended, Rig};
use crate::statuses::{DONE, OUT_OF_MEMORY, WRITE_FAULT};
use audit_trail::Audit;
use drive_base::{Drive, SetPlan};
use io_base::Sink;
use std::alloc::Global;
use term_gate::survey;

/// Tells what the data drives of a rig have for formats, and changes nothing. The status is 0, 5 where the sink failed, or 6 where there was no memory.
pub fn status<K: Sink, D: Drive, A: Audit>(
    alloc: Global,
    sink: &mut K,
    rig: Rig<D, A>,
) -> Ended<D, A, ()>
    requires { HasOneRow rig.set rig }
    ensures { (left : Option (List ℕ)) (takes : List TakeCall) (read_faults : ℕ) → Surveyed D.Drive rig result
        (wires (record { left = left; takes = takes }) (sink_view K.Sink sink.old) read_faults (K.faults sink.old))
        (wires (record { left = left; takes = takes }) (sink_view K.Sink sink.new) read_faults (K.faults sink.new)) }
{
    let mut rig = rig;
    let set = rig.set;
    let status = tell(alloc, sink, set, rig.data[0].as_mut_slice());
    Ended::with(status, rig)
}

/// Looks at the drives, and gives the document. It answers the exit status.
fn tell<K: Sink, D: Drive>(alloc: Global, sink: &mut K, set: SetPlan, disks: &mut [D]) -> u8
    requires { length disks.old ≡ set.drives }
    ensures only { AllOnlyRead (views D.Drive disks.old) (views D.Drive disks.new) }
    ensures told { Tells set result (views D.Drive disks.old) (views D.Drive disks.new) (sink_view K.Sink sink.old) (sink_view K.Sink sink.new)
        (K.faults sink.old) (K.faults sink.new) }
{
    let Ok(survey) = survey(alloc, disks, set) else {
        return OUT_OF_MEMORY;
    };
    let Ok(text) = document(alloc, &set, &survey) else {
        return OUT_OF_MEMORY;
    };
    match sink.give(text.as_bytes()) {
        Ok(()) => DONE,
        Err(_) => WRITE_FAULT,
    }
}
