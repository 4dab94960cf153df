//! The command `serve` over doors and drives in memory. What is found behind a run is kept as numbers, and compared where no rig is alive any more.

mod overlap;
mod serving;

ghost use Rattle.std.specs.Prelude.{IfOk};
ghost use Rattle.ostore.specs.Rigs.{IsRigOf};

use crate::memory::memory_rig;
use crate::rig::{Ended, Rig};
use audit_trail::MemAudit;
use drive_base::SetPlan;
use drive_memory::MemDrive;
use io_base::{MemDoor, MemSink, MemSource};
use std::alloc::{AllocError, Global};

/// The moment of each run, in Unix seconds.
const NOW: u64 = 784_111_777;

/// The slots of the keys `a` and `k` of the bucket `pic`.
const SLOTS: [u8; 2] = [28, 38];

/// The reply to a PUT of `hello`, but for its front.
const STORED: &[u8] = b"Content-Length: 0\r\nETag: \"5d41402abc4b2a76b9719d911017c592\"\r\n\r\n";

/// The number of a call that no connection of the tests makes.
const NO_CALL: u64 = 9;

/// A rig of fresh drives, four with two of parity.
fn fresh_rig(alloc: Global) -> Result<Rig<MemDrive, MemAudit>, AllocError>
    ensures rig { IfOk result (λ rig. IsRigOf rig.set rig) }
{
    memory_rig(alloc, SetPlan::new([0; 16], 4, 2))
}

/// A connection that gives these bytes, whose source fails at this take and whose sink at this give.
fn pair_of(
    alloc: Global,
    bytes: &[u8],
    take: u64,
    give: u64,
) -> Result<(MemSource, MemSink), AllocError> {
    let source = MemSource::new(Vec::from_slice(alloc, bytes)?, vec![in alloc; take]?);
    Ok((source, MemSink::new(vec![in alloc; give]?)))
}

/// A door of connections, which fails at this call.
fn door_over(
    alloc: Global,
    pairs: Vec<(MemSource, MemSink)>,
    fails: u64,
) -> Result<MemDoor, AllocError> {
    let fails = vec![in alloc; fails]?;
    match MemDoor::new(alloc, pairs, fails) {
        Ok(door) => Ok(door),
        Err(_) => Err(AllocError),
    }
}

/// What is found behind a run of `serve`: its status, how many entries the audits of the two slots have, and the doors.
#[derive(Drop)]
struct Found {
    status: u8,
    entries: [usize; 2],
    doors: Vec<MemDoor>,
}

/// How many entries the audit of a slot of a rig has: of a key's slot, that of the opening, and one for each PUT and GET.
fn entries_at<D>(rig: &Option<Rig<D, MemAudit>>, slot: u8) -> usize {
    let Some(rig) = rig else {
        return 0;
    };
    match rig.slots.get(usize::from(slot)) {
        Some(parts) => parts.audit.entries().len(),
        None => 0,
    }
}

/// Takes the end of a run apart.
fn find<D: Drop>(ended: Ended<D, MemAudit, Vec<MemDoor>>) -> Found {
    let Ended {
        status,
        rig,
        opening,
        line: _,
        starved: _,
        door,
    } = ended;
    let entries = [entries_at(&rig, SLOTS[0]), entries_at(&rig, SLOTS[1])];
    drop(rig);
    drop(opening);
    Found {
        status,
        entries,
        doors: door,
    }
}

/// Of the connections that came back, door by door: how many there are, how many were given texts with these ends, and how many bytes were given to all.
fn count_given(doors: Vec<MemDoor>, ends: &[&[u8]]) -> [usize; 3] {
    let (mut came, mut same, mut bytes) = (0usize, 0usize, 0usize);
    for door in doors {
        for (_, sink) in &door.into_returned() {
            let given = sink.given();
            if let Some(end) = ends.get(came) {
                same = same.saturating_add(usize::from(given.ends_with(end)));
            }
            came = came.saturating_add(1);
            bytes = bytes.saturating_add(given.len());
        }
    }
    [came, same, bytes]
}
