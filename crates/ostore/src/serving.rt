//! The command `serve`.

ghost use Rattle.std.specs.Prelude.{◌≡◌, ◌<◌, All, IfSome, IsTrue, None, Some, length};
ghost use Rattle.io_base.specs.Spawner.{spawner_faults};
ghost use Rattle.store_shared.specs.Parting.{HasAllParts};
ghost use Rattle.store_shared.specs.SharedPasses.{FitsDesk, drives_of, shared_holds};
ghost use Rattle.ostore.specs.Opening.{IsAway};
ghost use Rattle.ostore.specs.Rigs.{IsRigOf};
ghost use Rattle.ostore.specs.Served.{IsDeskEnd, IsHanded, IsStore, IsStoreEnd, Serves, doors_in};
ghost use Rattle.ostore.specs.Sharing.{IsRowTo};
ghost use Rattle.ostore.specs.Statuses.{done, out_of_memory, read_fault, refusal_status, write_fault};
ghost use Rattle.ostore.specs.Workers.{DoorsServed};
ghost use Rattle.turn_lock.specs.declared.lock.TheConstants.{ALL_PARTS};

use crate::dealing::{Dealt, deal, unite};
use crate::notices::tell_opened;
use crate::opening::{Away, Shop, Shut, close, open};
use crate::rig::{Ended, Rig};
use crate::sharing::{rows_of, share_each};
use crate::statuses::{DONE, OUT_OF_MEMORY, READ_FAULT, WRITE_FAULT, status_of_refusal};
use crate::workers::{employ, run_each, take_back};
use audit_trail::Audit;
use desk_base::Gate;
use drive_base::Drive;
use drive_file::Share;
use io_base::{Clock, Door, Spawned, Spawner};
use std::alloc::Global;
use std::io::Eprint;
use std::sync::Wait;
use std::thread::Threads;
use store_shared::{PassParts, PlainPass, SharedDesk, SharedPass};

/// Serves the connections of doors over the store of a rig, beside one another: a worker for each door. The gate is called between the steps of each call.
pub fn serve<
    R: Eprint + Threads + Wait + Copy + Drop + Send + Sync,
    D: Share + Send + Drop,
    A: Audit + Send + Drop,
    C: Clock + Sync,
    O: Door + Send + Drop,
    G: Gate + Send + Sync + Drop,
>(
    rt: &R,
    alloc: Global,
    rig: Rig<D, A>,
    clock: &C,
    doors: Vec<O>,
    spawner: &mut Spawner,
    gate: G,
) -> Ended<D, A, Vec<O>>
    requires fits { IsRigOf rig.set rig }
    requires few { length doors.items < ALL_PARTS }
    ensures { Serves R G D.Drive D.root A.entries A.count O.Door O.In.Source O.Out.Sink (C.moment clock.now) clock.now rig doors.items (spawner_faults spawner.old) (spawner_faults spawner.new) result }
{
    match open(alloc, rig) {
        Ok(Shop { pass, away }) => {
            let parts = pass.into_parts();
            tell_opened(rt, &parts);
            let end = serve_store(rt, alloc, parts, clock, doors, spawner, gate);
            ended(end, away)
        }
        Err(back) => shut(back, doors),
    }
}

/// How a store was served: what is left of it, the status, and the doors.
#[derive(Drop)]
struct StoreEnd<D, A, O> {
    /// The parts of the store, unless a lock could not be closed.
    parts: Option<PassParts<D, A>>,
    /// The exit status.
    status: u8,
    /// How many connections ended for want of memory.
    starved: u64,
    /// The doors.
    doors: Vec<O>,
}

/// The end of a run over a store.
fn ended<D: Drive + Drop, A: Audit + Drop, O>(
    end: StoreEnd<D, A, O>,
    away: Away<D, A>,
) -> Ended<D, A, Vec<O>>
    requires away { IsAway away }
    requires store { IfSome end.parts (λ parts. IsStore parts) }
    ensures status { result.status ≡ end.status }
    ensures starved { result.starved ≡ end.starved }
    ensures doors { doors_in result ≡ end.doors.items }
    ensures opening { result.opening ≡ None }
    ensures line { result.line ≡ None }
    ensures rig { IsHanded away.set end.parts result.rig }
{
    let StoreEnd {
        parts,
        status,
        starved,
        doors,
    } = end;
    let Some(parts) = parts else {
        return Ended {
            status,
            rig: None,
            opening: None,
            line: None,
            starved,
            door: doors,
        };
    };
    Ended {
        status,
        rig: Some(close(PlainPass::new(parts), away)),
        opening: None,
        line: None,
        starved,
        door: doors,
    }
}

/// The end of a run for which the store was not opened.
fn shut<D: Drive, A: Audit, O>(back: Shut<D, A>, doors: Vec<O>) -> Ended<D, A, Vec<O>>
    ensures status { result.status ≡ refusal_status back.why }
    ensures starved { result.starved ≡ 0 }
    ensures rig { result.rig ≡ Some back.rig }
    ensures opening { result.opening ≡ Some back.why }
    ensures line { result.line ≡ None }
    ensures doors { doors_in result ≡ doors.items }
{
    Ended {
        status: status_of_refusal(&back.why),
        rig: Some(back.rig),
        opening: Some(back.why),
        line: None,
        starved: 0,
        door: doors,
    }
}

/// Serves doors over the parts of a store, whose data drives are shared from then on.
fn serve_store<
    R: Eprint + Threads + Wait + Copy + Drop + Send + Sync,
    D: Share + Send + Drop,
    A: Audit + Send + Drop,
    C: Clock + Sync,
    O: Door + Send + Drop,
    G: Gate + Send + Sync + Drop,
>(
    rt: &R,
    alloc: Global,
    parts: PassParts<D, A>,
    clock: &C,
    doors: Vec<O>,
    spawner: &mut Spawner,
    gate: G,
) -> StoreEnd<D, A, O>
    requires store { IsStore parts }
    requires few { length doors.items < ALL_PARTS }
    ensures end { IsStoreEnd R G D.Drive D.root A.entries A.count O.Door O.In.Source O.Out.Sink (C.moment clock.now) clock.now parts doors.items (spawner_faults spawner.old) (spawner_faults spawner.new) result }
    ensures store { IfSome result.parts (λ parts. IsStore parts) }
{
    let mut parts = parts;
    if share_each(alloc, parts.disks.as_mut_slice()).is_err() {
        return unserved(parts, doors);
    }
    let Some(rows) = rows_of(alloc, parts.disks.as_slice(), doors.len()) else {
        return unserved(parts, doors);
    };
    match SharedDesk::new(*rt, alloc, parts, gate) {
        Ok((desk, pass)) => {
            let end = serve_doors(rt, alloc, &desk, pass, rows, clock, doors, spawner);
            close_desk(desk, end)
        }
        Err((parts, _, _)) => unserved(parts, doors),
    }
}

/// The end of a store over which no worker was made, for want of memory.
fn unserved<D, A, O>(parts: PassParts<D, A>, doors: Vec<O>) -> StoreEnd<D, A, O>
    ensures parts { result.parts ≡ Some parts }
    ensures status { result.status ≡ out_of_memory }
    ensures starved { result.starved ≡ 0 }
    ensures doors { result.doors ≡ doors }
{
    StoreEnd {
        parts: Some(parts),
        status: OUT_OF_MEMORY,
        starved: 0,
        doors,
    }
}

/// How the doors of a desk were served: the pass that all others were joined with, the status, and the doors.
#[derive(Drop)]
struct DoorsEnd<D, A, O> {
    /// The pass.
    whole: SharedPass<D, A>,
    /// The exit status.
    status: u8,
    /// How many connections ended for want of memory.
    starved: u64,
    /// The doors.
    doors: Vec<O>,
}

/// Closes a desk whose doors were served.
fn close_desk<R: Drop, D: Drive + Drop, A: Audit + Drop, O: Drop, G: Drop>(
    desk: SharedDesk<R, D, A, G>,
    end: DoorsEnd<D, A, O>,
) -> StoreEnd<D, A, O>
    requires fits { FitsDesk desk (shared_holds end.whole) }
    ensures closed { IsDeskEnd desk end.whole end.status result.parts result.status }
    ensures starved { result.starved ≡ end.starved }
    ensures store { IfSome result.parts (λ parts. IsStore parts) }
    ensures doors { result.doors ≡ end.doors }
{
    let DoorsEnd {
        whole,
        status,
        starved,
        doors,
    } = end;
    match desk.close(whole) {
        Ok(parts) => StoreEnd {
            parts: Some(parts),
            status,
            starved,
            doors,
        },
        Err(_) => StoreEnd {
            parts: None,
            status: OUT_OF_MEMORY,
            starved,
            doors,
        },
    }
}

/// Serves doors over a desk, each by a worker with a pass of its own, and joins all passes then.
fn serve_doors<
    R: Eprint + Threads + Wait + Copy + Drop + Send + Sync,
    D: Share + Send + Drop,
    A: Audit + Send + Drop,
    C: Clock + Sync,
    O: Door + Send + Drop,
    G: Gate + Send + Sync + Drop,
>(
    rt: &R,
    alloc: Global,
    desk: &SharedDesk<R, D, A, G>,
    pass: SharedPass<D, A>,
    rows: Vec<Vec<D>>,
    clock: &C,
    doors: Vec<O>,
    spawner: &mut Spawner,
) -> DoorsEnd<D, A, O>
    requires fits { FitsDesk desk.now (shared_holds pass) }
    requires parts { HasAllParts (shared_holds pass) }
    requires few { length rows.items < ALL_PARTS }
    requires rows { All (IsRowTo D.Drive D.root (drives_of pass)) rows.items }
    requires count { length rows.items ≡ length doors.items }
    ensures served { DoorsServed D.Drive D.root A.entries A.count O.Door O.In.Source O.Out.Sink (C.moment clock.now) desk.now clock.now pass result.whole doors.items result.doors.items result.status result.starved (spawner_faults spawner.old) (spawner_faults spawner.new) }
    ensures fits { FitsDesk desk.now (shared_holds result.whole) }
{
    let Dealt {
        rest,
        passes,
        is_all,
    } = deal(alloc, desk, pass, rows);
    let mut doors = doors;
    let room = Vec::with_capacity(alloc, doors.len());
    let (true, Ok(mut works)) = (is_all, room) else {
        return DoorsEnd {
            whole: unite(desk, rest, passes),
            status: OUT_OF_MEMORY,
            starved: 0,
            doors,
        };
    };
    employ(*rt, alloc, desk, clock, passes, &mut doors, &mut works);
    let Spawned { done, left } = run_each(rt, alloc, desk, clock, spawner, works);
    let is_left = !left.is_empty();
    let done = take_back(desk, rest, done, &mut doors);
    let left = take_back(desk, done.whole, left, &mut doors);
    DoorsEnd {
        whole: left.whole,
        status: status_of_doors(done.has_failed, is_left),
        starved: done.starved,
        doors,
    }
}

/// The exit status where all works are back.
fn status_of_doors(has_failed: bool, is_left: bool) -> u8
    ensures failed { IsTrue has_failed → result ≡ read_fault }
    ensures left { (IsTrue has_failed → ⊥) → IsTrue is_left → result ≡ write_fault }
    ensures over { (IsTrue has_failed → ⊥) → (IsTrue is_left → ⊥) → result ≡ done }
{
    if has_failed {
        READ_FAULT
    } else if is_left {
        WRITE_FAULT
    } else {
        DONE
    }
}
