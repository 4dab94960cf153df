//! The passes of workers: cut off one pass, and joined with it again.

ghost use Rattle.std.specs.Prelude.{◌≡◌, ◌<◌, All, IsTrue, length, map, reverse};
ghost use Rattle.store_shared.specs.Parting.{HasAllParts};
ghost use Rattle.store_shared.specs.SharedPasses.{FitsDesk, drives_of, set_held, shared_holds};
ghost use Rattle.ostore.specs.Workers.{AreDealt, AreUnited, FitsEach, HasLength, ways_of};
ghost use Rattle.turn_lock.specs.declared.lock.TheConstants.{ALL_PARTS};

use audit_trail::Audit;
use drive_base::Drive;
use std::alloc::Global;
use store_shared::{SharedDesk, SharedPass};

/// What is left of a pass off which others were cut, and these.
#[derive(Drop)]
pub struct Dealt<D, A> {
    /// The rest.
    pub rest: SharedPass<D, A>,
    /// The others, each with one part of each lock.
    pub passes: Vec<SharedPass<D, A>>,
    /// Whether one was cut off for each row.
    pub is_all: bool,
}

/// Cuts a pass off for each row of ways to the data drives, the last row first. For want of memory it is done for some rows alone.
pub fn deal<R, D: Drive + Drop, A: Audit + Drop, G>(
    alloc: Global,
    desk: &SharedDesk<R, D, A, G>,
    pass: SharedPass<D, A>,
    rows: Vec<Vec<D>>,
) -> Dealt<D, A>
    requires fits { FitsDesk desk.now (shared_holds pass) }
    requires parts { HasAllParts (shared_holds pass) }
    requires few { length rows.items < ALL_PARTS }
    requires rows { All (HasLength (set_held (shared_holds pass)).drives) rows.items }
    ensures dealt { AreDealt pass result.passes.items result.rest }
    ensures fits { FitsDesk desk.now (shared_holds result.rest) }
    ensures fit { FitsEach desk.now result.passes.items }
    ensures ways { IsTrue result.is_all → map drives_of result.passes.items ≡ reverse (map ways_of rows.items) }
{
    let Ok(mut passes) = Vec::with_capacity(alloc, rows.len()) else {
        return Dealt {
            rest: pass,
            passes: Vec::new(alloc),
            is_all: false,
        };
    };
    let mut rest = pass;
    let mut rows = rows;
    while let Some(row) = rows.pop() {
        match desk.split(alloc, rest, row) {
            Ok((more, cut)) => {
                rest = more;
                passes.push_reserved(cut);
            }
            Err((back, _)) => {
                return Dealt {
                    rest: back,
                    passes,
                    is_all: false,
                };
            }
        }
    }
    rows.destroy_empty();
    Dealt {
        rest,
        passes,
        is_all: true,
    }
}

/// Joins passes with one, the last of them first. Their ways to the data drives are dropped.
pub fn unite<R, D: Drive + Drop, A: Audit + Drop, G>(
    desk: &SharedDesk<R, D, A, G>,
    pass: SharedPass<D, A>,
    passes: Vec<SharedPass<D, A>>,
) -> SharedPass<D, A>
    requires fits { FitsDesk desk.now (shared_holds pass) }
    requires fit { FitsEach desk.now passes.items }
    ensures united { AreUnited pass passes.items result }
    ensures fits { FitsDesk desk.now (shared_holds result) }
{
    let mut passes = passes;
    let mut whole = pass;
    while let Some(other) = passes.pop() {
        let (joined, _) = desk.join(whole, other);
        whole = joined;
    }
    passes.destroy_empty();
    whole
}
