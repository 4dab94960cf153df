//! A worker that serves a door.

ghost use Rattle.std.specs.Prelude.{◌≡◌, ◌≤◌};
ghost use Rattle.serve_loop.specs.Doors.{WorkBegan, WorkServed, work_began};

use crate::connection::serve_connection;
use crate::ends::count_want;
use desk_base::Desk;
use io_base::{Clock, Door, Work};
use std::alloc::Global;
use std::io::Eprint;
use std::snapshot::Snapshot;
use std::sync::Wait;

/// The work of serving a door: a desk, which other workers may share, with a pass and a door of its own.
/// It knows what it began with, so that its contract can say what it did since.
pub struct ServeWork<'a, R: Drop, K: Desk<Pass: Drop>, O: Door + Drop, C: Clock> {
    rt: R,
    alloc: Global,
    desk: &'a K,
    pass: K::Pass,
    door: O,
    clock: &'a C,
    /// The pass and the door as they were when the work was made.
    first: Snapshot<K::Pass>,
    entrance: Snapshot<O>,
    /// The door's count of faults then.
    before: u64,
    /// How many connections ended for want of memory since.
    starved: u64,
    ghost begun: { before ≡ O.faults entrance.value },
    ghost counted: { before ≤ O.faults door },
    ghost served: { WorkServed K.Desk C.Clock O.Door O.In.Source O.Out.Sink desk.now clock.now first.value pass entrance.value door starved },
    ghost fits: { K.fits desk.now (K.holds pass) } by { K.fits_is_fact desk.now (K.holds pass) },
}

impl<'a, R: Drop, K: Desk<Pass: Drop>, O: Door + Drop, C: Clock> ServeWork<'a, R, K, O, C> {
    ghost use Rattle.std.specs.Prelude.{IsTrue};
    ghost use Rattle.fault_base.specs.Counts.{Rose};
    ghost use Rattle.serve_loop.specs.Works.{began_of, desk_of, door_of, entrance_of, pass_of, starved_of};

    /// A work that was not begun. It doesn't allocate.
    pub fn new(
        rt: R,
        alloc: Global,
        desk: &'a K,
        pass: K::Pass,
        door: O,
        clock: &'a C,
    ) -> ServeWork<'a, R, K, O, C>
        requires fits { K.fits desk.now (K.holds pass) }
        ensures began { began_of result ≡ work_began desk.now clock.now pass door }
        ensures pass { pass_of result ≡ pass }
        ensures door { door_of result ≡ door }
        ensures starved { starved_of result ≡ 0 }
    {
        let first = Snapshot::of(&pass);
        let entrance = Snapshot::of(&door);
        let before = door.faults();
        ServeWork {
            rt,
            alloc,
            desk,
            pass,
            door,
            clock,
            first,
            entrance,
            before,
            starved: 0,
        }
    }

    /// Whether the door failed since the work was made.
    pub fn has_failed(&self) -> bool
        ensures failed { IsTrue result → Rose (O.faults (entrance_of self.now)) (O.faults (door_of self.now)) }
        ensures held { (IsTrue result → ⊥) → Rose (O.faults (entrance_of self.now)) (O.faults (door_of self.now)) → ⊥ }
        ensures still { (IsTrue result → ⊥) → O.faults (door_of self.now) ≡ O.faults (entrance_of self.now) }
    {
        let now = self.door.faults();
        self.before < now || now == u64::MAX
    }

    /// How many connections ended for want of memory since the work was made. The count stays at its greatest value.
    pub fn starved(&self) -> u64
        ensures { result ≡ starved_of self.now }
    {
        self.starved
    }

    /// The pass and the door.
    pub fn into_parts(self) -> (K::Pass, O)
        ensures fits { K.fits (desk_of self.entry) (K.holds result.0) }
        ensures pass { result.0 ≡ pass_of self.entry }
        ensures door { result.1 ≡ door_of self.entry }
    {
        let Self {
            rt: _,
            alloc: _,
            desk: _,
            pass,
            door,
            clock: _,
            first: _,
            entrance: _,
            before: _,
            starved: _,
        } = self;
        (pass, door)
    }
}

impl<
    R: Wait + Eprint + Send + Drop,
    K: Desk<Pass: Send + Drop> + Sync,
    O: Door + Send + Drop,
    C: Clock + Sync,
> Work for ServeWork<'_, R, K, O, C> {
    ghost use Rattle.serve_loop.specs.Works.{IsWorked, ServesDoor, began_of};

    ghost Kept = { WorkBegan K C K.Pass O };

    ghost kept = { λ w. began_of w };

    ghost over = { λ w. IsWorked w };

    /// Serves the connections of the door one after another, until no more will come or the door fails.
    /// It hands each of them back, however it ended. It may wait for connections without an end.
    fn work(&mut self)
        ensures over { IsWorked self.new }
        ensures kept { began_of self.new ≡ began_of self.old }
        ensures served { ServesDoor self.old self.new }
    {
        let (alloc, desk, clock) = (self.alloc, self.desk, self.clock);
        let pass = &mut self.pass;
        let door = &mut self.door;
        let starved = &mut self.starved;
        'rounds: for _ in self.rt.forever() {
            match door.next() {
                Ok(Some((source, mut sink))) => {
                    let served = serve_connection(
                        &self.rt, alloc, desk, pass, source, &mut sink, clock,
                    );
                    *starved = count_want(*starved, &served.end);
                    door.back(served.source, sink);
                }
                Ok(None) => return,
                Err(_) => return,
            }
        }
        unreachable!()
    }
}

impl<R: Drop, K: Desk<Pass: Drop>, O: Door + Drop, C: Clock> Drop for ServeWork<'_, R, K, O, C> {
    fn drop(self) {
        let Self {
            rt: _,
            alloc: _,
            desk: _,
            pass: _,
            door: _,
            clock: _,
            first: _,
            entrance: _,
            before: _,
            starved: _,
        } = self;
    }
}
