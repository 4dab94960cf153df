//! Opening a set under a new term.

ghost use Rattle.std.specs.Prelude.{◌≡◌, ◌<◌, ◌≤◌, ◌^◌, IfOk, length};
ghost use Rattle.drive_base.specs.View.{AllGoOn, views};
ghost use Rattle.term_gate.specs.Deciding.{AreAbsent};
ghost use Rattle.term_gate.specs.Opening.{GoesOnFrom, IsMadeAndOpened, IsOpenedOrNot, MakesSet, Opens, TakesTerm};
ghost use Rattle.term_gate.specs.Terms.{IsFresh};

use crate::deciding::{absent_of, are_good, check_set, have_answered, top_of};
use crate::reading::read_formats;
use crate::refusal::OpenRefusal;
use crate::writing::{make_files, write_formats};
use call_types::{FileKind, Why, Whys};
use drive_base::{Drive, DriveSet, SetPlan};
use std::alloc::Global;

/// The last term.
const LAST_TERM: u64 = 0xFFFF_FFFF_FFFF;

/// A set that was opened.
#[derive(Clone, Copy, PartialEq, Eq)]
pub struct Opened {
    /// The term of its life, at least 1 and below 2^48.
    pub term: u64,
    /// The drives that are out in this life: those without a format.
    pub out: DriveSet,
}

/// Opens a set: reads the format of each drive, and writes the next term on every drive that isn't out.
///
/// 1. `WrongSet` where a good format is another set's or another drive's: the first one, and what was wanted.
/// 2. Where no good format has a term of 1 or more and some format is absent, the set is being made. Every other drive
///    must have a good format, else `OpenQuorum` with the letters of the reads; then a format of term 0 is written on each
///    absent one, and `OpenQuorum` with the letters of these writes comes where one fails.
/// 3. Else as many formats as a read needs must be good, or else `OpenQuorum` with the letters of the reads. A drive without
///    a format is out for this life.
/// 4. `TermSpent` where the greatest term is the last one.
/// 5. The next term is written on every drive that isn't out. `OpenQuorum`, with the letters of the writes, comes where
///    fewer took it than a write needs.
///
/// Want of memory comes before the first write of point 2 or of point 5. Before the first write nothing is changed. The
/// set's `out` isn't looked at.
pub fn open_set<D: Drive>(
    alloc: Global,
    disks: &mut [D],
    set: SetPlan,
) -> Result<Opened, OpenRefusal>
    requires { length disks.old ≡ set.drives }
    ensures outcome { Opens set result (views D.Drive disks.old) (views D.Drive disks.new) }
    ensures fresh { IfOk result (λ opened. IsFresh set opened (views D.Drive disks.old) (views D.Drive disks.new)) }
    ensures goes_on { AllGoOn (views D.Drive disks.old) (views D.Drive disks.new) }
{
    let reading = read_formats(alloc, disks)?;
    let formats = reading.formats.as_slice();
    check_set(&set, formats)?;
    let top = top_of(formats);
    go_on(alloc, disks, &set, &reading.whys, top)
}

/// Opens a set whose formats were read and are all its own: their greatest term is `top`, and `whys` has the letters.
fn go_on<D: Drive>(
    alloc: Global,
    disks: &mut [D],
    set: &SetPlan,
    whys: &Whys,
    top: u64,
) -> Result<Opened, OpenRefusal>
    requires drives { length disks.old ≡ set.now.drives }
    requires letters { length whys.now ≡ set.now.drives }
    requires term { top < 2 ^ 48 }
    ensures { GoesOnFrom set.now whys.now top result (views D.Drive disks.old) (views D.Drive disks.new) }
{
    let absent = absent_of(whys);
    if top == 0 && absent.count(set.drives) > 0 {
        return open_new(alloc, disks, set, whys);
    }
    open_again(alloc, disks, set, whys, top, absent)
}

/// Makes a set, and opens it.
fn open_new<D: Drive>(
    alloc: Global,
    disks: &mut [D],
    set: &SetPlan,
    whys: &Whys,
) -> Result<Opened, OpenRefusal>
    requires drives { length disks.old ≡ set.now.drives }
    requires letters { length whys.now ≡ set.now.drives }
    ensures { IsMadeAndOpened set.now whys.now result (views D.Drive disks.old) (views D.Drive disks.new) }
{
    make_set(alloc, disks, set, whys)?;
    take_term(alloc, disks, set, 0, DriveSet::none())
}

/// Opens a set that was made before.
fn open_again<D: Drive>(
    alloc: Global,
    disks: &mut [D],
    set: &SetPlan,
    whys: &Whys,
    top: u64,
    absent: DriveSet,
) -> Result<Opened, OpenRefusal>
    requires drives { length disks.old ≡ set.now.drives }
    requires letters { length whys.now ≡ set.now.drives }
    requires term { top < 2 ^ 48 }
    requires absent { AreAbsent whys.now absent }
    ensures { IsOpenedOrNot set.now whys.now top result (views D.Drive disks.old) (views D.Drive disks.new) }
{
    let good = DriveSet::from_mask(whys.good_mask());
    if good.count(set.drives) < set.read_quorum() {
        return Err(OpenRefusal::OpenQuorum(*whys));
    }
    take_term(alloc, disks, set, top, absent)
}

/// Makes a set: writes a format of term 0 on each drive that has none. The others must have a good one.
fn make_set<D: Drive>(
    alloc: Global,
    disks: &mut [D],
    set: &SetPlan,
    whys: &Whys,
) -> Result<(), OpenRefusal>
    requires drives { length disks.old ≡ set.now.drives }
    requires letters { length whys.now ≡ set.now.drives }
    ensures { MakesSet set.now whys.now result (views D.Drive disks.old) (views D.Drive disks.new) }
{
    if !have_answered(whys) {
        return Err(OpenRefusal::OpenQuorum(*whys));
    }
    let files = make_files(alloc, set, 0)?;
    let good = DriveSet::from_mask(whys.good_mask());
    let written = write_formats(disks, set, 0, good, Why::Good, files.as_slice());
    if !are_good(&written) {
        return Err(OpenRefusal::OpenQuorum(written));
    }
    Ok(())
}

/// Writes the term above the greatest one that was read on every drive that isn't out.
fn take_term<D: Drive>(
    alloc: Global,
    disks: &mut [D],
    set: &SetPlan,
    top: u64,
    out: DriveSet,
) -> Result<Opened, OpenRefusal>
    requires drives { length disks.old ≡ set.now.drives }
    requires term { top < 2 ^ 48 }
    ensures { TakesTerm set.now top out result (views D.Drive disks.old) (views D.Drive disks.new) }
{
    if top == LAST_TERM {
        return Err(OpenRefusal::TermSpent);
    }
    let term = top + 1;
    let files = make_files(alloc, set, term)?;
    let other = Why::Lacks(FileKind::Format);
    let whys = write_formats(disks, set, term, out, other, files.as_slice());
    let taken = DriveSet::from_mask(whys.good_mask());
    if taken.count(set.drives) < set.write_quorum() {
        return Err(OpenRefusal::OpenQuorum(whys));
    }
    Ok(Opened { term, out })
}
