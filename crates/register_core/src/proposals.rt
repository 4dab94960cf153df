//! Proposing a change on the lanes, and marking it.

ghost use Rattle.std.specs.Prelude.{◌≡◌, ◌+◌, ◌<◌, ◌≤◌, ◌^◌, length, string_bytes, string_len};
ghost use Rattle.drive_base.specs.View.{AllGoOn, GoesOn, view, views};
ghost use Rattle.register_core.specs.LaneWrites.{KeepsOthers, OnLane, Writes, WritesEach};
ghost use Rattle.register_core.specs.Proposals.{KeepsMarked, KeepsProposed, Marks, Proposes};
ghost use Rattle.register_core.specs.ServingLanes.{OkWhereServed};
ghost use Rattle.drive_base.specs.declared.drive.TheConstants.{LONGEST_NAME};

use crate::drafts::Draft;
use crate::faults::QuorumFault;
use crate::lanes::{LooseName, is_out};
use call_types::{FileKind, Why, Whys};
use drive_base::{Drive, DriveSet};
use file_access::write_file;
use vote_core::{mark_laws, number_laws, place_laws, prepare_laws};

/// The lanes that took the first file of a draft.
#[derive(Clone, Copy, PartialEq, Eq)]
pub struct Prepared {
    /// The lanes that are out.
    pub out: DriveSet,
    /// The letter of each lane, which is good where the lane took the file.
    pub whys: Whys,
}

/// Writes the first file of a draft: the base with the change as its next, which prepares the change. It is refused with
/// `WriteQuorum` where fewer lanes than a write needs took it; a pending change isn't begun where fewer lanes than that
/// were good. `term`, which is below 2^48, and `count` name loose files: each write uses up one number.
pub fn propose<D: Drive>(
    lanes: &mut [D],
    out: DriveSet,
    draft: &Draft,
    term: u64,
    count: &mut u64,
) -> Result<Prepared, QuorumFault>
    requires drives { length lanes.old ≡ draft.now.set.drives }
    requires letters { length draft.now.letters ≡ draft.now.set.drives }
    requires named { string_len draft.now.name ≤ LONGEST_NAME }
    requires room { count.old + draft.now.set.drives < 2 ^ 64 }
    ensures outcome { Proposes D.Drive draft.now out term count.old count.new result lanes.old lanes.new }
    ensures enough { OkWhereServed D.Drive draft.now.set out draft.now.letters result lanes.old lanes.new }
    ensures keeps { KeepsProposed D.Drive draft.now out term count.old result lanes.old lanes.new }
    ensures drives { KeepsOthers D.Drive out (string_bytes draft.now.name) term count.old count.new lanes.old lanes.new }
    ensures lanes { AllGoOn (views D.Drive lanes.old) (views D.Drive lanes.new) }
{
    place_laws();
    prepare_laws();
    number_laws();
    let quorum = draft.set.write_quorum();
    if draft.letters.good() < quorum {
        return Err(QuorumFault::WriteQuorum(draft.letters));
    }
    let writing = Writing {
        name: draft.name.as_str(),
        bytes: draft.first.as_slice(),
        term,
    };
    let whys = write_each(lanes, out, DriveSet::none(), draft.letters, &writing, count);
    if whys.good() < quorum {
        return Err(QuorumFault::WriteQuorum(whys));
    }
    Ok(Prepared { out, whys })
}

/// Writes the last file of a draft on the lanes that took the first one: the change as the base, which marks it. `Ok` says
/// that the change is acknowledged: its content is the register's value; it has the letter of each lane. It is refused with `WriteQuorum` where fewer lanes
/// than a write needs took it, and then the change may have taken effect or may take effect later.
pub fn mark<D: Drive>(
    lanes: &mut [D],
    draft: &mut Draft,
    prepared: Prepared,
    term: u64,
    count: &mut u64,
) -> Result<Whys, QuorumFault>
    requires drives { length lanes.old ≡ draft.old.set.drives }
    requires letters { length prepared.whys ≡ draft.old.set.drives }
    requires named { string_len draft.old.name ≤ LONGEST_NAME }
    requires room { count.old + draft.old.set.drives < 2 ^ 64 }
    ensures outcome { Marks D.Drive draft.old prepared term count.old count.new result draft.new lanes.old lanes.new }
    ensures enough { OkWhereServed D.Drive draft.old.set prepared.out prepared.whys result lanes.old lanes.new }
    ensures keeps { KeepsMarked D.Drive draft.old prepared term count.old result draft.new lanes.old lanes.new }
    ensures drives { KeepsOthers D.Drive prepared.out (string_bytes draft.old.name) term count.old count.new lanes.old lanes.new }
    ensures draft { draft.new ≡ record draft.old { passed = draft.new.passed } }
    ensures lanes { AllGoOn (views D.Drive lanes.old) (views D.Drive lanes.new) }
{
    place_laws();
    mark_laws();
    number_laws();
    let writing = Writing {
        name: draft.name.as_str(),
        bytes: draft.last.as_slice(),
        term,
    };
    let whys = write_each(
        lanes,
        prepared.out,
        DriveSet::none(),
        prepared.whys,
        &writing,
        count,
    );
    if whys.good() < draft.set.write_quorum() {
        return Err(QuorumFault::WriteQuorum(whys));
    }
    draft.passed = DriveSet::from_mask(whys.good_mask());
    Ok(whys)
}

/// A file of a register, and the loose names that its writes use.
#[derive(Clone, Copy)]
pub struct Writing<'a> {
    /// The register's name.
    pub name: &'a str,
    /// The file's bytes.
    pub bytes: &'a [u8],
    /// The term of the loose names.
    pub term: u64,
}

/// Writes a file of a register on each lane whose letter is good, which isn't out and isn't passed over, in the order of
/// the lanes: three calls each, under a loose name of its own. Answers the letters of all lanes then: that of a lane that
/// was written is good where all three calls succeeded.
pub fn write_each<D: Drive>(
    lanes: &mut [D],
    out: DriveSet,
    passed: DriveSet,
    letters: Whys,
    writing: &Writing,
    count: &mut u64,
) -> Whys
    requires few { length lanes.old ≤ 16 }
    requires letters { length letters ≡ length lanes.old }
    requires named { length writing.now.name.now ≤ LONGEST_NAME }
    requires room { count.old + length lanes.old < 2 ^ 64 }
    ensures wrote { WritesEach D.Drive out passed writing.now.name.now writing.now.bytes.now writing.now.term count.old count.new letters result lanes.old lanes.new }
    ensures drives { KeepsOthers D.Drive out writing.now.name.now writing.now.term count.old count.new lanes.old lanes.new }
    ensures lanes { AllGoOn (views D.Drive lanes.old) (views D.Drive lanes.new) }
{
    let mut whys = letters;
    let mut index = 0;
    for lane in lanes.iter_mut() {
        let why = write_lane(lane, index, out, passed, &letters, writing, count);
        whys.set(index, why);
        index += 1;
    }
    whys
}

/// Writes a file of a register on the lane of an index where the loop is to write it, and answers the lane's letter then.
fn write_lane<D: Drive>(
    lane: &mut D,
    index: usize,
    out: DriveSet,
    passed: DriveSet,
    letters: &Whys,
    writing: &Writing,
    count: &mut u64,
) -> Why
    requires few { length letters.now ≤ 16 }
    requires inside { index < length letters.now }
    requires named { length writing.now.name.now ≤ LONGEST_NAME }
    requires room { count.old + 1 < 2 ^ 64 }
    ensures wrote { OnLane D.Drive out passed writing.now.name.now writing.now.bytes.now writing.now.term count.old count.new letters.now index result lane.old lane.new }
    ensures later { count.old ≤ count.new }
    ensures one { count.new ≤ count.old + 1 }
    ensures goes_on { GoesOn (view D.Drive lane.old) (view D.Drive lane.new) }
{
    if is_out(out, index) {
        return Why::Lacks(FileKind::Format);
    }
    let letter = letters.get(index);
    if is_out(passed, index) || !letter.is_good() {
        return letter;
    }
    let number = *count;
    *count += 1;
    write_on(lane, writing, number)
}

/// Writes a file of a register on one lane.
fn write_on<D: Drive>(lane: &mut D, writing: &Writing, number: u64) -> Why
    requires { length writing.now.name.now ≤ LONGEST_NAME }
    ensures wrote { Writes D.Drive writing.now.name.now writing.now.bytes.now writing.now.term number (number + 1) result lane.old lane.new }
    ensures goes_on { GoesOn (view D.Drive lane.old) (view D.Drive lane.new) }
{
    let loose = LooseName::new(writing.term, number);
    write_file(
        lane,
        FileKind::Register,
        loose.as_str(),
        writing.name,
        writing.bytes,
    )
}
