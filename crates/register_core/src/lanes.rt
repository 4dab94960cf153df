//! The lanes of a register: what is read of them, and the loose names of what is written on them.

ghost use Rattle.std.specs.Prelude.{◌≡◌, ◌<◌, ◌≤◌, ◌↔◌, IsTrue, IfOk, IfErr, length, map, ◌*◌};
ghost use Rattle.std.specs.Int.{IsBitSet};
ghost use Rattle.drive_base.specs.View.{AllOnlyRead, OnlyRead, view, views};
ghost use Rattle.vote_core.specs.Lane.{blank_lane};
ghost use Rattle.register_file.specs.Record.{IsCanonical};
ghost use Rattle.register_core.specs.Looks.{LanesAreRead};
ghost use Rattle.register_core.specs.Records.{lane_of, row_of};
ghost use Rattle.register_core.specs.LaneReads.{ReadsLane, OpensFile};
ghost use Rattle.register_core.specs.declared.faults.QuorumFault.TheVariants.{NoMemory};
ghost use Rattle.std.specs.Str.{is_utf8};
ghost use Rattle.hex.specs.Hex.{encode_lower};
ghost use Rattle.register_core.specs.Loose.{loose_name};
ghost use Rattle.register_core.specs.ServingLanes.{GoodLettersCount, NoFileIsBlank, ServingLaneIsRead};

use crate::faults::QuorumFault;
use call_types::{FileKind, Why, Whys};
use drive_base::{Drive, DriveSet};
use file_access::{FetchFault, file_on};
use register_file::{Base, RegFile, file_laws, read};
use seal_file::{Bytes, Damage, RecordFault};
use stamp_id::{Ballot, ChangeId};
use std::alloc::{AllocError, Global};
use vote_core::{NextRow, Row};

/// What was read of each lane: its record, where its file is good, and a letter.
#[derive(Drop)]
pub struct Found {
    /// The records.
    pub files: Vec<Option<RegFile>>,
    /// Why each lane was read or was not.
    pub whys: Whys,
}

/// Reads the register's file, of at most `most` bytes, on every lane that isn't out.
pub fn read_lanes<D: Drive>(
    alloc: Global,
    lanes: &mut [D],
    out: DriveSet,
    name: &str,
    most: u64,
) -> Result<Found, QuorumFault>
    requires some { 1 ≤ length lanes.old }
    requires few { length lanes.old ≤ 16 }
    ensures read { IfOk result (λ found. LanesAreRead D.Drive out most name.now found.files.items found.whys lanes.old lanes.new) }
    ensures refused { IfErr result (λ fault. fault ≡ NoMemory) }
    ensures lanes_read { AllOnlyRead (views D.Drive lanes.old) (views D.Drive lanes.new) }
{
    let mut files = Vec::with_capacity(alloc, lanes.len())?;
    let mut whys = Whys::all_good(lanes.len() as u8);
    for (index, lane) in lanes.iter_mut().enumerate() {
        match read_lane(alloc, lane, is_out(out, index), name, most) {
            Ok(file) => files.push(Some(file))?,
            Err(FetchFault::Because(why)) => {
                files.push(None)?;
                whys.set(index, why);
            }
            Err(FetchFault::NoMemory) => return Err(QuorumFault::NoMemory),
        }
    }
    Ok(Found { files, whys })
}

/// Whether a set has a lane.
pub fn is_out(set: DriveSet, index: usize) -> bool
    requires { index < 16 }
    ensures { IsTrue result ↔ IsBitSet set index }
{
    set.has(index as u8)
}

/// The record of a lane that isn't out: that of its file, or that of a lane without a file.
fn read_lane<D: Drive>(
    alloc: Global,
    lane: &mut D,
    is_out: bool,
    name: &str,
    most: u64,
) -> Result<RegFile, FetchFault>
    ensures outcome { ReadsLane most name.now result (IsTrue is_out) (D.tells lane.old) (D.files lane.old) (D.count lane.old) (D.count lane.new) }
    ensures alone { IsTrue is_out → lane.new ≡ lane.old }
    ensures read { OnlyRead (view D.Drive lane.old) (view D.Drive lane.new) }
{
    if is_out {
        return Err(FetchFault::Because(Why::Lacks(FileKind::Format)));
    }
    match file_on(alloc, lane, FileKind::Register, name, most) {
        Ok(bytes) => open_file(alloc, bytes.as_slice(), most),
        Err(FetchFault::Because(Why::Lacks(_))) => Ok(blank_file(alloc)),
        Err(refused) => Err(refused),
    }
}

/// The record whose file these bytes are, of which there are at most `most`.
fn open_file(alloc: Global, bytes: &[u8], most: u64) -> Result<RegFile, FetchFault>
    requires { length bytes.now ≤ most }
    ensures { OpensFile most bytes.now result }
{
    match read(alloc, bytes) {
        Ok(file) => Ok(file),
        Err(RecordFault::Unsealed(damage)) => Err(FetchFault::Because(Why::Damaged(damage))),
        Err(RecordFault::NotCanonical(place)) => {
            Err(FetchFault::Because(Why::Damaged(Damage::Spelling(place))))
        }
        Err(RecordFault::NoMemory) => Err(FetchFault::NoMemory),
    }
}

/// The record of a lane that keeps no file.
fn blank_file(alloc: Global) -> RegFile
    ensures canonical { IsCanonical result }
    ensures blank { lane_of result ≡ blank_lane }
{
    let ballot = Ballot { term: 0, seq: 0 };
    RegFile {
        base: Base {
            ballot,
            change: ChangeId(ballot),
            content: Bytes::empty(alloc),
        },
        next: None,
    }
}

/// The row of each record.
pub fn rows_of(alloc: Global, files: &[Option<RegFile>]) -> Result<Vec<Row>, AllocError>
    ensures { IfOk result (λ rows. rows.items ≡ map row_of files.now) }
{
    let mut rows = Vec::with_capacity(alloc, files.len())?;
    for file in files {
        rows.push(row_of(file))?;
    }
    Ok(rows)
}

/// The row of what was read of a lane.
fn row_of(file: &Option<RegFile>) -> Row
    ensures { result ≡ row_of file.now }
{
    let Some(file) = file else {
        return Row::Bad;
    };
    let next = match &file.next {
        Some(next) => Some(NextRow {
            ballot: next.ballot,
            change: next.change,
            adds: next.adds.is_some(),
        }),
        None => None,
    };
    Row::Good {
        base: file.base.ballot,
        change: file.base.change,
        next,
    }
}

/// A loose name, kept in place: it takes no memory.
#[derive(Drop)]
pub struct LooseName {
    /// The 29 letters.
    letters: [u8; 29],
    ghost text: { IsTrue (is_utf8 letters) },
}

impl LooseName {
    /// The loose name of a term, below 2^48, and a number: a `w`, the term in 12 hex digits and the number in 16.
    pub fn new(term: u64, number: u64) -> LooseName
        ensures { result.letters ≡ loose_name term number }
    {
        let mut letters = [b'w'; 29];
        write_digits(&term.to_be_bytes()[2..], &mut letters[1..13]);
        write_digits(&number.to_be_bytes(), &mut letters[13..]);
        LooseName { letters }
    }

    /// Its text.
    pub fn as_str(&self) -> &str
        ensures { result.now ≡ self.now.letters }
    {
        match std::str::from_utf8(&self.letters) {
            Ok(text) => text,
            Err(_) => unreachable!(),
        }
    }
}

/// Writes the hex digits of bytes into a place that has room for just them.
fn write_digits(bytes: &[u8], place: &mut [u8])
    requires { length place.old ≡ 2 * length bytes.now }
    ensures { place.new ≡ encode_lower bytes.now }
{
    let _ = hex::encode_to_slice(bytes, place);
}

/// A lane that is in use, tells what it holds, had no fault and shows what it keeps is read, so that its letter is good; lanes with good letters are
/// counted; and a lane that keeps no file has the blank record. It does nothing.
pub fn lane_laws()
    ensures read { ServingLaneIsRead }
    ensures counted { GoodLettersCount }
    ensures blank { NoFileIsBlank }
{
    file_laws();
}
