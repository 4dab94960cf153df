//! Reading the format files of the drives.

ghost use Rattle.std.specs.Prelude.{◌≡◌, ◌≤◌, IfOk, length};
ghost use Rattle.drive_base.specs.View.{AllOnlyRead, OnlyRead, view, views};
ghost use Rattle.term_gate.specs.Reading.{AreRead, OpensFormat, ReadsDrive};

use crate::codec::read;
use crate::record::Format;
use call_types::{FileKind, Why, Whys};
use drive_base::Drive;
use fault_base::NoMemory;
use file_access::{FetchFault, file_on};
use seal_file::{Damage, RecordFault};
use std::alloc::Global;

/// The name of a drive's format file.
pub const FORMAT_NAME: &str = "format";

/// How many bytes a format file has.
pub const FORMAT_BYTES: u64 = 64;

/// What was read of each drive: its format, where that is good, and a letter.
#[derive(Drop)]
pub struct Reading {
    /// The formats.
    pub formats: Vec<Option<Format>>,
    /// Why each drive gave its format or did not.
    pub whys: Whys,
}

/// Reads the format file of every drive, in the order of the drives. Want of memory is the only error.
pub fn read_formats<D: Drive>(alloc: Global, disks: &mut [D]) -> Result<Reading, NoMemory>
    requires some { 1 ≤ length disks.old }
    requires few { length disks.old ≤ 16 }
    ensures read { IfOk result (λ reading. AreRead reading.formats.items reading.whys (views D.Drive disks.old) (views D.Drive disks.new)) }
    ensures only { AllOnlyRead (views D.Drive disks.old) (views D.Drive disks.new) }
{
    let mut formats = Vec::with_capacity(alloc, disks.len())?;
    let mut whys = Whys::all_good(disks.len() as u8);
    for (index, disk) in disks.iter_mut().enumerate() {
        match read_on(alloc, disk) {
            Ok(format) => formats.push(Some(format))?,
            Err(FetchFault::Because(why)) => {
                formats.push(None)?;
                whys.set(index, why);
            }
            Err(FetchFault::NoMemory) => return Err(NoMemory),
        }
    }
    Ok(Reading { formats, whys })
}

/// The format of a drive.
fn read_on<D: Drive>(alloc: Global, disk: &mut D) -> Result<Format, FetchFault>
    ensures outcome { ReadsDrive result (view D.Drive disk.old) (view D.Drive disk.new) }
    ensures only { OnlyRead (view D.Drive disk.old) (view D.Drive disk.new) }
{
    match file_on(alloc, disk, FileKind::Format, FORMAT_NAME, FORMAT_BYTES) {
        Ok(bytes) => open_format(alloc, bytes.as_slice()),
        Err(refused) => Err(refused),
    }
}

/// The format whose file these bytes are.
fn open_format(alloc: Global, bytes: &[u8]) -> Result<Format, FetchFault>
    ensures { OpensFormat bytes.now result }
{
    match read(alloc, bytes) {
        Ok(format) => Ok(format),
        Err(RecordFault::Unsealed(damage)) => Err(FetchFault::Because(Why::Damaged(damage))),
        Err(RecordFault::NotCanonical(place)) => {
            Err(FetchFault::Because(Why::Damaged(Damage::Spelling(place))))
        }
        Err(RecordFault::NoMemory) => Err(FetchFault::NoMemory),
    }
}
