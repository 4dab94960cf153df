//! Writing the format files of the drives.

ghost use Rattle.std.specs.Prelude.{◌≡◌, ◌<◌, ◌≤◌, ◌^◌, IfOk, length};
ghost use Rattle.drive_base.specs.View.{view, views};
ghost use Rattle.term_gate.specs.Writing.{AreFiles, AreWritten, Clears, DriveIsWritten, FormatIsWritten};

use crate::codec::write;
use crate::loose::LooseName;
use crate::reading::FORMAT_NAME;
use crate::record::format_of;
use call_types::{FileKind, Why, Whys};
use drive_base::{Drive, DriveSet, SetPlan};
use fault_base::NoMemory;
use file_access::{discard_on, write_file};
use seal_file::Bytes;
use std::alloc::Global;

/// The format files of a set with this term, one for each drive. Want of memory is the only error.
pub fn make_files(alloc: Global, set: &SetPlan, term: u64) -> Result<Vec<Bytes>, NoMemory>
    requires { term < 2 ^ 48 }
    ensures { IfOk result (λ files. AreFiles set.now term files.items) }
{
    let mut files = Vec::with_capacity(alloc, set.drives as usize)?;
    for index in 0..set.drives {
        let file = write(alloc, &format_of(set, index, term))?;
        files.push(Bytes::from_vec(file))?;
    }
    Ok(files)
}

/// Writes the format files of this term on every drive that isn't passed over, in the order of the drives, and answers the
/// letters: that of a drive that is passed over is `other`, and that of a drive that was written is good where all calls
/// succeeded.
pub fn write_formats<D: Drive>(
    disks: &mut [D],
    set: &SetPlan,
    term: u64,
    passed: DriveSet,
    other: Why,
    files: &[Bytes],
) -> Whys
    requires drives { length disks.old ≡ set.now.drives }
    requires files { AreFiles set.now term files.now }
    ensures { AreWritten set.now term passed other result (views D.Drive disks.old) (views D.Drive disks.new) }
{
    let mut whys = Whys::all_good(set.drives);
    for (index, disk) in disks.iter_mut().enumerate() {
        let why = write_or_pass(
            disk,
            index as u8,
            term,
            passed,
            other,
            files[index].as_slice(),
        );
        whys.set(index, why);
    }
    whys
}

/// Writes the format file on the drive of this index, where it isn't passed over, and answers its letter.
fn write_or_pass<D: Drive>(
    disk: &mut D,
    index: u8,
    term: u64,
    passed: DriveSet,
    other: Why,
    file: &[u8],
) -> Why
    requires { index < 16 }
    ensures { DriveIsWritten file.now term passed other index result (view D.Drive disk.old) (view D.Drive disk.new) }
{
    if passed.has(index) {
        return other;
    }
    write_on(disk, index, term, file)
}

/// Writes a format file: what an earlier opening left under its loose name is discarded before.
fn write_on<D: Drive>(disk: &mut D, index: u8, term: u64, file: &[u8]) -> Why
    requires { index < 16 }
    ensures { FormatIsWritten file.now term index result (view D.Drive disk.old) (view D.Drive disk.new) }
{
    let loose = LooseName::new(term, index);
    if let Err(why) = clear(disk, loose.as_str()) {
        return why;
    }
    write_file(disk, FileKind::Format, loose.as_str(), FORMAT_NAME, file)
}

/// Takes away what stands under a loose name. `Failed`, with the counts before and after, where the drive failed; that
/// nothing stands there is no fault.
fn clear<D: Drive>(disk: &mut D, loose: &str) -> Result<(), Why>
    ensures { Clears loose.now result (view D.Drive disk.old) (view D.Drive disk.new) }
{
    match discard_on(disk, FileKind::Format, loose) {
        Err(Why::Failed { before, after }) => Err(Why::Failed { before, after }),
        _ => Ok(()),
    }
}
