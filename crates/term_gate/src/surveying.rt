//! What the drives of a set have for formats.

ghost use Rattle.std.specs.Prelude.{◌≡◌, IfOk, length};
ghost use Rattle.drive_base.specs.View.{AllOnlyRead, views};
ghost use Rattle.term_gate.specs.Surveying.{AreSeen, IsSeen, Surveys};

use crate::deciding::top_of;
use crate::reading::{Reading, read_formats};
use crate::record::{Format, is_of};
use crate::seen::{Seen, Seens, Survey};
use call_types::{Listing, Why};
use drive_base::{Drive, SetPlan};
use fault_base::NoMemory;
use std::alloc::Global;

/// Reads the format of each drive, and changes nothing. Want of memory is the only error. The set's `out` isn't looked at.
pub fn survey<D: Drive>(alloc: Global, disks: &mut [D], set: SetPlan) -> Result<Survey, NoMemory>
    requires { length disks.old ≡ set.drives }
    ensures seen { IfOk result (λ survey. Surveys set survey.formats survey.term (views D.Drive disks.old) (views D.Drive disks.new)) }
    ensures only { AllOnlyRead (views D.Drive disks.old) (views D.Drive disks.new) }
{
    let reading = read_formats(alloc, disks)?;
    let term = top_of(reading.formats.as_slice());
    let formats = look_at(alloc, &set, &reading)?;
    Ok(Survey { formats, term })
}

/// What was found on each drive, by what was read.
fn look_at(alloc: Global, set: &SetPlan, reading: &Reading) -> Result<Seens, NoMemory>
    requires formats { length reading.now.formats.items ≡ set.now.drives }
    requires whys { length reading.now.whys ≡ set.now.drives }
    ensures { IfOk result (λ seens. AreSeen set.now reading.now.formats.items reading.now.whys seens) }
{
    let mut seens = Vec::with_capacity(alloc, set.drives as usize)?;
    for index in 0..set.drives {
        let why = reading.whys.get(index as usize);
        let seen = seen_of(set, index, &reading.formats[index as usize], why);
        seens.push(seen)?;
    }
    Ok(Listing::from_vec(seens))
}

/// What was found on the drive of this index.
fn seen_of(set: &SetPlan, index: u8, format: &Option<Format>, why: Why) -> Seen
    ensures { IsSeen set.now index format.now why result }
{
    let Some(format) = format else {
        return match why {
            Why::Failed { .. } => Seen::Failed,
            Why::Damaged(_) => Seen::Damaged,
            _ => Seen::Absent,
        };
    };
    if is_of(format, set, index) {
        Seen::Good
    } else {
        Seen::Other
    }
}
