//! How far a list of buckets is.

ghost use Rattle.std.specs.Prelude.{◌≡◌, ◌<◌, ◌≤◌, length, string_bytes};
ghost use Rattle.slot_history.specs.Names.{bucket_name};
ghost use Rattle.drive_base.specs.declared.drive.TheConstants.{LONGEST_NAME};

use call_types::{BucketRow, Cut, Reply};
use seal_file::Text;

/// A bucket whose register is looked at.
#[derive(Drop)]
pub struct Wanted {
    /// The name of its register.
    pub(crate) name: String,
    /// The bucket.
    pub(crate) bucket: Text,
    pub ghost named: { string_bytes name ≡ bucket_name bucket },
    pub ghost short: { length (string_bytes name) ≤ LONGEST_NAME },
}

/// What a list of buckets has so far.
#[derive(Drop)]
pub struct Work {
    /// The slot whose names are gone over.
    pub(crate) slot: u8,
    /// The name from which on its page is. All up to this one are done with.
    pub(crate) from: String,
    /// The names of the page, once it was shown.
    pub(crate) names: Vec<String>,
    /// How many of these are done with.
    pub(crate) at: usize,
    /// The buckets that were found, by name.
    pub(crate) rows: Vec<BucketRow>,
    /// How many sections more may go on to another one.
    pub(crate) sections_left: u64,
    pub ghost within: { slot < 64 },
}

/// How far a list of buckets is.
#[derive(Drop)]
pub enum ListState {
    /// The next page of names comes next.
    Paging(Work),
    /// The look at this bucket comes next.
    Looking(Work, Wanted),
    /// This reply is told next.
    Telling(Reply),
    /// It is over, and was cut for this, if it was.
    Over(Option<Cut>),
}
