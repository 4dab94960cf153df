//! How far a listing of a bucket is.

ghost use Rattle.std.specs.Prelude.{◌≡◌, ◌<◌, ◌≤◌, length, string_bytes};
ghost use Rattle.slot_history.specs.Names.{key_name};
ghost use Rattle.drive_base.specs.declared.drive.TheConstants.{LONGEST_NAME};

use call_types::{Cut, Key, Reply, VersionRow};

/// A key whose register is looked at.
#[derive(Drop)]
pub struct Wanted {
    /// The name of its register.
    pub(crate) name: String,
    /// The key.
    pub(crate) at: Key,
    /// Its slot.
    pub(crate) slot: u8,
    pub ghost named: { string_bytes name ≡ key_name at },
    pub ghost short: { length (string_bytes name) ≤ LONGEST_NAME },
    pub ghost within: { slot < 64 },
}

/// What a listing has so far. It goes on in rounds: each asks all slots for names from one on, and then looks at the keys that were found, in the order of
/// their names.
#[derive(Drop)]
pub struct Work {
    /// The name from which on the slots are asked. All keys whose names stand before it are done with.
    pub(crate) from: String,
    /// How many names are asked of a slot at most.
    pub(crate) most: u32,
    /// The slot that is asked next.
    pub(crate) slot: u8,
    /// The name up to which the names of all slots that were asked are known; without one all are.
    pub(crate) bound: Option<String>,
    /// The names of keys that were found in this round, rising once all slots are asked.
    pub(crate) found: Vec<String>,
    /// How many of these are done with.
    pub(crate) at: usize,
    /// The name that was looked at last.
    pub(crate) last: Option<String>,
    /// The rows so far.
    pub(crate) rows: Vec<VersionRow>,
    /// How many sections more may go on to another one.
    pub(crate) sections_left: u64,
    pub ghost within: { slot < 64 },
    pub ghost reached: { at ≤ length found.items },
}

/// How far a listing is.
#[derive(Drop)]
pub enum PageState {
    /// The look at the bucket comes next.
    Looking,
    /// The next slot is asked for names next.
    Asking(Work),
    /// The look at this key comes next.
    Viewing(Work, Wanted),
    /// This reply is told next.
    Telling(Reply),
    /// It is over, and was cut for this, if it was.
    Over(Option<Cut>),
}
