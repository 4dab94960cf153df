//! Files that are in place.

ghost use Rattle.std.specs.Prelude.{◌≡◌, ◌<◌, ◌≤◌, length};
ghost use Rattle.std.specs.Bool.{OnTrue, OnFalse};
ghost use Rattle.drive_memory.specs.Damage.{hurt_bytes};
ghost use Rattle.drive_memory.specs.Maps.{kept_bytes, shown_bytes};

use std::snapshot::Snapshot;

/// A file that is in place.
#[derive(Drop)]
pub(crate) struct PlacedFile {
    /// The bytes that a read gives.
    pub(crate) shown: Vec<u8>,
    /// The bytes that were put in place, which contracts alone see: no call gives them, so they take no memory.
    pub(crate) kept: Snapshot<Vec<u8>>,
}

impl PlacedFile {
    /// A file that was put in place just now.
    pub(crate) fn new(bytes: Vec<u8>) -> PlacedFile
        ensures kept { kept_bytes result ≡ bytes.items }
        ensures shown { shown_bytes result ≡ bytes.items }
    {
        let kept = Snapshot::of(&bytes);
        PlacedFile { shown: bytes, kept }
    }

    /// Turns each bit of one shown byte round, and answers whether that byte is there.
    pub(crate) fn hurt(&mut self, place: u64) -> bool
        ensures kept { kept_bytes self.new ≡ kept_bytes self.old }
        ensures there { OnTrue result (place < length (shown_bytes self.old)) }
        ensures hurt { OnTrue result (shown_bytes self.new ≡ hurt_bytes (shown_bytes self.old) place) }
        ensures absent { OnFalse result (length (shown_bytes self.old) ≤ place) }
        ensures whole { OnFalse result (shown_bytes self.new ≡ shown_bytes self.old) }
    {
        if place >= self.shown.len() as u64 {
            return false;
        }
        let index = place as usize;
        self.shown[index] ^= 0xFF;
        true
    }
}
