//! The files of a drive, whatever befalls its calls.

ghost use Rattle.std.specs.Prelude.{◌≡◌, length, map, IfOk, string_bytes};
ghost use Rattle.std.specs.Option.{option_map};
ghost use Rattle.drive_base.specs.Files.{no_files};
ghost use Rattle.drive_base.specs.Leaves.{ReadBytes};
ghost use Rattle.drive_base.specs.Names.{IsPage, ListsShown};
ghost use Rattle.drive_memory.specs.Contents.{held_files};
ghost use Rattle.drive_memory.specs.Damage.{HurtLeaves, after_stop};
ghost use Rattle.drive_memory.specs.Does.{AppendDoes, SyncDoes, RenameDoes, DiscardDoes, RemoveDoes};
ghost use Rattle.drive_memory.specs.Reads.{ReadShows};

use crate::loose::{self, Loose};
use crate::maps;
use crate::placed::PlacedFile;
use drive_base::{DriveFault, LONGEST_NAME, page};
use std::alloc::{AllocError, Global};
use std::collections::BTreeMap;

/// What a drive holds. Its calls fail for want of memory alone.
#[derive(Drop)]
pub(crate) struct Contents {
    alloc: Global,
    /// The files that are being written.
    loose: BTreeMap<String, Loose>,
    /// The files that are in place.
    placed: BTreeMap<String, PlacedFile>,
}

/// Copies the bytes from a place on to the front of `into`, and answers how many there were.
fn copy_from(bytes: &[u8], at: u64, into: &mut [u8]) -> usize
    ensures { ReadBytes bytes.now at into.old result into.new }
{
    let start = at.min(bytes.len() as u64) as usize;
    let rest = &bytes[start..];
    let count = rest.len().min(into.len());
    into[..count].copy_from_slice(&rest[..count]);
    count
}

#[tactic(auto, unfolding(crate::specs::Contents::held_files))]
impl Contents {
    /// No file.
    pub(crate) fn new(alloc: Global) -> Contents
        ensures { held_files result ≡ no_files }
    {
        Contents {
            alloc,
            loose: BTreeMap::new(alloc),
            placed: BTreeMap::new(alloc),
        }
    }

    /// The length of a shown file.
    pub(crate) fn size(&self, name: &str) -> Option<u64>
        ensures { result ≡ option_map length ((held_files self.now).shown name.now) }
    {
        let file = self.placed.get(name)?;
        Some(file.shown.len() as u64)
    }

    /// Fills the front of `into` with the bytes of a shown file from a place on.
    pub(crate) fn read(&self, name: &str, at: u64, into: &mut [u8]) -> Option<usize>
        ensures { ReadShows (held_files self.now).shown name.now at into.old result into.new }
    {
        let Some(file) = self.placed.get(name) else {
            return None;
        };
        Some(copy_from(&file.shown, at, into))
    }

    /// Adds bytes at the end of a loose file.
    pub(crate) fn append(&mut self, loose: &str, bytes: &[u8]) -> Result<(), DriveFault>
        ensures { AppendDoes (held_files self.old) loose.now bytes.now result (held_files self.new) }
    {
        if loose::append(&mut self.loose, self.alloc, loose, bytes).is_err() {
            return Err(DriveFault::Failed);
        }
        Ok(())
    }

    /// Makes a loose file last.
    pub(crate) fn sync(&mut self, loose: &str) -> Result<(), DriveFault>
        ensures { SyncDoes (held_files self.old) loose.now result (held_files self.new) }
    {
        if !loose::sync(&mut self.loose, loose) {
            return Err(DriveFault::Absent);
        }
        Ok(())
    }

    /// Puts the bytes of a loose file in place.
    pub(crate) fn rename(&mut self, loose: &str, name: &str) -> Result<(), DriveFault>
        ensures { RenameDoes (held_files self.old) loose.now name.now result (held_files self.new) }
    {
        let Some(file) = maps::take(&mut self.loose, loose) else {
            return Err(DriveFault::Absent);
        };
        let file = PlacedFile::new(file.into_placed());
        if maps::put(&mut self.placed, self.alloc, name, file).is_err() {
            return Err(DriveFault::Failed);
        }
        Ok(())
    }

    /// Takes a loose file away.
    pub(crate) fn discard(&mut self, loose: &str) -> Result<(), DriveFault>
        ensures { DiscardDoes (held_files self.old) loose.now result (held_files self.new) }
    {
        let Some(_) = maps::take(&mut self.loose, loose) else {
            return Err(DriveFault::Absent);
        };
        Ok(())
    }

    /// Takes a file in place away.
    pub(crate) fn remove(&mut self, name: &str) -> Result<(), DriveFault>
        ensures { RemoveDoes (held_files self.old) name.now result (held_files self.new) }
    {
        let Some(_) = maps::take(&mut self.placed, name) else {
            return Err(DriveFault::Absent);
        };
        Ok(())
    }

    /// The first `most` names of shown files from `from` on.
    pub(crate) fn names(
        &self,
        alloc: Global,
        from: &str,
        most: u32,
    ) -> Result<Vec<String>, AllocError>
        ensures page { IfOk result (λ names. IsPage from.now most LONGEST_NAME (map string_bytes names.items)) }
        ensures shown { IfOk result (λ names. ListsShown (held_files self.now).shown from.now most LONGEST_NAME (map string_bytes names.items)) }
    {
        let names = page(alloc, &self.placed, from, most)?;
        Ok(names)
    }

    /// Turns each bit of one shown byte round, and answers whether that byte is there.
    pub(crate) fn hurt(&mut self, name: &str, place: u64) -> bool
        ensures { HurtLeaves (held_files self.old) name.now place result (held_files self.new) }
    {
        let Some(file) = self.placed.get_mut(name) else {
            return false;
        };
        file.hurt(place)
    }

    /// Drops the loose files that aren't synced.
    pub(crate) fn stop(&mut self)
        ensures { held_files self.new ≡ after_stop (held_files self.old) }
    {
        loose::stop(&mut self.loose);
    }
}
