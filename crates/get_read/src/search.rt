//! The search for a manifest that serves, by one drive call a step.

ghost use Rattle.std.specs.Prelude.{◌≡◌, ◌<◌, ◌≤◌, ℕ, IsTrue, IsFalse, length, min, slice_index_or, string_bytes};
ghost use Rattle.std.specs.Int.{IsBitSet};
ghost use Rattle.call_types.specs.declared.why.Why.TheVariants.{Good};
ghost use Rattle.body_print.specs.Names.{manifest_name};
ghost use Rattle.manifest_file.specs.Canonical.{IsCanonical};
ghost use Rattle.manifest_file.specs.Spelling.{file_of};
ghost use Rattle.get_read.specs.Causes.{Fits, body_length};
ghost use Rattle.get_read.specs.Manifests.{IsServed};
ghost use Rattle.get_read.specs.Outcomes.{wanted_of};

use crate::calls::{call_piece, call_size, past_out};
use crate::faults::BodyFault;
use crate::state::Asked;
use body_print::name_of_manifest;
use call_types::{FileKind, Why, Whys};
use drive_base::{Drive, SetPlan};
use file_access::FetchFault;
use manifest_file::{LONGEST_FILE, Manifest, ManifestPart, print_of, read};
use seal_file::{Damage, RecordFault};
use std::alloc::{AllocError, Global};

/// What a manifest must have: a print, a set's numbers, and parts that reach to a length.
#[derive(Clone, Copy)]
pub struct Wanted {
    /// The set.
    pub set: SetPlan,
    /// The print.
    pub print: [u8; 32],
    /// How many bytes the body must have at least.
    pub reach: u64,
}

/// The search for a manifest that serves, drive by drive.
#[derive(Drop)]
pub struct Search {
    /// What is asked for.
    pub asked: Asked,
    /// The manifest's name.
    pub name: String,
    /// How many drives are tried, those that are out included.
    pub tried: u8,
    /// The length of the next drive's file, once it is told.
    pub size: Option<u64>,
    /// Why the drives that are tried gave none.
    pub whys: Whys,
    pub ghost is_name: { string_bytes name ≡ manifest_name asked.id },
    pub ghost few: { tried ≤ asked.wanted.set.drives },
    pub ghost next_in_use: { tried < asked.wanted.set.drives → IsBitSet asked.wanted.set.out tried → ⊥ },
    pub ghost letters: { length whys ≡ asked.wanted.set.drives },
    pub ghost untried: { (k : ℕ) → tried ≤ k → slice_index_or whys k Good ≡ Good },
}

/// What a call of a search gave.
#[derive(Drop)]
pub enum SearchFind {
    /// The length of the file.
    Size(u64),
    /// The manifest that the file has.
    File(Manifest),
}

impl Search {
    ghost use Rattle.std.specs.Prelude.{[], None, IfOk};
    ghost use Rattle.drive_base.specs.View.{AllOnlyRead, OnlyRead, view, views};
    ghost use Rattle.get_read.specs.Progress.{FindsSuiting, LookCall, SearchSteps};
    ghost use Rattle.get_read.specs.Calls.{IdleOrCalled};
    ghost use Rattle.get_read.specs.Measure.{FallsOn, search_left};
    ghost use Rattle.get_read.specs.PassedDrives.{PassesDrive};
    ghost use Rattle.get_read.specs.Readers.{IsSearchOf};

    /// A search of which no call is made.
    pub fn new(alloc: Global, asked: Asked) -> Result<Search, AllocError>
        ensures asked { IfOk result (λ search. search.asked ≡ asked) }
        ensures none { IfOk result (λ search. IsSearchOf search []) }
    {
        let mut whys = Whys::all_good(asked.wanted.set.drives);
        let tried = past_out(&asked.wanted.set, 0, &mut whys);
        let name = name_of_manifest(alloc, asked.id)?;
        Ok(Search {
            asked,
            name,
            tried,
            size: None,
            whys,
        })
    }

    /// Does one call of the next drive, and answers the manifest where that one gave it. `ShardQuorum` where no drive is
    /// left.
    pub fn step<D: Drive>(
        &mut self,
        alloc: Global,
        drives: &mut [D],
    ) -> Result<Option<Manifest>, BodyFault>
        requires { length drives.old ≡ self.old.asked.wanted.set.drives }
        ensures steps { SearchSteps D.Drive self.old self.new result drives.old drives.new }
        ensures suits { FindsSuiting self.old.asked result }
        ensures fewer { FallsOn result (search_left self.old) (search_left self.new) }
        ensures read { AllOnlyRead (views D.Drive drives.old) (views D.Drive drives.new) }
    {
        if self.tried == self.asked.wanted.set.drives {
            return Err(BodyFault::ShardQuorum(self.whys));
        }
        let drive = &mut drives[self.tried as usize];
        match self.look(alloc, drive) {
            Ok(SearchFind::Size(size)) => {
                self.size = Some(size);
                Ok(None)
            }
            Ok(SearchFind::File(manifest)) => Ok(Some(manifest)),
            Err(FetchFault::NoMemory) => Err(BodyFault::NoMemory),
            Err(FetchFault::Because(why)) => {
                self.pass(why);
                if self.tried == self.asked.wanted.set.drives {
                    return Err(BodyFault::ShardQuorum(self.whys));
                }
                Ok(None)
            }
        }
    }

    /// One call of a drive: its file's length, or then the file, and the manifest if it serves.
    fn look<D: Drive>(&self, alloc: Global, drive: &mut D) -> Result<SearchFind, FetchFault>
        ensures called { LookCall self.now result (view D.Drive drive.old) (view D.Drive drive.new) }
        ensures idle { IdleOrCalled D.Drive result drive.old drive.new }
        ensures read { OnlyRead (view D.Drive drive.old) (view D.Drive drive.new) }
    {
        let name = self.name.as_str();
        let Some(long) = self.size else {
            let size = call_size(drive, FileKind::Manifest, name)?;
            if size > LONGEST_FILE {
                return Err(FetchFault::Because(Why::Damaged(Damage::Long(size))));
            }
            return Ok(SearchFind::Size(size));
        };
        let file = call_piece(alloc, drive, FileKind::Manifest, name, 0, long)?;
        match read_manifest(alloc, &self.asked.wanted, file.as_slice()) {
            Ok(manifest) => Ok(SearchFind::File(manifest)),
            Err(fault) => Err(fault),
        }
    }

    /// Leaves the drive that was called last, with its letter.
    fn pass(&mut self, why: Why)
        requires { self.old.tried < self.old.asked.wanted.set.drives }
        ensures letters { PassesDrive self.old.asked.wanted.set why self.old.tried self.new.tried self.old.whys self.new.whys }
        ensures asked { self.new.asked ≡ self.old.asked }
        ensures name { self.new.name ≡ self.old.name }
        ensures size { self.new.size ≡ None }
    {
        let set = self.asked.wanted.set;
        self.whys.set(self.tried as usize, why);
        self.size = None;
        self.tried = past_out(&set, self.tried + 1, &mut self.whys);
    }
}

/// The manifest of a file, if it serves.
fn read_manifest(alloc: Global, wanted: &Wanted, file: &[u8]) -> Result<Manifest, FetchFault>
    ensures { IsServed (wanted_of wanted.now.set wanted.now.print wanted.now.reach) file.now result }
{
    match read(alloc, file) {
        Ok(manifest) => check_manifest(wanted, manifest, file.len() as u64),
        Err(RecordFault::Unsealed(damage)) => Err(FetchFault::Because(Why::Damaged(damage))),
        Err(RecordFault::NotCanonical(place)) => {
            Err(FetchFault::Because(Why::Damaged(Damage::Spelling(place))))
        }
        Err(RecordFault::NoMemory) => Err(FetchFault::NoMemory),
    }
}

/// A manifest, if it serves. Its file has so many bytes.
fn check_manifest(wanted: &Wanted, manifest: Manifest, long: u64) -> Result<Manifest, FetchFault>
    requires canonical { IsCanonical manifest }
    requires long { long ≡ length (file_of manifest) }
    ensures { IsServed (wanted_of wanted.now.set wanted.now.print wanted.now.reach) (file_of manifest) result }
{
    let computed = print_of(&manifest);
    if computed != wanted.print {
        let stored = wanted.print;
        return Err(FetchFault::Because(Why::Damaged(Damage::Digest { stored, computed })));
    }
    if !fits(wanted, &manifest) {
        return Err(FetchFault::Because(Why::Damaged(Damage::Spelling(long - 36))));
    }
    Ok(manifest)
}

/// Whether a manifest is of the set's numbers, and its body long enough.
fn fits(wanted: &Wanted, manifest: &Manifest) -> bool
    ensures fit { IsTrue result → Fits (wanted_of wanted.now.set wanted.now.print wanted.now.reach) manifest.now }
    ensures unfit { IsFalse result → Fits (wanted_of wanted.now.set wanted.now.print wanted.now.reach) manifest.now → ⊥ }
{
    if manifest.drives != wanted.set.drives {
        return false;
    }
    if manifest.parity != wanted.set.parity {
        return false;
    }
    wanted.reach <= length_of(manifest.parts.as_slice())
}

/// The length of a body, as its parts say it, or the greatest number.
fn length_of(parts: &[ManifestPart]) -> u64
    ensures { result ≡ min (body_length parts.now) 18446744073709551615 }
{
    let mut long = 0u64;
    for part in parts {
        long = long.saturating_add(part.length);
    }
    long
}
