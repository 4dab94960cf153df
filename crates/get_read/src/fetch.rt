//! The reading of a stripe, or of a window that begins with it, by one drive call a step.

ghost use Rattle.std.specs.Prelude.{◌≡◌, ◌<◌, ◌≤◌, ◌+◌, ◌*◌, All, length, slice_index_or, string_bytes, take};
ghost use Rattle.std.specs.Int.{IsBitSet};
ghost use Rattle.drive_base.specs.Plan.{data_drives};
ghost use Rattle.body_print.specs.Names.{shard_name};
ghost use Rattle.manifest_file.specs.declared.manifest.ManifestPart.{ManifestPart};
ghost use Rattle.shard_file.specs.Stripes.{block_size, stripe_length, stripe_size};
ghost use Rattle.get_read.specs.Causes.{body_length};
ghost use Rattle.get_read.specs.Windows.{FitsAhead};

use crate::calls::{ShownBlock, call_block, call_piece, call_table};
use crate::faults::BodyFault;
use crate::state::{Asked, PartWork, StripeWork};
use crate::window::{Window, WindowFind};
use call_types::FileKind;
use drive_base::{Drive, SetPlan};
use file_access::FetchFault;
use manifest_file::Manifest;
use shard_file::STRIPE;
use std::alloc::Global;
use std::mem;

/// A stripe of a part of a manifest that is read.
#[derive(Drop)]
pub struct Fetching {
    /// What is asked for.
    pub asked: Asked,
    /// The manifest.
    pub manifest: Manifest,
    /// The place of the next byte in the body.
    pub at: u64,
    /// The part.
    pub part: PartWork,
    /// The stripe.
    pub work: StripeWork,
    /// The window that begins at it, of whose stripes no call was made alone.
    pub ahead: Option<Window>,
    pub ghost roots: { All (λ part. length part.roots ≡ asked.wanted.set.drives) manifest.parts },
    pub ghost reaches: { asked.wanted.reach ≤ body_length manifest.parts },
    pub ghost in_manifest: { part.place < length manifest.parts },
    pub ghost begins: { part.begin ≡ body_length (take part.place manifest.parts) },
    pub ghost part_long: { (d : ManifestPart) → (slice_index_or manifest.parts part.place d).length ≡ part.long },
    pub ghost is_name: { (d : ManifestPart) → string_bytes part.name ≡ shard_name (slice_index_or manifest.parts part.place d).id },
    pub ghost tables: { length part.tables.items ≡ asked.wanted.set.drives },
    pub ghost after_begin: { asked.span.at ≤ at },
    pub ghost before_end: { at < asked.wanted.reach },
    pub ghost begun: { part.begin + work.stripe * stripe_size ≤ at },
    pub ghost in_part: { at < part.begin + part.long },
    pub ghost in_stripe: { at < part.begin + work.stripe * stripe_size + stripe_size },
    pub ghost size: { work.size ≡ block_size (data_drives asked.wanted.set.drives asked.wanted.set.parity) (stripe_length part.long work.stripe) },
    pub ghost few: { work.tried ≤ asked.wanted.set.drives },
    pub ghost next_in_use: { work.tried < asked.wanted.set.drives → IsBitSet asked.wanted.set.out work.tried → ⊥ },
    pub ghost letters: { length work.whys ≡ asked.wanted.set.drives },
    pub ghost fewer: { length work.found.rows.items < data_drives asked.wanted.set.drives asked.wanted.set.parity },
    pub ghost ahead_fits: { FitsAhead asked.wanted.set part.long work.stripe ahead },
}

/// What a call for a stripe gave.
#[derive(Drop)]
pub enum StripeFind {
    /// The digest table of a drive's shard.
    Table(Vec<u8>),
    /// A block.
    Block(ShownBlock),
}

impl Fetching {
    ghost use Rattle.std.specs.Prelude.{None};
    ghost use Rattle.drive_base.specs.View.{AllOnlyRead, OnlyRead, view, views};
    ghost use Rattle.file_access.specs.Reading.{IdleWithout};
    ghost use Rattle.get_read.specs.Progress.{FetchCall, FetchSteps, GivesSoLong};
    ghost use Rattle.get_read.specs.Measure.{FallsOn, stripe_left};

    /// Does one call of the next drive, and answers the bytes of the stripe, or of a window that begins with it, once enough
    /// blocks verify. `ShardQuorum` where no drive is left.
    pub fn step<D: Drive>(
        &mut self,
        alloc: Global,
        drives: &mut [D],
    ) -> Result<Option<Vec<u8>>, BodyFault>
        requires { length drives.old ≡ self.old.asked.wanted.set.drives }
        ensures steps { FetchSteps D.Drive self.old self.new result drives.old drives.new }
        ensures long { GivesSoLong (stripe_length self.new.part.long self.new.work.stripe) result }
        ensures fewer { FallsOn result (stripe_left self.old) (stripe_left self.new) }
        ensures read { AllOnlyRead (views D.Drive drives.old) (views D.Drive drives.new) }
    {
        match mem::replace(&mut self.ahead, None) {
            Some(window) => self.step_window(alloc, window, drives),
            None => self.step_alone(alloc, drives),
        }
    }

    /// One call for the stripe alone.
    fn step_alone<D: Drive>(
        &mut self,
        alloc: Global,
        drives: &mut [D],
    ) -> Result<Option<Vec<u8>>, BodyFault>
        requires drives { length drives.old ≡ self.old.asked.wanted.set.drives }
        requires none { self.old.ahead ≡ None }
        ensures steps { FetchSteps D.Drive self.old self.new result drives.old drives.new }
        ensures long { GivesSoLong (stripe_length self.new.part.long self.new.work.stripe) result }
        ensures fewer { FallsOn result (stripe_left self.old) (stripe_left self.new) }
        ensures read { AllOnlyRead (views D.Drive drives.old) (views D.Drive drives.new) }
    {
        let set = self.asked.wanted.set;
        let long = (self.part.long - self.work.stripe * STRIPE).min(STRIPE) as usize;
        if self.work.tried == set.drives {
            return self.work.judge(alloc, &set, long);
        }
        let drive = &mut drives[self.work.tried as usize];
        match self.call(alloc, drive) {
            Ok(StripeFind::Table(table)) => {
                self.part.hold(self.work.tried as usize, table);
                Ok(None)
            }
            Ok(StripeFind::Block(fetched)) => {
                self.work.add(alloc, &set, &fetched)?;
                self.work.judge(alloc, &set, long)
            }
            Err(FetchFault::Because(why)) => {
                self.work.pass(&set, why);
                self.work.judge(alloc, &set, long)
            }
            Err(FetchFault::NoMemory) => Err(BodyFault::NoMemory),
        }
    }

    /// One call of the next drive: its digest table, or its block where the table is held.
    fn call<D: Drive>(&self, alloc: Global, drive: &mut D) -> Result<StripeFind, FetchFault>
        requires { self.now.work.tried < self.now.asked.wanted.set.drives }
        ensures called { FetchCall self.now result (view D.Drive drive.old) (view D.Drive drive.new) }
        ensures idle { IdleWithout result drive.old drive.new }
        ensures read { OnlyRead (view D.Drive drive.old) (view D.Drive drive.new) }
    {
        let index = self.work.tried as usize;
        let part = &self.manifest.parts.as_slice()[self.part.place];
        let name = self.part.name.as_str();
        let set = &self.asked.wanted.set;
        let table = self.part.table(index);
        if table.is_empty() {
            let table = call_table(alloc, set, part, index, name, drive)?;
            return Ok(StripeFind::Table(table));
        }
        let fetched = call_block(alloc, set, part, self.work.stripe, name, table, drive)?;
        Ok(StripeFind::Block(fetched))
    }
}

impl Fetching {
    ghost use Rattle.std.specs.Prelude.{None};
    ghost use Rattle.drive_base.specs.View.{AllOnlyRead, OnlyRead, view, views};
    ghost use Rattle.file_access.specs.Reading.{IdleWithout};
    ghost use Rattle.get_read.specs.Progress.{GivesSoLong, ShowsRun, StaysBesides, WindowSteps, next_digests, table_held};
    ghost use Rattle.get_read.specs.Blocks.{all_bytes};
    ghost use Rattle.get_read.specs.Measure.{FallsOn, run_left, stripe_left};
    ghost use Rattle.get_read.specs.Windows.{FitsWindow, GoesOn, RunPasses, RunTakes, TurnsOn};

    /// Does one call of the next drive of a window, and answers the bytes of its stripes once enough drives gave their
    /// blocks and these verify. Where a block doesn't, or no drive is left, the window is given up, and its first stripe is
    /// read alone.
    fn step_window<D: Drive>(
        &mut self,
        alloc: Global,
        window: Window,
        drives: &mut [D],
    ) -> Result<Option<Vec<u8>>, BodyFault>
        requires drives { length drives.old ≡ self.old.asked.wanted.set.drives }
        requires none { self.old.ahead ≡ None }
        requires fits { FitsWindow self.old.asked.wanted.set self.old.part.long self.old.work.stripe window }
        ensures steps { WindowSteps D.Drive self.old window self.new result drives.old drives.new }
        ensures long { GivesSoLong stripe_size result }
        ensures fewer { FallsOn result (run_left self.old.asked.wanted.set (all_bytes self.old.part.tables.items) window + stripe_left self.old) (stripe_left self.new) }
        ensures read { AllOnlyRead (views D.Drive drives.old) (views D.Drive drives.new) }
    {
        let index = window.tried as usize;
        let drive = &mut drives[index];
        match self.call_window(alloc, &window, drive) {
            Ok(WindowFind::Table(table)) => {
                self.part.hold(index, table);
                self.ahead = Some(window);
                Ok(None)
            }
            Ok(WindowFind::Run(run)) => self.take_run(alloc, window, run.as_slice()),
            Err(FetchFault::Because(_)) => {
                self.pass_run(window);
                Ok(None)
            }
            Err(FetchFault::NoMemory) => Err(BodyFault::NoMemory),
        }
    }

    /// One call of the next drive of a window: its digest table, or its blocks where the table is held.
    fn call_window<D: Drive>(
        &self,
        alloc: Global,
        window: &Window,
        drive: &mut D,
    ) -> Result<WindowFind, FetchFault>
        requires { FitsWindow self.now.asked.wanted.set self.now.part.long self.now.work.stripe window.now }
        ensures called { ShowsRun self.now window.now result (view D.Drive drive.old) (view D.Drive drive.new) }
        ensures idle { IdleWithout result drive.old drive.new }
        ensures read { OnlyRead (view D.Drive drive.old) (view D.Drive drive.new) }
    {
        let index = window.tried as usize;
        let part = &self.manifest.parts.as_slice()[self.part.place];
        let name = self.part.name.as_str();
        let set = &self.asked.wanted.set;
        if self.part.table(index).is_empty() {
            let table = call_table(alloc, set, part, index, name, drive)?;
            return Ok(WindowFind::Table(table));
        }
        let at = window.first * window.size as u64;
        let long = (window.count * window.size) as u64;
        let run = call_piece(alloc, drive, FileKind::Shard, name, at, long)?;
        Ok(WindowFind::Run(run))
    }

    /// Adds the blocks of the next drive. Where enough drives gave theirs, the bytes of the stripes come from them.
    fn take_run(
        &mut self,
        alloc: Global,
        window: Window,
        run: &[u8],
    ) -> Result<Option<Vec<u8>>, BodyFault>
        requires none { self.old.ahead ≡ None }
        requires fits { FitsWindow self.old.asked.wanted.set self.old.part.long self.old.work.stripe window }
        requires run { length run.now ≡ window.count * window.size }
        requires held { 0 < length (table_held self.old window.tried) }
        ensures takes { RunTakes self.old.asked.wanted.set window run.now (next_digests self.old window) result self.new.ahead }
        ensures stays { StaysBesides self.old self.new }
    {
        let set = self.asked.wanted.set;
        let table = self.part.table(window.tried as usize);
        let window = window.with_run(run, table)?;
        if window.rows.len() < set.read_quorum() as usize {
            self.go_on(window);
            return Ok(None);
        }
        if !window.verifies() {
            return Ok(None);
        }
        let bytes = window.rebuild(alloc, &set)?;
        Ok(Some(bytes))
    }

    /// Passes the next drive over.
    fn pass_run(&mut self, mut window: Window)
        requires none { self.old.ahead ≡ None }
        requires fits { FitsWindow self.old.asked.wanted.set self.old.part.long self.old.work.stripe window }
        ensures passes { RunPasses window self.new.ahead }
        ensures stays { StaysBesides self.old self.new }
    {
        window.tried += 1;
        self.go_on(window);
    }

    /// Goes on with a window, where a drive is left.
    fn go_on(&mut self, mut window: Window)
        requires none { self.old.ahead ≡ None }
        requires fits { GoesOn self.old.asked.wanted.set self.old.part.long self.old.work.stripe window }
        ensures goes { TurnsOn window self.new.ahead }
        ensures stays { StaysBesides self.old self.new }
    {
        let next = next_in_use(&self.asked.wanted.set, window.tried);
        if next == self.asked.wanted.set.drives {
            return;
        }
        window.tried = next;
        self.ahead = Some(window);
    }
}

/// The first drive from a place on that isn't out, or as many as there are.
fn next_in_use(set: &SetPlan, from: u8) -> u8
    requires { from ≤ set.now.drives }
    ensures least { from ≤ result }
    ensures most { result ≤ set.now.drives }
    ensures in_use { result < set.now.drives → IsBitSet set.now.out result → ⊥ }
{
    let mut next = from;
    while next < set.drives {
        if !set.is_out(next) {
            return next;
        }
        next += 1;
    }
    next
}
