//! A stage at work, and the feed of its body.

ghost use Rattle.std.specs.Prelude.{◌≡◌, ◌+◌, ◌≤◌, ◌^◌, true, length};
ghost use Rattle.manifest_file.specs.Canonical.{IsCanonical};

use crate::bodies::id;
use crate::others::Others;
use crate::source::Source;
use crate::watched::Watched;
use call_types::Feed;
use drive_base::SetPlan;
use fault_base::NoMemory;
use manifest_file::Manifest;
use put_stage::{Stage, StageFault, StageNext, Staged};
use std::alloc::Global;

/// A stage over the drives of a set, with the feed of its body.
#[derive(Drop)]
pub struct Work {
    /// How many drives the set has.
    drives: u8,
    stage: Stage,
    source: Source,
    /// Whether no fill was refused.
    is_open: bool,
    pub ghost set_is: { is_open ≡ true → stage.load.set.drives ≡ drives },
    pub ghost fed: { is_open ≡ true → (⟦<Source as Feed>⟧.seen source).given + stage.load.left ≡ (⟦<Source as Feed>⟧.seen source).stated },
}

/// What a stage did.
#[derive(Clone, Copy, Drop)]
pub enum Went {
    /// It took so many bytes.
    Took(u64),
    /// A fill was refused.
    Refused(StageFault),
    /// A call of a drive.
    Called,
    /// Its answer stands.
    Over,
    /// A fill was refused before, or there is another number of drives.
    Stuck,
}

/// What a stage did up to its end.
#[derive(Clone, Copy, Drop)]
pub struct Tally {
    /// How many fills.
    pub fills: u64,
    /// How many calls of drives.
    pub calls: u64,
    /// Why a fill was refused.
    pub fault: Option<StageFault>,
}

impl Work {
    /// A stage of a body of so many bytes, for the register of `k/pic/a`.
    pub fn of_body(
        alloc: Global,
        set: SetPlan,
        source: Source,
        stated: u64,
        md5: Option<[u8; 16]>,
    ) -> Result<Work, NoMemory>
        requires few { stated ≤ 5368709120 }
        requires stated { (⟦<Source as Feed>⟧.seen source).stated ≡ stated }
        requires given { (⟦<Source as Feed>⟧.seen source).given ≡ 0 }
    {
        let drives = set.drives;
        let stage = Stage::new(alloc, set, id(5), "k/pic/a", stated, md5)?;
        Ok(Work {
            drives,
            stage,
            source,
            is_open: true,
        })
    }

    /// A stage of a manifest alone.
    pub fn of_manifest(
        alloc: Global,
        set: SetPlan,
        manifest: Manifest,
        etag: [u8; 16],
    ) -> Result<Work, NoMemory>
        requires canonical { IsCanonical manifest }
        requires same_drives { manifest.drives ≡ set.drives }
        requires same_parity { manifest.parity ≡ set.parity }
    {
        let drives = set.drives;
        let stage = Stage::of_manifest(alloc, set, id(5), manifest, etag)?;
        let source = Source::new(Vec::new(alloc), 0, 0, false);
        Ok(Work {
            drives,
            stage,
            source,
            is_open: true,
        })
    }

    /// What comes next.
    pub fn next(&self) -> StageNext {
        self.stage.next()
    }

    /// How many bytes are not yet taken of the feed.
    pub fn left(&self) -> u64 {
        self.stage.left()
    }

    /// Does what comes next.
    pub fn go_on(&mut self, alloc: Global, drives: &mut [Watched]) -> Went
        ensures { length drives.new ≡ length drives.old }
    {
        if !self.is_open || drives.len() != self.drives as usize {
            return Went::Stuck;
        }
        match self.stage.next() {
            StageNext::Fill => self.fill(alloc),
            StageNext::Step => {
                self.stage.step(drives);
                Went::Called
            }
            StageNext::Finish => Went::Over,
        }
    }

    /// Takes the next bytes.
    fn fill(&mut self, alloc: Global) -> Went {
        if !self.is_open || self.stage.next() != StageNext::Fill {
            return Went::Stuck;
        }
        let left = self.stage.left();
        match self.stage.fill(alloc, &mut self.source) {
            Ok(()) => Went::Took(left.saturating_sub(self.stage.left())),
            Err(fault) => {
                self.is_open = false;
                Went::Refused(fault)
            }
        }
    }

    /// Runs the stage to its end, with others at work between its steps.
    pub fn run(&mut self, alloc: Global, drives: &mut [Watched], others: Others) -> Tally {
        let mut tally = Tally {
            fills: 0,
            calls: 0,
            fault: None,
        };
        for round in 0..1000u64 {
            others.work(round, drives);
            match self.go_on(alloc, drives) {
                Went::Took(_) => tally.fills = tally.fills.saturating_add(1),
                Went::Called => tally.calls = tally.calls.saturating_add(1),
                Went::Refused(fault) => {
                    tally.fault = Some(fault);
                    return tally;
                }
                Went::Over | Went::Stuck => return tally,
            }
        }
        tally
    }

    /// The answer, or none where it doesn't stand yet.
    pub fn finish(self) -> Option<Result<Staged, StageFault>> {
        let Work {
            drives: _,
            stage,
            source,
            is_open: _,
        } = self;
        drop(source);
        if stage.next() != StageNext::Finish {
            drop(stage);
            return None;
        }
        Some(stage.finish())
    }
}
