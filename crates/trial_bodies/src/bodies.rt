//! What rows leave for the next ones.

use crate::reading::Reading;
use crate::watched::Watched;
use crate::work::Work;
use crate::{drive_rows, read_rows, stage_rows};
use drive_base::SetPlan;
use stamp_id::{Ballot, ChangeId, VersionId};
use std::alloc::Global;
use std::mem;
use trial_base::{Names, NoAnswer, Rows, first, said};

/// The drives of a set, the stage of a body over them, and the reader of one.
#[derive(Drop)]
pub struct Bodies {
    /// The set.
    pub set: SetPlan,
    /// Its drives.
    pub drives: Vec<Watched>,
    /// The stage.
    pub work: Option<Work>,
    /// The reader.
    pub reading: Option<Reading>,
}

impl Bodies {
    /// A set without drives.
    pub fn new(alloc: Global) -> Bodies {
        Bodies {
            set: SetPlan::new([7; 16], 4, 2),
            drives: Vec::new(alloc),
            work: None,
            reading: None,
        }
    }

    /// Turns to another stage.
    pub fn turn_to_stage(&mut self, work: Work) {
        let last = mem::replace(&mut self.work, Some(work));
        drop(last);
    }

    /// Turns to another reader.
    pub fn turn_to_reader(&mut self, reading: Reading) {
        let last = mem::replace(&mut self.reading, Some(reading));
        drop(last);
    }
}

impl Rows for Bodies {
    fn answer(&mut self, alloc: Global, names: &Names, asked: &str) -> Result<String, NoAnswer> {
        let (crate_name, words) = first(asked);
        match crate_name {
            "drives" => drive_rows::answer(self, alloc, names, words),
            "put_stage" => stage_rows::answer(self, alloc, names, words),
            "get_read" => read_rows::answer(self, alloc, names, words),
            _ => said(alloc, "no such crate"),
        }
    }
}

/// The id of term 1, this slot and sequence number 7.
pub fn id(slot: u64) -> VersionId {
    let change = ChangeId(Ballot { term: 1, seq: 7 });
    VersionId::from_parts(change, slot.min(63) as u8)
}
