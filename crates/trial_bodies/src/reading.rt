//! A reader at work.

ghost use Rattle.std.specs.Prelude.{◌≡◌, ◌+◌, ◌<◌, ◌^◌, length};

use crate::bodies::id;
use crate::watched::Watched;
use call_types::Span;
use drive_base::SetPlan;
use fault_base::NoMemory;
use get_read::{BodyFault, ReadStep, Reader};
use manifest_file::Manifest;
use std::alloc::Global;

/// A reader on the drives of a set.
#[derive(Drop)]
pub struct Reading {
    /// How many drives the set has.
    drives: u8,
    reader: Reader,
    pub ghost set_is: { reader.asked.wanted.set.drives ≡ drives },
}

impl Reading {
    /// A reader of a span of the body with this print, of the id with this slot.
    pub fn new(
        alloc: Global,
        set: &SetPlan,
        print: [u8; 32],
        slot: u64,
        span: Span,
    ) -> Result<Reading, NoMemory>
        requires { span.at + span.length < 2 ^ 64 }
    {
        let reader = Reader::new(alloc, set, print, id(slot), span)?;
        Ok(Reading {
            drives: set.drives,
            reader,
        })
    }

    /// One step. An invalid range where there is another number of drives.
    pub fn step(&mut self, alloc: Global, drives: &mut [Watched]) -> Result<ReadStep, BodyFault>
        ensures { length drives.new ≡ length drives.old }
    {
        if drives.len() != self.drives as usize {
            return Err(BodyFault::InvalidRange(0));
        }
        self.reader.step(alloc, drives)
    }

    /// The last piece.
    pub fn piece(&self) -> &[u8] {
        self.reader.piece()
    }

    /// The manifest, once it is found.
    pub fn manifest(&self) -> Option<&Manifest> {
        self.reader.manifest()
    }
}
