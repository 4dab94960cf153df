//! Slots and data drives, and what rows hold of them.

ghost use Rattle.std.specs.Prelude.{◌<◌, IfSome, length};

use crate::Line;
use crate::home::Home;
use crate::homes::Parts;
use drive_base::SetPlan;
use drive_memory::MemDrive;
use slot_core::{Flight, LAST_COUNT, LAST_SEQ, Pin};
use std::alloc::Global;
use std::collections::BTreeMap;
use trial_base::{Names, NoAnswer, first};

/// Slots of a set, the data drives, and the flights and pins that rows gave names.
#[derive(Drop)]
pub struct Store {
    /// The set.
    pub set: SetPlan,
    /// The slots that are open.
    pub homes: Vec<Home>,
    /// The data drives.
    pub disks: Vec<MemDrive>,
    /// The puts under way.
    pub flights: BTreeMap<String, Flight>,
    /// The pins of reads.
    pub pins: BTreeMap<String, Pin>,
}

/// `last`: the last numbers at which a section may begin.
fn last(alloc: Global) -> Result<String, NoAnswer> {
    let mut line = Line::new(alloc);
    line.say_number(LAST_SEQ);
    line.say(" ");
    line.say_number(LAST_COUNT);
    line.into_answer()
}

impl Store {
    /// A store without slots and drives.
    pub fn new(alloc: Global) -> Store {
        Store {
            set: SetPlan::new([7; 16], 4, 2),
            homes: Vec::new(alloc),
            disks: Vec::new(alloc),
            flights: BTreeMap::new(alloc),
            pins: BTreeMap::new(alloc),
        }
    }

    /// The place of the slot of this index, if it is open.
    pub fn place_of(&self, index: u8) -> Option<usize>
        ensures { IfSome result (λ place. place < length self.now.homes.items) }
    {
        self.homes.iter().position(|home| home.index == index)
    }

    /// Ends the life of the slot at this place.
    pub(crate) fn take(&mut self, place: usize) -> Parts
        requires { place < length self.old.homes.items }
    {
        let home = self.homes.remove(place);
        home.slot.close()
    }

    /// What a row is answered that is a step on the store.
    pub fn answer(
        &mut self,
        alloc: Global,
        names: &Names,
        words: &str,
    ) -> Result<String, NoAnswer> {
        let (step, _) = first(words);
        match step {
            "new" => self.begin(alloc, words),
            "open" => self.open(alloc, words),
            "place" => self.place(alloc, names, words),
            "close" => self.close(alloc, words),
            "turns" => self.turns(alloc, words),
            "last" => last(alloc),
            "lose" | "back" | "hurt" | "fuse" | "late" => self.trouble(alloc, step, words),
            _ => self.section(alloc, step, words),
        }
    }
}
