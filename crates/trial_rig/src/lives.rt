//! Rows on the lives of slots: `new`, `open`, `place`, `close`, `turns`.

use crate::homes::{Parts, fail_to_open, fresh_drives, open_home};
use crate::{FrailAudit, Line, Store, plan_of};
use call_types::FileKind;
use drive_base::{Drive, LONGEST_NAME};
use file_access::write_file;
use slot_core::SlotParts;
use std::alloc::Global;
use std::collections::BTreeMap;
use trial_base::{Names, NoAnswer, bytes, word};

/// A number, which has to be one.
pub(crate) fn count_of(word: &str) -> Result<u64, NoAnswer> {
    match word.parse::<u64>() {
        Ok(number) => Ok(number),
        Err(_) => Err(NoAnswer),
    }
}

/// A number below 256.
pub(crate) fn small_of(word: &str) -> Result<u8, NoAnswer> {
    match word.parse::<u8>() {
        Ok(number) => Ok(number),
        Err(_) => Err(NoAnswer),
    }
}

/// After how many times an audit fails, or never where there is no such word.
fn stumbles(word: &str) -> Result<Option<u64>, NoAnswer> {
    if word.is_empty() {
        return Ok(None);
    }
    Ok(Some(count_of(word)?))
}

impl Store {
    /// `new DRIVES PARITY`: a fresh store of such a set, of which no slot is open.
    pub(crate) fn begin(&mut self, alloc: Global, words: &str) -> Result<String, NoAnswer> {
        let set = plan_of(count_of(word(words, 1))?, count_of(word(words, 2))?)?;
        self.disks = fresh_drives(alloc, set.drives)?;
        self.set = set;
        self.homes = Vec::new(alloc);
        self.flights = BTreeMap::new(alloc);
        self.pins = BTreeMap::new(alloc);
        let mut line = Line::new(alloc);
        line.say_number(u64::from(set.drives));
        line.say(" drives, reads need ");
        line.say_number(u64::from(set.read_quorum()));
        line.say(", writes need ");
        line.say_number(u64::from(set.write_quorum()));
        line.into_answer()
    }

    /// The lanes of a slot, whose life ends where it is open. Those of one that was never opened are fresh.
    fn lanes_of(&mut self, alloc: Global, index: u8) -> Result<Parts, NoAnswer> {
        match self.place_of(index) {
            Some(place) => Ok(self.take(place)),
            None => Ok(SlotParts {
                lanes: fresh_drives(alloc, self.set.drives)?,
                audit: FrailAudit::new(None),
            }),
        }
    }

    /// `open FROM UPTO TERM TIMES`: a life of each of these slots begins under this term. Where times are said, its audit
    /// fails once, when it is asked for a place after so many times.
    pub(crate) fn open(&mut self, alloc: Global, words: &str) -> Result<String, NoAnswer> {
        let from = small_of(word(words, 1))?;
        let upto = small_of(word(words, 2))?;
        let term = count_of(word(words, 3))?;
        let mut line = Line::new(alloc);
        for index in from..upto {
            let SlotParts { lanes, audit: _ } = self.lanes_of(alloc, index)?;
            let audit = FrailAudit::new(stumbles(word(words, 4))?);
            let mut parts = SlotParts { lanes, audit };
            if word(words, 4) == "0" {
                parts = fail_to_open(alloc, &mut line, self.set, index, term, parts)?;
            }
            let home = open_home(alloc, self.set, index, term, parts)?;
            self.homes.push(home)?;
        }
        line.say("opened ");
        line.say_number(u64::from(upto.saturating_sub(from)));
        line.into_answer()
    }

    /// `place INDEX TERM LANE NAME BYTES`: a slot's life ends, a file is put in place on one of its lanes, and its next life
    /// begins under this term.
    pub(crate) fn place(
        &mut self,
        alloc: Global,
        names: &Names,
        words: &str,
    ) -> Result<String, NoAnswer> {
        let index = small_of(word(words, 1))?;
        let term = count_of(word(words, 2))?;
        let lane = usize::from(small_of(word(words, 3))?);
        let name = word(words, 4);
        let content = bytes(alloc, names, word(words, 5))?;
        let mut parts = self.lanes_of(alloc, index)?;
        let mut line = Line::new(alloc);
        if lane >= parts.lanes.len() || name.len() > LONGEST_NAME {
            return Err(NoAnswer);
        }
        let drive = &mut parts.lanes[lane];
        let why = write_file(drive, FileKind::Register, "t", name, content.as_slice());
        line.say_text(&[why.letter()]);
        let home = open_home(alloc, self.set, index, term, parts)?;
        self.homes.push(home)?;
        line.into_answer()
    }

    /// `close INDEX`: a slot's life ends for good. How often each of its lanes failed.
    pub(crate) fn close(&mut self, alloc: Global, words: &str) -> Result<String, NoAnswer> {
        let parts = self.lanes_of(alloc, small_of(word(words, 1))?)?;
        let mut line = Line::new(alloc);
        line.say("faults");
        for lane in parts.lanes.iter() {
            line.say(" ");
            line.say_number(lane.faults());
        }
        line.into_answer()
    }

    /// `turns INDEX`: the term of a slot's life, and how many sections it did.
    pub(crate) fn turns(&self, alloc: Global, words: &str) -> Result<String, NoAnswer> {
        let Some(place) = self.place_of(small_of(word(words, 1))?) else {
            return Err(NoAnswer);
        };
        let home = &self.homes[place];
        let mut line = Line::new(alloc);
        line.say("term ");
        line.say_number(home.slot.term());
        line.say(" turns ");
        line.say_number(home.slot.turns());
        line.into_answer()
    }
}
