//! Rows of troubles: drives that are lost, come back, are hurt, or fail after so many calls.

use crate::lives::{count_of, small_of};
use crate::{Line, Store};
use drive_base::Trouble;
use drive_memory::{Back, Fuse, Hurt, Lose, MemDrive};
use std::alloc::Global;
use trial_base::{NoAnswer, word};

impl Store {
    /// Has trouble befall a drive: its lane of each slot that is open, and its data. How many of them it struck.
    pub fn strike<T: Trouble<MemDrive>>(&mut self, drive: u8, trouble: &mut T) -> u64 {
        let mut struck = 0u64;
        for home in self.homes.iter_mut() {
            if drive < home.set.drives && home.slot.trouble(drive, trouble) {
                struck = struck.saturating_add(1);
            }
        }
        if let Some(disk) = self.disks.get_mut(usize::from(drive)) {
            if trouble.strike(disk) {
                struck = struck.saturating_add(1);
            }
        }
        struck
    }

    /// Has trouble befall the drives from one on and below another.
    fn strike_all<T: Trouble<MemDrive>>(
        &mut self,
        words: &str,
        trouble: &mut T,
    ) -> Result<u64, NoAnswer> {
        let mut struck = 0u64;
        for drive in small_of(word(words, 1))?..small_of(word(words, 2))? {
            struck = struck.saturating_add(self.strike(drive, trouble));
        }
        Ok(struck)
    }

    /// Each drive fails after so many calls, as the words say one by one; a late one does the first call that fails.
    fn blow(&mut self, words: &str, late: bool) -> Result<u64, NoAnswer> {
        let mut struck = 0u64;
        for drive in 0..self.set.drives {
            let calls = count_of(word(words, usize::from(drive) + 1))?;
            let mut fuse = Fuse { calls, late };
            struck = struck.saturating_add(self.strike(drive, &mut fuse));
        }
        Ok(struck)
    }

    /// `lose FROM UPTO`, `back FROM UPTO`, `hurt DRIVE NAME PLACE`, `fuse CALLS ..`, `late CALLS ..`
    pub(crate) fn trouble(
        &mut self,
        alloc: Global,
        step: &str,
        words: &str,
    ) -> Result<String, NoAnswer> {
        let struck = match step {
            "lose" => self.strike_all(words, &mut Lose)?,
            "back" => self.strike_all(words, &mut Back)?,
            "fuse" => self.blow(words, false)?,
            "late" => self.blow(words, true)?,
            _ => {
                let mut hurt = Hurt {
                    name: String::from_str(alloc, word(words, 2))?,
                    place: count_of(word(words, 3))?,
                };
                self.strike(small_of(word(words, 1))?, &mut hurt)
            }
        };
        let mut line = Line::new(alloc);
        line.say("struck ");
        line.say_number(struck);
        line.into_answer()
    }
}
