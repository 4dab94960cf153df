//! Why each drive of a set served a call or did not.

ghost use Rattle.std.specs.Prelude.{◌≡◌, ◌<◌, ◌≤◌, Some, length, replicate, slice_get, slice_set};
ghost use Rattle.call_types.specs.Good.{IsGoodMask, good_count, is_good};
ghost use Rattle.call_types.specs.Letters.{letter_of, letters_of};

use drive_base::MOST_DRIVES;
use seal_file::Damage;
use stamp_id::Ballot;
use std::marker::Model;

/// A kind of file on a drive.
#[derive(Clone, Copy, PartialEq, Eq)]
pub enum FileKind {
    /// The format file.
    Format,
    /// A register's file.
    Register,
    /// A manifest.
    Manifest,
    /// A shard file.
    Shard,
}

/// Why a drive served a call or did not.
#[derive(Clone, Copy, PartialEq, Eq)]
pub enum Why {
    /// It served.
    Good,
    /// A call of the drive failed: its count of faults before and after.
    Failed {
        /// The count before.
        before: u64,
        /// The count after.
        after: u64,
    },
    /// Its file is damaged.
    Damaged(Damage),
    /// Its file is good, and its base doesn't carry the value's change. Plans of heals say so, and refusals never do.
    Behind(Ballot),
    /// It has no file of this kind. A drive that is out lacks its format file.
    Lacks(FileKind),
}

impl Why {
    /// Whether the drive served.
    pub fn is_good(self) -> bool
        ensures { result ≡ is_good self }
    {
        matches!(self, Why::Good)
    }

    /// Its letter, for people and scripts: `g` Good, `f` Failed, `d` Damaged, `b` Behind, `l` Lacks.
    pub fn letter(self) -> u8
        ensures { result ≡ letter_of self }
    {
        match self {
            Why::Good => b'g',
            Why::Failed { .. } => b'f',
            Why::Damaged(_) => b'd',
            Why::Behind(_) => b'b',
            Why::Lacks(_) => b'l',
        }
    }
}

/// How many places `Whys` has.
const PLACES: usize = MOST_DRIVES as usize;

/// One `Why` for each drive of a set, in order of the drives: 1 to 16 of them, kept in place. A contract sees the
/// list of them.
#[derive(Clone, Copy, PartialEq, Eq)]
pub struct Whys {
    whys: [Why; PLACES],
    count: u8,
}

impl Model for Whys {
    ghost use Rattle.std.specs.Prelude.{List};
    ghost use Rattle.call_types.specs.declared.why.Why.{Why};

    ghost Value = { List Why };

    ghost use Rattle.call_types.specs.Whys.{IsOneForEach, shown_whys, fields_of_whys, fields_of_whys-shown_whys};

    ghost view = { shown_whys };

    ghost invariant = { IsOneForEach };

    ghost inverse = { fields_of_whys };

    ghost inverse_ok = { fields_of_whys-shown_whys };
}

impl Whys {
    /// `Good` for each of the set's drives.
    pub fn all_good(drives: u8) -> Whys
        requires least { 1 ≤ drives }
        requires most { drives ≤ 16 }
        ensures { result ≡ replicate drives Why.Good }
    {
        Whys {
            whys: [Why::Good; PLACES],
            count: drives,
        }
    }

    /// The number of drives.
    pub fn len(&self) -> usize
        ensures value { result ≡ length self.now }
        ensures least { 1 ≤ result }
        ensures most { result ≤ 16 }
    {
        self.count as usize
    }

    /// The `Why` of this drive.
    pub fn get(&self, drive: usize) -> Why
        requires { drive < length self.now }
        ensures { slice_get self.now drive ≡ Some result }
    {
        self.as_slice()[drive]
    }

    /// Puts `why` in the place of this drive.
    pub fn set(&mut self, drive: usize, why: Why)
        requires { drive < length self.old }
        ensures { self.new ≡ slice_set self.old drive why }
    {
        let whys = &mut self.whys;
        whys[drive] = why;
    }

    /// All of them.
    pub fn as_slice(&self) -> &[Why]
        ensures { result.now ≡ self.now }
    {
        &self.whys[..self.count as usize]
    }

    /// The letters of the drives in their order, written at the front of `place`.
    pub fn letters<'a>(&self, place: &'a mut [u8; 16]) -> &'a [u8]
        ensures { result.now ≡ letters_of self.now }
    {
        for k in 0..self.len() {
            place[k] = self.get(k).letter();
        }
        &place[..self.len()]
    }

    /// How many drives served.
    pub fn good(&self) -> u8
        ensures { result ≡ good_count self.now }
    {
        let mut count = 0;
        for k in 0..self.len() {
            if self.get(k).is_good() {
                count += 1;
            }
        }
        count
    }

    /// The mask of the drives that served: bit k is drive k's.
    pub fn good_mask(&self) -> u16
        ensures { IsGoodMask self.now result }
    {
        let mut mask = 0;
        for k in 0..self.len() {
            if self.get(k).is_good() {
                mask |= 1 << k;
            }
        }
        mask
    }
}
