//! Sets of drives.

ghost use Rattle.std.specs.Prelude.{◌≡◌, ◌↔◌, ◌<◌, ◌≤◌, ℕ, IsTrue};
ghost use Rattle.std.specs.Int.{IsBitSet};
ghost use Rattle.drive_base.specs.DriveSet.{AreInEither, HasAlso, count_in};
ghost use Rattle.drive_base.specs.DriveSet.{LargeSetsMeet, OneMoreCountsOne, OthersAreTheRest, SmallerSetsCountLess};

use std::marker::Model;

/// A set of drives of one erasure set, each named by its index from 0 to 15. A contract sees the mask of it, whose bit k
/// stands for drive k.
#[derive(Clone, Copy, PartialEq, Eq)]
pub struct DriveSet {
    mask: u16,
}

impl Model for DriveSet {
    ghost use Rattle.std.specs.Prelude.{ℕ, ◌<◌, ◌^◌};

    ghost Value = { ℕ };

    ghost view = { λ a. a.mask };

    ghost invariant = { λ a. a.mask < 2 ^ 16 };

    ghost inverse = { λ mask. record { mask = mask } };
}

impl DriveSet {
    /// The set of no drive.
    pub fn none() -> DriveSet
        ensures { result ≡ 0 }
    {
        DriveSet { mask: 0 }
    }

    /// The set with this mask: bit k stands for drive k.
    pub fn from_mask(mask: u16) -> DriveSet
        ensures { result ≡ mask }
    {
        DriveSet { mask }
    }

    /// The mask: bit k stands for drive k.
    pub fn mask(self) -> u16
        ensures { result ≡ self }
    {
        self.mask
    }

    /// Whether the set has this drive.
    pub fn has(self, index: u8) -> bool
        requires { index < 16 }
        ensures { IsTrue result ↔ IsBitSet self index }
    {
        self.mask & (1 << index) != 0
    }

    /// The set with this drive also.
    pub fn with(self, index: u8) -> DriveSet
        requires { index < 16 }
        ensures { HasAlso self index result }
    {
        DriveSet {
            mask: self.mask | (1 << index),
        }
    }

    /// The drives that are in one of the sets or in both.
    pub fn either(self, other: DriveSet) -> DriveSet
        ensures { AreInEither self other result }
    {
        DriveSet {
            mask: self.mask | other.mask,
        }
    }

    /// How many of the first `drives` drives are in the set.
    pub fn count(self, drives: u8) -> u8
        requires { drives ≤ 16 }
        ensures value { result ≡ count_in self drives }
        ensures most { result ≤ drives }
    {
        let mut count = 0;
        for index in 0..drives {
            if self.has(index) {
                count += 1;
            }
        }
        count
    }
}

/// The laws of counts of sets, for a caller's proof: two sets of more drives together than there are meet, a set within
/// another has no more drives, one drive more counts one, and a set and the others are all. It does nothing.
pub fn drive_set_laws()
    ensures meet { LargeSetsMeet }
    ensures within { SmallerSetsCountLess }
    ensures more { OneMoreCountsOne }
    ensures rest { OthersAreTheRest }
{}
