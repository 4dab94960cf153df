//! The plan of an erasure set: its drives, its parity and its quorums.

ghost use Rattle.std.specs.Prelude.{◌≡◌, ◌↔◌, ◌+◌, ◌*◌, ◌<◌, ◌≤◌, IsTrue};
ghost use Rattle.std.specs.Int.{IsBitSet};
ghost use Rattle.drive_base.specs.Plan.{data_drives, write_drives, usual_parity_of};

use crate::DriveSet;

/// The most drives that a set has.
pub const MOST_DRIVES: u8 = 16;

/// An erasure set of 4 to 16 drives, with indices from 0, of which 1 to half are parity.
#[derive(Clone, Copy, PartialEq, Eq)]
pub struct SetPlan {
    /// The set's id, a UUID.
    pub id: [u8; 16],
    /// How many drives the set has.
    pub drives: u8,
    /// How many of them are parity.
    pub parity: u8,
    /// The drives that are out. They are neither read nor written.
    pub out: DriveSet,
    pub ghost enough_drives: { 4 ≤ drives },
    pub ghost few_drives: { drives ≤ 16 },
    pub ghost some_parity: { 1 ≤ parity },
    pub ghost half_at_most: { parity + parity ≤ drives },
}

impl SetPlan {
    /// A plan with no drive out.
    pub fn new(id: [u8; 16], drives: u8, parity: u8) -> SetPlan
        requires enough { 4 ≤ drives }
        requires few { drives ≤ 16 }
        requires some { 1 ≤ parity }
        requires half { parity + parity ≤ drives }
        ensures id { result.id ≡ id }
        ensures drives { result.drives ≡ drives }
        ensures parity { result.parity ≡ parity }
        ensures out { result.out ≡ 0 }
    {
        SetPlan {
            id,
            drives,
            parity,
            out: DriveSet::none(),
        }
    }

    /// How many drives must answer a read: as many as a stripe has data blocks.
    pub fn read_quorum(&self) -> u8
        ensures quorum { result ≡ data_drives self.now.drives self.now.parity }
        ensures sum { result + self.now.parity ≡ self.now.drives }
    {
        self.drives - self.parity
    }

    /// How many drives must take a write, so that any read quorum meets one of them.
    pub fn write_quorum(&self) -> u8
        ensures quorum { result ≡ write_drives self.now.drives self.now.parity }
        ensures overlap { self.now.drives < result + data_drives self.now.drives self.now.parity }
        ensures within { result ≤ self.now.drives }
    {
        let data_drives = self.read_quorum();
        if data_drives == self.parity {
            return data_drives + 1;
        }
        data_drives
    }

    /// Whether the drive of this index is out.
    pub fn is_out(&self, index: u8) -> bool
        requires { index < self.now.drives }
        ensures { IsTrue result ↔ IsBitSet self.now.out index }
    {
        self.out.has(index)
    }
}

/// The parity of a set of so many drives, unless it is said otherwise: 2 of 4 or 5 drives, 3 of 6 or 7, and 4 of
/// more, as MinIO has it.
pub fn usual_parity(drives: u8) -> u8
    requires { 4 ≤ drives }
    ensures parity { result ≡ usual_parity_of drives }
    ensures some { 1 ≤ result }
    ensures half { result + result ≤ drives }
{
    match drives {
        4 | 5 => 2,
        6 | 7 => 3,
        _ => 4,
    }
}
