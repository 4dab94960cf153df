//! What befalls a memory drive, for holders of any drive.

ghost use Rattle.drive_memory.specs.Troubles.{LoseDoes, BackDoes, HurtDoes, FuseDoes};

use crate::{Fuse, MemDrive};
use drive_base::Trouble;

/// The drive is lost, as by [`MemDrive::lose`].
#[derive(Clone, Copy, Drop)]
pub struct Lose;

/// The drive is back, as by [`MemDrive::back`].
#[derive(Clone, Copy, Drop)]
pub struct Back;

/// One shown byte is hurt, as by [`MemDrive::hurt`].
#[derive(Drop)]
pub struct Hurt {
    /// The name of the file.
    pub name: String,
    /// The place of the byte in it, from 0.
    pub place: u64,
}

impl Trouble<MemDrive> for Lose {
    ghost befalls = { λ _. LoseDoes };

    /// It always strikes.
    fn strike(&mut self, drive: &mut MemDrive) -> bool
        ensures { LoseDoes drive.old result drive.new }
    {
        drive.lose();
        true
    }
}

impl Trouble<MemDrive> for Back {
    ghost befalls = { λ _. BackDoes };

    /// It always strikes.
    fn strike(&mut self, drive: &mut MemDrive) -> bool
        ensures { BackDoes drive.old result drive.new }
    {
        drive.back();
        true
    }
}

impl Trouble<MemDrive> for Hurt {
    ghost befalls = { HurtDoes };

    /// It strikes where that byte is there.
    fn strike(&mut self, drive: &mut MemDrive) -> bool
        ensures { HurtDoes self.old drive.old result drive.new }
    {
        drive.hurt(self.name.as_str(), self.place)
    }
}

impl Trouble<MemDrive> for Fuse {
    ghost befalls = { FuseDoes };

    /// It always strikes.
    fn strike(&mut self, drive: &mut MemDrive) -> bool
        ensures { FuseDoes self.old drive.old result drive.new }
    {
        drive.fuse(self.calls, self.late);
        true
    }
}
