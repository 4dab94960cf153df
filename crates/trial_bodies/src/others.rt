//! Others at work on the drives between two steps.

ghost use Rattle.std.specs.Prelude.{◌≡◌, length};

use crate::watched::Watched;
use drive_base::Drive;
use drive_memory::Script;

/// The script of a drive that is lost.
pub const LOST: Script = Script::Names { front: "" };

/// The name of the shard file of the id of term 1, slot 5 and sequence number 7.
pub const SHARD: &str = "s/00000000000180058000000000000007";

/// The name of its manifest.
pub const MANIFEST: &str = "m/00000000000180058000000000000007";

/// Others who come before a step, and leave two steps later.
#[derive(Clone, Copy, Drop)]
pub struct Others {
    /// The number of the step.
    pub step: u64,
    /// The drive that they lose.
    pub place: u64,
    /// Whether they hurt the first byte of the first drive's shard file.
    pub hurts: bool,
}

/// Nobody else is at work.
pub const NOBODY: Others = Others {
    step: u64::MAX,
    place: 0,
    hurts: false,
};

impl Others {
    /// What they do before a step: they come, or leave with all as it was.
    pub fn work(self, round: u64, drives: &mut [Watched])
        ensures { length drives.new ≡ length drives.old }
    {
        if round == self.step {
            self.change(drives, true);
        }
        if round == self.step.saturating_add(2) {
            self.change(drives, false);
        }
    }

    /// They put another file in place on each drive and hurt it, hurt a shard and lose a drive; or they undo this.
    fn change(self, drives: &mut [Watched], comes: bool)
        ensures { length drives.new ≡ length drives.old }
    {
        for (place, drive) in drives.iter_mut().enumerate() {
            if comes {
                put_other(drive);
            }
            let behind = drive.drive.behind();
            let _ = behind.hurt("m/other", 0);
            if self.hurts && place == 0 {
                let _ = behind.hurt(SHARD, 0);
            }
            if place as u64 == self.place {
                drive.drive.follow(if comes { LOST } else { Script::Pass });
            }
        }
    }
}

/// Puts another file in place on a drive.
fn put_other(drive: &mut Watched) {
    let behind = drive.drive.behind();
    let _ = behind.append("other", b"+");
    let _ = behind.sync("other");
    let _ = behind.rename("other", "m/other");
}
