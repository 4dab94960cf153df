//! What befalls a drive between two calls.

ghost use Rattle.std.specs.Prelude.{◌≡◌, ◌≤◌, Bool, IsTrue};

use crate::Drive;

/// Something that befalls a drive between two calls: it is lost, comes back, is damaged, or will fail later.
///
/// A drive's own type has methods for these, and through this trait they reach a drive that a value of another
/// type holds. Trouble changes what is shown, never what is kept or being written.
pub trait Trouble<D: Drive> {
    /// What it does to a drive, beyond what is said of each trouble: itself, the drive before, the answer, the drive
    /// after. A holder of some drive hands this on, so that who made the trouble learns what it did.
    ghost befalls: { Self → D → Bool → D → Type 0 };

    /// Befalls the drive, and answers whether it did: `false` where the drive wasn't as the trouble needs it, as
    /// where damage is to hurt a byte that isn't there.
    fn strike(&mut self, drive: &mut D) -> bool
        ensures befalls { befalls self.old drive.old result drive.new }
        ensures kept { IsTrue (D.tells drive.old) → (D.files drive.new).kept ≡ (D.files drive.old).kept }
        ensures loose { IsTrue (D.tells drive.old) → (D.files drive.new).loose ≡ (D.files drive.old).loose }
        ensures tells { D.tells drive.new ≡ D.tells drive.old }
        ensures trail { D.trail drive.new ≡ D.trail drive.old }
        ensures count { D.count drive.old ≤ D.count drive.new };
}
