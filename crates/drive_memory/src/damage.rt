//! What befalls the files of a drive.

ghost use Rattle.std.specs.Prelude.{◌≡◌, None};
ghost use Rattle.drive_memory.specs.Damage.{HurtLeaves, after_stop};
ghost use Rattle.drive_memory.specs.MemDrive.{calls_of, files_of, fault_count, starved_count, is_lost, fuse_of};

use crate::MemDrive;

impl MemDrive {
    /// Turns each bit of one shown byte of the file in place under a name round, and answers whether that
    /// byte is there. The same byte hurt twice is whole again.
    ///
    /// What is kept stays. The damage lasts over losses and stops, until the name is put in place anew or
    /// removed. It takes no memory, counts as no call, and goes on a lost drive too.
    pub fn hurt(&mut self, name: &str, place: u64) -> bool
        ensures files { HurtLeaves (files_of self.old) name.now place result (files_of self.new) }
        ensures loss { is_lost self.new ≡ is_lost self.old }
        ensures fuse { fuse_of self.new ≡ fuse_of self.old }
        ensures faults { fault_count self.new ≡ fault_count self.old }
        ensures starved { starved_count self.new ≡ starved_count self.old }
        ensures trail { calls_of self.new ≡ calls_of self.old }
    {
        self.contents.hurt(name, place)
    }

    /// Stops the drive and starts it again: loose files that aren't synced are gone, and so is any fuse. What
    /// is in place stays, with its damage, and so do synced loose files, a loss and the counts.
    pub fn stop(&mut self)
        ensures files { files_of self.new ≡ after_stop (files_of self.old) }
        ensures fuse { fuse_of self.new ≡ None }
        ensures loss { is_lost self.new ≡ is_lost self.old }
        ensures faults { fault_count self.new ≡ fault_count self.old }
        ensures starved { starved_count self.new ≡ starved_count self.old }
        ensures trail { calls_of self.new ≡ calls_of self.old }
    {
        self.contents.stop();
        self.fuse = None;
    }
}
