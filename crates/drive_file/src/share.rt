//! The trait of drives that can be shared.

ghost use Rattle.std.specs.Prelude.{◌≡◌, ◌⊎◌, false, IfOk, IsErr, IsTrue, OnErr, OnOk, Option, []};
ghost use Rattle.drive_file.specs.SharedDrive.{way_root};

use crate::SharedDrive;
use drive_base::Drive;
use fault_base::NoMemory;
use std::alloc::Global;
use std::sync::Wait;

/// A drive that has one holder at first, and others from the moment on in which it is shared: what a program opens alone, and
/// serves from several threads.
pub trait Share: Drive + Sized {
    /// What tells drives apart.
    ghost Root: { Type 0 };

    /// Which drive it leads to. Of one that is shared it is that drive as it was before it was shared, the same for all ways to
    /// it; of one that is alone it is the drive as it is, which calls change. No clause says what a call leaves of it.
    ghost root: { Self → Root };

    /// Shares the drive in place, so that `again` may give other ways to it. From then on it tells nothing, and it has met no
    /// fault yet. Its root stays. Where no memory was found it stays as it was.
    fn share(&mut self, alloc: Global) -> Result<(), NoMemory>
        ensures tells { OnOk result (Self.tells self.new ≡ false) }
        ensures count { OnOk result (Self.count self.new ≡ 0) }
        ensures stays { OnErr result (self.new ≡ self.old) }
        ensures root { root self.new ≡ root self.old }
        ensures trail { Self.trail self.new ≡ Self.trail self.old };

    /// One more way to the same drive, of the same root, for another thread. It tells nothing, and has met no fault yet.
    /// `NoMemory` where none was found for it, and of a drive that is not shared, as one that tells is not.
    fn again(&self) -> Result<Self, NoMemory>
        ensures tells { IfOk result (λ way. Self.tells way ≡ false) }
        ensures count { IfOk result (λ way. Self.count way ≡ 0) }
        ensures trail { IfOk result (λ way. Self.trail way ≡ []) }
        ensures refused { IsTrue (Self.tells self.now) → IsErr result }
        ensures root { IfOk result (λ way. root way ≡ root self.now) };
}

impl<R: Wait + Clone + Drop, D: Drive + Drop> Share for SharedDrive<R, D> {
    ghost Root = { Option D };

    ghost root = { λ shared. way_root shared.way };

    fn share(&mut self, alloc: Global) -> Result<(), NoMemory> {
        SharedDrive::share(self, alloc)
    }

    fn again(&self) -> Result<SharedDrive<R, D>, NoMemory> {
        SharedDrive::again(self)
    }
}
