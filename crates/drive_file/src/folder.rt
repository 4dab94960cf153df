//! The trait of a folder of the system.

ghost use Rattle.std.specs.Prelude.{◌≡◌, ◌≤◌, ◌∷◌, List, IfOk, length};
ghost use Rattle.drive_base.specs.Trail.{listed};
ghost use Rattle.drive_file.specs.Folder.{FolderCall, AskSize, AskRead, AskAppend, AskSync, AskRename, AskRemove, AskMake, AskClear, AskList};

use drive_base::DriveFault;
use std::alloc::Global;

/// What a drive over a folder asks of the system, each call on the path of a file or of a folder.
///
/// It tells each call that was made of it and what it answered, the newest first. What it does with a file no clause says. A call
/// is `Absent` where the system finds nothing under the path, `NoMemory` where it finds no memory, and `Failed` where it refuses
/// the call for another reason.
pub trait Folder {
    /// The calls that were made of it and what each answered, the newest first.
    ghost calls: { Self → List FolderCall };

    /// The length in bytes of a file.
    fn size(&mut self, path: &str) -> Result<u64, DriveFault>
        ensures calls { calls self.new ≡ AskSize path.now result ∷ calls self.old };

    /// Fills the front of `into` with a file's bytes from the place `at` on, and answers how many there were.
    fn read(&mut self, path: &str, at: u64, into: &mut [u8]) -> Result<usize, DriveFault>
        ensures within { IfOk result (λ n. n ≤ length into.old) }
        ensures calls { calls self.new ≡ AskRead path.now at into.old result into.new ∷ calls self.old };

    /// Adds bytes at the end of a file, which is made where there is none.
    fn append(&mut self, path: &str, bytes: &[u8]) -> Result<(), DriveFault>
        ensures calls { calls self.new ≡ AskAppend path.now bytes.now result ∷ calls self.old };

    /// Waits until the bytes of a file, or the entries of a folder, outlast a loss of power.
    fn sync(&mut self, path: &str) -> Result<(), DriveFault>
        ensures calls { calls self.new ≡ AskSync path.now result ∷ calls self.old };

    /// Moves a file from one path to another, in one step.
    fn rename(&mut self, from: &str, to: &str) -> Result<(), DriveFault>
        ensures calls { calls self.new ≡ AskRename from.now to.now result ∷ calls self.old };

    /// Removes a file.
    fn remove(&mut self, path: &str) -> Result<(), DriveFault>
        ensures calls { calls self.new ≡ AskRemove path.now result ∷ calls self.old };

    /// Makes a folder where there is none, and answers whether it did.
    fn make(&mut self, path: &str) -> Result<bool, DriveFault>
        ensures calls { calls self.new ≡ AskMake path.now result ∷ calls self.old };

    /// Removes a file, or a folder with all that is in it.
    fn clear(&mut self, path: &str) -> Result<(), DriveFault>
        ensures calls { calls self.new ≡ AskClear path.now result ∷ calls self.old };

    /// The names of what is in a folder, but for those that are no UTF-8.
    fn list(&mut self, alloc: Global, path: &str) -> Result<Vec<String>, DriveFault>
        ensures calls { calls self.new ≡ AskList path.now (listed result) ∷ calls self.old };
}
