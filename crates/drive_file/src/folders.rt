//! The folders between a drive's folder and its files.

ghost use Rattle.std.specs.Prelude.{◌≡◌, ◌≤◌, ◌∷◌, true, IfOk, OnOk, drop, length, map, string_bytes};
ghost use Rattle.drive_file.specs.Asks.{AskedOnly, IsMaking, IsSyncing, IsPlacing, MadeAll, Places, syncs};

use crate::Folder;
use drive_base::DriveFault;

/// The place of the outermost folder that has a new entry, after one more was made or was there.
fn outermost(first: usize, place: usize, is_new: bool) -> usize
    ensures before { result ≤ first }
    ensures new { is_new ≡ true → result ≤ place }
{
    if is_new { first.min(place) } else { first }
}

/// Makes the folders where they aren't there, each in the one before it. It answers the place of the outermost folder that has a
/// new entry once a file is made in the innermost, where the folder that has the first of them as its entry is at 0.
pub(crate) fn make<F: Folder>(system: &mut F, inner: &[String]) -> Result<usize, DriveFault>
    ensures made { IfOk result (λ first. MadeAll (map string_bytes inner.now) first (F.calls system.old) (F.calls system.new)) }
    ensures only { AskedOnly (IsMaking (map string_bytes inner.now)) (F.calls system.old) (F.calls system.new) }
{
    let mut first = inner.len();
    for place in 0..inner.len() {
        let is_new = system.make(inner[place].as_str())?;
        first = outermost(first, place, is_new);
    }
    Ok(first)
}

/// Makes the entries of folders last, one after the other.
fn sync<F: Folder>(system: &mut F, folders: &[String]) -> Result<(), DriveFault>
    ensures all { OnOk result (F.calls system.new ≡ syncs (map string_bytes folders.now) (F.calls system.old)) }
    ensures only { AskedOnly (IsSyncing (map string_bytes folders.now)) (F.calls system.old) (F.calls system.new) }
{
    for place in 0..folders.len() {
        system.sync(folders[place].as_str())?;
    }
    Ok(())
}

/// Makes the entries of the folders of a file last, from the one at this place on.
fn sync_from<F: Folder>(
    system: &mut F,
    top: &str,
    inner: &[String],
    first: usize,
) -> Result<(), DriveFault>
    requires { first ≤ length inner.now }
    ensures all { OnOk result (F.calls system.new ≡ syncs (drop first (top.now ∷ map string_bytes inner.now)) (F.calls system.old)) }
    ensures only { AskedOnly (IsSyncing (top.now ∷ map string_bytes inner.now)) (F.calls system.old) (F.calls system.new) }
{
    if first == 0 {
        system.sync(top)?;
        return sync(system, inner);
    }
    sync(system, &inner[first - 1..])
}

/// Puts a loose file in place, and waits until its new name, and each folder made for it, outlasts a loss of power.
pub(crate) fn place<F: Folder>(
    system: &mut F,
    from: &str,
    to: &str,
    top: &str,
    inner: &[String],
) -> Result<(), DriveFault>
    ensures all { OnOk result (Places top.now (map string_bytes inner.now) from.now to.now (F.calls system.old) (F.calls system.new)) }
    ensures only { AskedOnly (IsPlacing (top.now ∷ map string_bytes inner.now) from.now to.now) (F.calls system.old) (F.calls system.new) }
{
    let first = make(system, inner)?;
    system.rename(from, to)?;
    sync_from(system, top, inner, first)
}
