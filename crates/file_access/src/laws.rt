//! Laws of single calls.

ghost use Rattle.file_access.specs.Sights.{CallsTellWhatWasSo};

/// What the answer of a call tells was so, of a drive that tells what it holds. It does nothing.
pub fn sight_laws()
    ensures so { CallsTellWhatWasSo }
{}
