//! Where digests are written.

ghost use Rattle.std.specs.Prelude.{◌≡◌, ◌+◌, ◌≤◌, ◌++◌, length, take};

/// Writes four digests at place `at` and the three after it.
pub(crate) fn put_four(digests: &mut [[u8; 32]], at: usize, four: [[u8; 32]; 4])
    requires { at + 4 ≤ length digests.old }
    ensures { take (at + 4) digests.new ≡ take at digests.old ++ four }
{
    digests[at..at + 4].copy_from_slice(&four);
}
