//! Counts of faults.

ghost use Rattle.std.specs.Prelude.{◌≡◌};
ghost use Rattle.fault_base.specs.Counts.{Rose, RoseIsKept, RoseSinceBefore, count_after};

/// The count of faults after one more. It stands still at the last value of a `u64`.
pub fn count_after(count: u64) -> u64
    ensures value { result ≡ count_after count }
    ensures rose { Rose count result }
{
    count.saturating_add(1)
}

/// The laws of counts that rose, for a caller's proof: later faults and earlier ones leave it so. It does nothing.
pub fn count_laws()
    ensures later { RoseIsKept }
    ensures earlier { RoseSinceBefore }
{}
