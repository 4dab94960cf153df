//! Plans of sets.

ghost use Rattle.std.specs.Prelude.{◌≡◌, IsTrue};

use drive_base::SetPlan;
use trial_base::NoAnswer;

/// Whether two plans have the same parts.
fn has_same(one: &SetPlan, other: &SetPlan) -> bool
    ensures id { IsTrue result → one.now.id ≡ other.now.id }
    ensures drives { IsTrue result → one.now.drives ≡ other.now.drives }
    ensures parity { IsTrue result → one.now.parity ≡ other.now.parity }
    ensures out { IsTrue result → one.now.out ≡ other.now.out }
{
    one.id == other.id
        && one.drives == other.drives
        && one.parity == other.parity
        && one.out == other.out
}

/// Whether two plans are one.
pub fn is_one(one: &SetPlan, other: &SetPlan) -> bool
    ensures { IsTrue result → one.now ≡ other.now }
{
    has_same(one, other)
}

/// The plan of a set of so many drives, of which so many are parity.
pub fn plan_of(drives: u64, parity: u64) -> Result<SetPlan, NoAnswer> {
    if drives < 4 || drives > 16 || parity < 1 || parity > 8 {
        return Err(NoAnswer);
    }
    if parity + parity > drives {
        return Err(NoAnswer);
    }
    Ok(SetPlan::new([7; 16], drives as u8, parity as u8))
}
