//! Laws of what is seen of drives.

ghost use Rattle.drive_base.specs.Calls.{CallsGoOn, ReadingsOnlyRead};
ghost use Rattle.drive_base.specs.HonestDamage.{CallsKeepHonesty};
ghost use Rattle.drive_base.specs.View.{OnlyReadGoOn, TwoCallsGoOn, TwoCallsOnlyRead, UntouchedAreOnlyRead, UntouchedGoOn};

/// The laws of what is seen of drives, for a caller's proof: no call of a drive makes damage dishonest, drives that
/// nothing was done to go on and were only read, so it is over two calls where it is so over each, drives that were only
/// read go on, and a drive goes on over each call and is only read by a reading. It does nothing.
pub fn view_laws()
    ensures honesty { CallsKeepHonesty }
    ensures untouched { UntouchedGoOn }
    ensures unread { UntouchedAreOnlyRead }
    ensures two_calls { TwoCallsGoOn }
    ensures two_reads { TwoCallsOnlyRead }
    ensures reads { OnlyReadGoOn }
    ensures calls { CallsGoOn }
    ensures readings { ReadingsOnlyRead }
{}
