//! The law of drives that behaved.

ghost use Rattle.drive_trails.specs.Placed.{StagedDataIsInPlace};

/// Where a drive behaved, the data of an id that was staged there is in place, if no other call named a file of it. It does
/// nothing.
pub fn trail_law()
    ensures placed { StagedDataIsInPlace }
{}
