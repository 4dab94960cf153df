//! The laws of steps that every op has alike.

ghost use Rattle.std.specs.Global.{Global};
ghost use Rattle.op_steps.specs.Committing.{CommitIsTurn};
ghost use Rattle.op_steps.specs.Looking.{LookIsTurn, ReadIsCall};
ghost use Rattle.op_steps.specs.Naming.{NamesIsTurn};
ghost use Rattle.op_steps.specs.OwnFiles.{OwnCallsKeepOthers, OwnCallsLoseOwnFiles};

use drive_base::Drive;

/// A look of a slot is a step that leaves whatever an op claims. It does nothing.
pub fn look_law<D: Drive>()
    ensures { LookIsTurn D.Drive }
{}

/// A listing of the names of a slot's registers is a step that leaves whatever an op claims. It does nothing.
pub fn names_law<D: Drive>()
    ensures { NamesIsTurn D.Drive Global }
{}

/// A commit of a slot that ends no put is a step that leaves whatever an op claims. It does nothing.
pub fn commit_law<D: Drive>()
    ensures { CommitIsTurn D.Drive }
{}

/// A call that only reads a data drive is a step that leaves whatever an op claims. It does nothing.
pub fn read_law()
    ensures { ReadIsCall }
{}

/// A call that an op may make leaves a drive that tells what is no data, and of data all but files that the op took, or of its own put. It does nothing.
pub fn own_files_law()
    ensures others { OwnCallsKeepOthers }
    ensures own { OwnCallsLoseOwnFiles }
{}
