//! The laws of a slot's data.

ghost use Rattle.slot_data.specs.Laws.{FreshDataStands, LifeEnds, NumbersAreDrawn, OutMayChange};
ghost use Rattle.slot_data.specs.Laws.{PutBegins, PutIsGivenUp};
ghost use Rattle.slot_data.specs.Laws.{PinBegins, PinEnds};
ghost use Rattle.slot_data.specs.Laws.{TrashIsTaken, DeadIsTaken, HoldersAreKnown, HandsAreFreed};
ghost use Rattle.slot_data.specs.LaneLaws.{OwnWaitsData, OwnMakesData, GoneIdsAreGone, AgainStaysData, AgainIsLateData, ValueStaysData};

/// The data stands of a slot in which nothing was done, and goes on to stand when a life ends, and while numbers are drawn.
pub fn fresh_data_law()
    ensures fresh { FreshDataStands }
    ensures ends { LifeEnds }
    ensures drawn { NumbersAreDrawn }
{}

/// It stands whichever drives are out.
pub fn out_law()
    ensures { OutMayChange }
{}

/// It stands while puts begin and are given up.
pub fn flight_laws()
    ensures begin { PutBegins }
    ensures given_up { PutIsGivenUp }
{}

/// It stands while pins of reads, heals and Completes begin and end.
pub fn pin_laws()
    ensures begin { PinBegins }
    ensures end { PinEnds }
{}

/// It stands while ops take trash and what they found dead, learn what has its holders, and are done with either.
pub fn hands_laws()
    ensures trash { TrashIsTaken }
    ensures dead { DeadIsTaken }
    ensures known { HoldersAreKnown }
    ensures freed { HandsAreFreed }
{}

/// It stands once a change of one's own was written, which waits or is made, and what its key doesn't name any more may be trash then.
pub fn own_data_laws()
    ensures waits { OwnWaitsData }
    ensures makes { OwnMakesData }
    ensures gone { GoneIdsAreGone }
{}

/// It stands once a change that is on its way, or that of the value, was written again.
pub fn again_data_laws()
    ensures stays { AgainStaysData }
    ensures late { AgainIsLateData }
    ensures value { ValueStaysData }
{}
