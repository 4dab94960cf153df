//! The laws of a slot's history.

ghost use Rattle.slot_history.specs.Laws.{BucketNamesTell, KeyNamesTell, NamesDiffer, PartNamesTell};
ghost use Rattle.slot_history.specs.Laws.{SectionsRun, RunsJoin, RunsStayLawful, AppliedOnce, DeadStaysDead};
ghost use Rattle.slot_history.specs.Laws.{FreshStand, DrawingStands, FlightsBegin, FlightsEnd, AgainStands, ValueStands, OwnStands, OwnIsFresh, MadeIsLate};

use upload_book::row_laws;
use version_list::state_laws;
use vote_core::{calm_laws, value_laws};

/// The names of buckets, keys and parts differ; a bucket's name tells it, a key's name tells its bucket and its key, where the bucket is named as buckets
/// are, and a part's name tells its upload, its key and its number.
pub fn name_laws()
    ensures differ { NamesDiffer }
    ensures buckets { BucketNamesTell }
    ensures keys { KeyNamesTell }
    ensures parts { PartNamesTell }
{}

/// What a section moves runs by its entry; runs join, and lead from lawful states to lawful ones. What is applied is applied once, and a dead
/// change stays dead.
pub fn run_laws()
    ensures section { SectionsRun }
    ensures join { RunsJoin }
    ensures lawful { RunsStayLawful }
    ensures once { AppliedOnce }
    ensures dead { DeadStaysDead }
{}

/// Lanes without files stand for the state in which nothing was done.
pub fn fresh_law()
    ensures { FreshStand }
{
    calm_laws();
    state_laws();
    row_laws();
}

/// Lanes go on to stand for their state while numbers are drawn and puts begin and end.
pub fn resting_laws()
    ensures drawing { DrawingStands }
    ensures begin { FlightsBegin }
    ensures end { FlightsEnd }
{
    value_laws();
}

/// Once a change that is on its way was written again, lanes stand for the state as it was, or for that after the late step.
pub fn pending_law()
    ensures { AgainStands }
{
    value_laws();
    calm_laws();
}

/// Once the change of a value was written again, lanes stand for the state as it was.
pub fn value_law()
    ensures { ValueStands }
{
    value_laws();
}

/// Once a change of one's own was written, lanes stand for the state in which it waits, or for that in which it is made. No record carried it before.
pub fn own_laws()
    ensures stands { OwnStands }
    ensures late { MadeIsLate }
    ensures fresh { OwnIsFresh }
{
    value_laws();
    calm_laws();
}
