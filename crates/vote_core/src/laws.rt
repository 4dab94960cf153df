//! The laws of the commit protocol: what loops of writes leave of a register's lanes.
//!
//! Each function does nothing and has no arguments. Its contract is the laws, over all lists of lanes, for a caller's proof.

ghost use Rattle.vote_core.specs.Laws.{OneVerdict, SettledIsTheValue, PendingIsFound};
ghost use Rattle.vote_core.specs.Laws.{PrepareKeeps, ForwardKeeps, MarkKeeps, MarkSettles, MendKeeps};
ghost use Rattle.vote_core.specs.Laws.{FreshBallotStays, FreshChangeStays, AboveLastIsFresh};
ghost use Rattle.vote_core.specs.Laws.{PrepareStaysDrawn, MarkStaysDrawn, MendStaysDrawn};
ghost use Rattle.vote_core.specs.Laws.{CalmSettles, MendStaysCalm, FreshIsCalm};
ghost use Rattle.vote_core.specs.Laws.{DeadIsNeverPending, DeadStaysDead, MarkKills, SectionKeeps};
ghost use Rattle.vote_core.specs.Laws.{LiveIs, LiveIsOldOrOwn, MarkLeavesNoneLive};
ghost use Rattle.vote_core.specs.Laws.{OneValue, DrawingKeeps, QuorumsMeet, ValueIsMet, UnlistedIsBlank};
ghost use Rattle.vote_core.specs.Laws.{ShownByPlaces, LeftByPlaces, LeftAtByPlaces, LeftMembers, HadByPlaces};

/// What a verdict over sound lanes says: a settled lane has the value, and what is pending is the value's change or may become the value. The
/// rows have one verdict.
pub fn verdict_laws()
    ensures one { OneVerdict }
    ensures settled { SettledIsTheValue }
    ensures pending { PendingIsFound }
{}

/// A prepare leaves the value: one of one's own over the value's base, and one of a pending change, on lanes that were read.
pub fn prepare_laws()
    ensures own { PrepareKeeps }
    ensures forward { ForwardKeeps }
{}

/// Marks after at least w prepares leave the value or make the change's content the value; where w of them succeeded they do the latter.
pub fn mark_laws()
    ensures any { MarkKeeps }
    ensures enough { MarkSettles }
{}

/// A mend leaves the value.
pub fn mend_law()
    ensures { MendKeeps }
{}

/// What is fresh for a register stays so through loops that don't use it, and a number above the last one drawn is fresh for every register.
pub fn fresh_laws()
    ensures ballot { FreshBallotStays }
    ensures change { FreshChangeStays }
    ensures above { AboveLastIsFresh }
{}

/// The numbers of the lanes' files stay lawful through every loop, also where the lanes are not sound.
pub fn number_laws()
    ensures prepare { PrepareStaysDrawn }
    ensures mark { MarkStaysDrawn }
    ensures mend { MendStaysDrawn }
{}

/// On a calm register any d good rows are settled, and a mend leaves it calm. Fresh lanes are sound and calm.
pub fn calm_laws()
    ensures settles { CalmSettles }
    ensures mend { MendStaysCalm }
    ensures fresh { FreshIsCalm }
{}

/// A change whose parent is no longer the value's change is dead: it is never pending, it stays dead, and each mark of another change makes all
/// that waited for the old value dead. Every section leaves the value or moves it, and what was replaced is dead: so a change whose number is
/// drawn once becomes the value at most once.
pub fn history_laws()
    ensures pending { DeadIsNeverPending }
    ensures stays { DeadStaysDead }
    ensures mark { MarkKills }
    ensures section { SectionKeeps }
{}

/// What may become the value: on sound lanes each next of another change over the value's base. What may become the value after a loop could so
/// before or is the loop's own, and once another change is marked nothing may.
pub fn live_laws()
    ensures is { LiveIs }
    ensures old_or_own { LiveIsOldOrOwn }
    ensures marked { MarkLeavesNoneLive }
{}

/// Sound lanes have one value, keep it while numbers are drawn, and show it on one of any d lanes. Where w lanes at least keep no file it is the
/// empty one, and the records of the others may be taken for blank.
pub fn value_laws()
    ensures one { OneValue }
    ensures drawing { DrawingKeeps }
    ensures meet { QuorumsMeet }
    ensures met { ValueIsMet }
    ensures unlisted { UnlistedIsBlank }
{}

/// The relations of rows and lanes, from what holds at each place.
pub fn place_laws()
    ensures shown { ShownByPlaces }
    ensures left { LeftByPlaces }
    ensures targets { LeftAtByPlaces }
    ensures mask { HadByPlaces }
    ensures members { LeftMembers }
{}
