//! The laws of logs.

ghost use Rattle.drive_base.specs.declared.plan.SetPlan.{SetPlan};
ghost use Rattle.op_steps.specs.Store.{any_effect};
ghost use Rattle.op_steps.specs.Trails.{LogsAreTrails};
ghost use Rattle.log_laws.specs.Calling.{CallsKeep};
ghost use Rattle.log_laws.specs.CalmRegisters.{CalmReadsGoOn};
ghost use Rattle.log_laws.specs.Coming.{ClaimsCome, ClaimsGo};
ghost use Rattle.log_laws.specs.Getting.{GetsGoOn, GetsLackNothing};
ghost use Rattle.log_laws.specs.HealthyLanes.{HealthyLanesKeep};
ghost use Rattle.log_laws.specs.Keeping.{CallKeepsData};
ghost use Rattle.log_laws.specs.Laws.{EachStepKeepsData, LeadsJoin, LeadsStay, LogKeepsData, RanKeepsFiles, RanKeepsHistory};
ghost use Rattle.log_laws.specs.LiveFiles.{LiveFilesStay, NamedFilesStay};
ghost use Rattle.log_laws.specs.Refusing.{BarsHaveCauses, CallsWereMade, CallsWereSo, EventsTookPlace, RefusalsHaveCauses};
ghost use Rattle.log_laws.specs.Requests.{CallsComplete, RequestComplete};
ghost use Rattle.log_laws.specs.Showing.{ShowingJoins, ShowingParts, ShowingRuns};
ghost use Rattle.log_laws.specs.StoreTroubles.{TroubleKeepsData};

use desk_base::Teller;
use drive_base::Drive;
use manifest_file::manifest_laws;

/// Over any log of steps each slot's audit has got exactly its entries, and what its lanes stand for runs by them, with what their sections showed. It does
/// nothing.
pub fn history_law<D: Drive, T: Teller>()
    ensures { RanKeepsHistory D.Drive T.takes T.breaks }
{}

/// One step of one op, and a whole log of one, keeps the data of every slot whatever others hold, with what its entries lead to. Data drives that tell keep
/// what is no data. It does nothing.
pub fn data_law<D: Drive, T: Teller>()
    ensures step { EachStepKeepsData D.Drive T.takes T.breaks }
    ensures log { LogKeepsData D.Drive T.takes T.breaks }
    ensures files { RanKeepsFiles D.Drive T.takes T.breaks }
{}

/// Over a whole call of which only the faults of the teller are seen each slot's audit has got exactly its entries, by which what its lanes stand for runs;
/// data drives that tell keep what is no data; of each data drive, whatever it tells, just the calls of the log were made, and readings by sections; and the
/// data of every slot goes on to hold, with what the entries lead to, and with what the call leaves in hand. It does nothing.
pub fn call_law<D: Drive>()
    ensures history { RanKeepsHistory D.Drive any_effect any_effect }
    ensures files { RanKeepsFiles D.Drive any_effect any_effect }
    ensures trails { LogsAreTrails D.Drive any_effect any_effect }
    ensures data { CallKeepsData D.Drive any_effect any_effect }
{}

/// So it is over calls one after another. It does nothing.
pub fn calls_law<D: Drive>()
    ensures { (set : SetPlan) → CallsKeep D.Drive set }
{}

/// A claim of nothing may come anywhere among the claims of a store that holds, and go. It does nothing.
pub fn claim_laws<D: Drive>()
    ensures come { ClaimsCome D.tells D.files }
    ensures go { ClaimsGo D.tells D.files }
{}

/// Trouble that befalls lanes and data drives between two steps leaves the data of every slot, where the damage is honest. It does nothing.
pub fn trouble_law<D: Drive>()
    ensures { TroubleKeepsData D.Drive }
{}

/// Where entries run with what their sections showed, they run as a history does; such runs join, and each section of one showed what was so. What no entry, and two
/// logs one after another, lead to follows. It does nothing.
pub fn showing_laws()
    ensures runs { ShowingRuns }
    ensures join { ShowingJoins }
    ensures parts { ShowingParts }
    ensures stay { LeadsStay }
    ensures all { LeadsJoin }
{}

/// In the log of a call of which only the faults of the teller are seen each event took place as a step between two stores through which the log leads, and
/// there has its cause: each section that was refused and each that could not be done. Each call of a data drive was made there, and what it told was so. It
/// does nothing.
pub fn cause_law<D: Drive>()
    ensures took_place { EventsTookPlace D.Drive any_effect any_effect }
    ensures refused { RefusalsHaveCauses D.Drive any_effect any_effect }
    ensures barred { BarsHaveCauses D.Drive any_effect any_effect }
    ensures made { CallsWereMade D.Drive any_effect any_effect }
    ensures called { CallsWereSo D.Drive any_effect any_effect }
{}

/// Where the data of each slot holds, no step takes a file of live data from a drive that tells, but of the op's own put under way. It does nothing.
pub fn live_law<D: Drive, T: Teller>()
    ensures live { LiveFilesStay D.Drive T.takes T.breaks }
    ensures named { NamedFilesStay D.Drive T.takes T.breaks }
{}

/// Where a section made a change, each lane that is in use, tells and had no fault in it keeps the change as its base. It does nothing.
pub fn lanes_law<D: Drive>()
    ensures { HealthyLanesKeep D.Drive }
{}

/// In the log of a call over a slot whose lanes stand a section that only looks at a register isn't refused for a fault of a quorum where the entries before it
/// left the register calm, and as many of its lanes serve as a stripe has data blocks. Of data drives nothing is asked. It does nothing.
pub fn calm_law<D: Drive, T: Teller>()
    ensures { CalmReadsGoOn D.Drive T.takes T.breaks }
{}

/// Over the log of a call on a store that holds, where enough lanes and data drives serve in a section, it isn't refused so; none in the call's own slot is
/// refused for a put that isn't listed; where enough data drives have no fault over the log, not too few took its body; and where enough of them serve in each of
/// its calls, a read of data that its section found goes on. It does nothing.
pub fn request_law<D: Drive, T: Teller>()
    ensures { RequestComplete D.Drive T.takes T.breaks }
{
    manifest_laws();
}

/// So it is over the logs of calls one after another, of which only the faults of the teller are seen. It does nothing.
pub fn requests_law<D: Drive>()
    ensures { (set : SetPlan) → CallsComplete D.Drive set }
{
    manifest_laws();
}

/// A GetObject whose log is complete so is told letters of data drives, where enough of these serve, only where a drive that isn't one of them showed another
/// manifest; so where all of them serve it is told none. Of its teller only the faults are seen. It does nothing.
pub fn get_law<D: Drive>()
    ensures go_on { GetsGoOn D.Drive any_effect any_effect }
    ensures none { GetsLackNothing D.Drive any_effect any_effect }
{}
