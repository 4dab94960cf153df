//! The laws of a run: of a slot from its opening to its close, of a connection over a whole store and of a life of `serve`, and of the rig that it leaves.

ghost use Rattle.ostore.specs.History.{ClosedSlotRan};
ghost use Rattle.ostore.specs.Laws.{ConnectionsPipe};
ghost use Rattle.ostore.specs.Lives.{LivesAreComplete, LivesGoOn, RefusalsLeave};
ghost use Rattle.ostore.specs.ServedLaws.{ServesBegin, ServesLives};

use audit_trail::Audit;
use desk_base::Gate;
use drive_base::Drive;
use drive_file::Share;
use io_base::{Clock, Door};
use log_laws::{calls_law, requests_law};
use slot_core::open_law;
use store_shared::{answers_law, opened_law, pass_law, sections_law, trails_law};

/// A slot that was opened, went on by a log and was closed went through that run. It does nothing.
pub fn slot_law<D: Drive, A: Audit>()
    ensures { ClosedSlotRan A.entries A.count D.tells D.files }
{
    open_law::<D, A>();
}

/// Over any connection histories run, and data holds on. Of each data drive the calls in the logs of the connection, one log behind another, and what their
/// sections read, were made in this order and with these answers, and no others. It does nothing.
pub fn connection_law<D: Drive, A: Audit>()
    ensures { ConnectionsPipe D.Drive A.entries A.count }
{
    calls_law::<D>();
    pass_law::<D, A>();
    answers_law::<D, A>();
    trails_law::<D, A>();
    slot_law::<D, A>();
}

/// A connection over a rig that holds leaves one that holds, so that a later life may stand on it, and in each of its calls enough lanes and data drives that serve
/// refuse nothing. An opening that is refused leaves a rig that holds too. It does nothing.
pub fn life_law<D: Drive, A: Audit>()
    ensures lives { LivesGoOn D.Drive A.entries A.count }
    ensures complete { LivesAreComplete D.Drive A.entries A.count }
    ensures refused { RefusalsLeave D.Drive A.entries A.count }
{
    calls_law::<D>();
    requests_law::<D>();
    pass_law::<D, A>();
    opened_law::<D, A>();
}

/// Each run of `serve` over an open store hands its rig back, and was a life of each slot: the sections of the calls of all workers, in the order of their turns, follow one another
/// from the slot as it was opened to the slot as it was closed. Its audit has got the entry of the opening and theirs and no others, and where its lanes stood for
/// something they stand for what these entries lead to. By the ways of each worker to the data drives the calls were made that the logs of its own calls name,
/// one log behind another, and what their sections read, and no others, from the first call of each way on. It does nothing.
pub fn served_law<R, D: Share, A: Audit, C: Clock, O: Door, G: Gate>()
    ensures { ServesLives R G C D.Drive D.root A.entries A.count O.Door O.In.Source O.Out.Sink }
{
    sections_law::<D, A>();
    trails_law::<D, A>();
    slot_law::<D, A>();
}

/// Over a rig that holds, as a fresh one does and one that a connection left, the term of such a run is new, and a history begins in each slot from what its lanes
/// stood for. It does nothing.
pub fn begun_law<R, D: Share, A: Audit, C: Clock, O: Door, G: Gate>()
    ensures { ServesBegin R G C D.Drive D.root A.entries A.count O.Door O.In.Source O.Out.Sink }
{
    opened_law::<D, A>();
}
