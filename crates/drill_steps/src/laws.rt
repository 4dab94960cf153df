//! The laws of worlds and of lives.

ghost use Rattle.drill_steps.specs.Laws.{WorldsHold};
ghost use Rattle.drill_steps.specs.LiveFiles.{WorldKeepsFiles};
ghost use Rattle.drill_steps.specs.Lives.{ChangesApplyOnce, LivesHold};
ghost use Rattle.drill_steps.specs.Puts.{PutIdsRise};
ghost use Rattle.drill_steps.specs.Scripts.{LinesAreTurns};

use audit_trail::Audit;
use desk_base::Teller;
use drive_base::Drive;
use log_laws::{claim_laws, data_law, history_law, live_law, showing_laws, trouble_law};
use op_steps::Op;
use slot_history::run_laws;
use store_shared::{opened_law, pass_law, struck_law};

/// Whatever moves are made in a world, and in whatever order, where damage is honest: the history of each slot runs by the entries of their steps, its audit
/// has got just these, and its data goes on to hold, with what the actors hold. It does nothing.
pub fn world_law<O: Op, D: Drive, T: Teller>()
    ensures { WorldsHold D.Drive T.takes T.breaks O.Op }
{
    data_law::<D, T>();
    history_law::<D, T>();
    claim_laws::<D>();
    trouble_law::<D>();
    showing_laws();
}

/// Whatever turns a store takes, where damage is honest and no drive that was lost before fails while it is opened: each opening has a term above all before it,
/// the history of each slot runs by the entries of the steps of all lives, and what the lanes and data drives keep holds, at rest and in a life, with what the
/// actors hold. It does nothing.
pub fn lives_law<O: Op, D: Drive, A: Audit, T: Teller>()
    ensures { LivesHold D.Drive A.entries A.count T.takes T.breaks O.Op }
{
    world_law::<O, D, T>();
    data_law::<D, T>();
    showing_laws();
    opened_law::<D, A>();
    struck_law::<D, A>();
    pass_law::<D, A>();
}

/// Where entries ran, over however many lives, what each change did was applied once. It does nothing.
pub fn once_law()
    ensures { ChangesApplyOnce }
{
    showing_laws();
    run_laws();
}

/// Whatever the lines of a script do, they are turns of lives, and where none of them is a `hurt` or a `stop` they ask nothing of damage. It does nothing.
pub fn line_law<O: Op, D: Drive, A: Audit, T: Teller>()
    ensures { LinesAreTurns D.Drive A.entries A.count T.takes T.breaks O.Op }
{}

/// Over any moves of a life the puts that begin in a slot have rising numbers, above the last that the slot drew before, so no id is given twice. It does nothing.
pub fn put_law<O: Op, D: Drive, T: Teller>()
    ensures { PutIdsRise D.Drive T.takes T.breaks O.Op }
{
    history_law::<D, T>();
}

/// In a world that holds no step of an actor takes a file of live data from a drive that tells, but of the actor's own put under way. It does nothing.
pub fn file_law<O: Op, D: Drive, T: Teller>()
    ensures { WorldKeepsFiles D.Drive T.takes T.breaks O.Op }
{
    live_law::<D, T>();
}
