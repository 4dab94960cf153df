//! The laws of passes, of what their desks answer, and of a store's lives.

ghost use Rattle.store_shared.specs.Holders.{BareRigHolds, ClosedStoreHolds, KeptDrivesRest, LostRigHolds, OpenedStoreHolds, TriedRigHolds};
ghost use Rattle.store_shared.specs.Laws.{AnswersAreCalls, PassesAreInOrder};
ghost use Rattle.store_shared.specs.Sections.{AnswersHaveSections, SectionsLead};
ghost use Rattle.store_shared.specs.SharedLaws.{FitIsFact, SharedAnswersHaveTurns};
ghost use Rattle.store_shared.specs.Strikes.{StruckRigHolds};
ghost use Rattle.store_shared.specs.Striking.{StruckIsTroubled};
ghost use Rattle.store_shared.specs.Trails.{PlainAnswersHaveTrails, SharedAnswersHaveTrails};

use audit_trail::Audit;
use drive_base::{Drive, Trouble};
use slot_core::{life_law, open_law};
use slot_data::{fresh_data_law, out_law};
use slot_history::{fresh_law, resting_laws};
use term_gate::opening_laws;

/// The slots and the data drives of any pass are those of a store, in order. It does nothing.
pub fn pass_law<D: Drive, A: Audit>()
    ensures { PassesAreInOrder D.Drive A.entries A.count }
{}

/// Whatever a call answers, its log is that of one call on the store of its pass, from the pass before to the pass after. It does nothing.
///
/// That both passes have one set is the clause `holds` of `Desk::call`.
pub fn answers_law<D: Drive, A: Audit>()
    ensures { AnswersAreCalls D.Drive A.entries A.count }
{}

/// Whatever a call of a shared desk answers, in each slot its pass has those turns more that its log has: their tickets rise, none is below what the pass had
/// seen there before, and the pass has seen each then. The note of each section, and so its stub, tells the ticket of its turn. It does nothing.
pub fn shared_answers_law<D: Drive, A: Audit>()
    ensures { SharedAnswersHaveTurns D.Drive A.entries A.count }
{}

/// Whatever a call of a shared desk answers, it has its sections in each slot, one in each turn that its pass has more there. And where the turns of the history
/// of a slot are those of sections, of whatever calls, they lead the slot, in the order of their turns: its audit has got their entries and no others, and where
/// its lanes stood for something they stand for what these entries lead to, each section over what the one before it left. It does nothing.
pub fn sections_law<D: Drive, A: Audit>()
    ensures have { AnswersHaveSections D.Drive A.entries A.count }
    ensures lead { SectionsLead D.Drive A.entries A.count }
{
    shared_answers_law::<D, A>();
}

/// Where it is true that what a pass holds is that of a desk's own passes, it is known: `Desk::fits` of a shared desk says the first, its calls ask for the
/// second. It does nothing.
pub fn fits_law<R, D: Drive, A: Audit, G>()
    ensures { FitIsFact R D A G }
{}

/// Whatever a call answers, the drive calls of its log, and what its sections read, are the calls that were made of the data drives of its pass, and no others, each
/// with what was answered. So it is of the ways of a shared pass, whatever other callers ask by theirs. It does nothing.
pub fn trails_law<D: Drive, A: Audit>()
    ensures plain { PlainAnswersHaveTrails D.Drive A.entries A.count }
    ensures shared { SharedAnswersHaveTrails D.Drive A.entries A.count }
{}

/// The laws of a store's lives, for a caller's proof. It does nothing.
///
/// - A store that was opened over lanes and data drives which hold, holds with nothing in hand: the lanes of each slot
///   stand for the state for which they stood before, and the data drives hold its data.
/// - Lanes and data drives hold as before when an opening was tried and refused.
/// - Lanes and data drives without files hold.
/// - Data drives that keep what is no data go on to tell, and to keep the term of the life.
/// - Lanes and data drives of a store that holds, hold when its life ends.
/// - They go on to hold when more drives are lost, where the term is still kept.
pub fn opened_law<D: Drive, A: Audit>()
    ensures opened { OpenedStoreHolds D.Drive A.entries A.count }
    ensures tried { TriedRigHolds A D.Drive }
    ensures kept { KeptDrivesRest }
    ensures bare { BareRigHolds A D.Drive }
    ensures closed { ClosedStoreHolds A D.Drive }
    ensures lost { LostRigHolds A D.Drive }
{
    life_law::<D>();
    open_law::<D, A>();
    out_law();
    fresh_data_law();
    fresh_law();
    resting_laws();
    opening_laws();
}

/// Lanes and data drives that hold go on to, where drives are struck by trouble or stop between two lives: each tells and keeps as before, its files that were
/// being written stay or are gone, what it shows stays honest, and the term is still kept. It does nothing.
pub fn struck_law<D: Drive, A: Audit>()
    ensures { StruckRigHolds A D.Drive }
{
    out_law();
    fresh_data_law();
}

/// A pass that was struck by trouble is a store that trouble befell, as the laws of logs speak of it. It does nothing.
pub fn trouble_law<D: Drive, A: Audit, T: Trouble<D>>()
    ensures { StruckIsTroubled D.Drive A.entries A.count T.befalls }
{}
