//! The names of a slot's registers.

ghost use Rattle.drive_base.specs.View.{AllGoOn, GoesOn, view, views};
ghost use Rattle.std.specs.Prelude.{◌≡◌, ◌+◌, ◌<◌, ◌^◌, ℕ, IfOk, length, map, slice_index_or, string_bytes, ◌↔◌, ◌⊎◌, ◌≤◌, List, Contains, IsTrue, OnOk};
ghost use Rattle.std.specs.Int.{IsBitSet};
ghost use Rattle.slot_core.specs.Hands.{HandsStay};
ghost use Rattle.slot_core.specs.NameList.{AreShownNames, LanesAreAsked, ListsNames, SaysNothing, ShowsNames};
ghost use Rattle.slot_core.specs.Stubs.{Says};
ghost use Rattle.slot_core.specs.SlotTurns.{SlotLeaves, SlotTurnsUnspent};
ghost use Rattle.slot_core.specs.Views.{audit_of, holding_of, lanes_of, numbers_of};
ghost use Rattle.slot_core.specs.NamePages.{AsksLane, IsGathered};
ghost use Rattle.slot_core.specs.LanesStay.{FilesStay};

use crate::slot::{Slot, SlotFault};
use crate::stub::{Stub, Turn};
use audit_trail::{Audit, AuditFault};
use call_types::{FileKind, Listing, Why, Whys};
use drive_base::{Drive, DriveFault, DriveSet, page};
use fault_base::NoMemory;
use register_core::{QuorumFault, is_out};
use std::alloc::Global;
use std::collections::BTreeMap;

impl<D: Drive, A: Audit> Slot<D, A> {
    /// Lists the names of registers, from `from` on in the order of their bytes, at most `most`: those that the lanes show which answer. As many lanes have
    /// to answer as a read needs; where fewer do, the section is refused with `ReadQuorum` and their letters. It passes over names of more than 1,129 bytes.
    /// It looks at no register and completes nothing, and its entry has no name. It draws no number, so numbers that are spent don't refuse it.
    pub fn list_names(&mut self, alloc: Global, from: &str, most: u32) -> Turn<Names>
        requires turns { (numbers_of self.old).turns + 1 < 2 ^ 64 }
        ensures turns { SlotTurnsUnspent A.entries A.count self.old self.new result }
        ensures says { Says result.stub SaysNothing }
        ensures holds { holding_of self.new ≡ holding_of self.old }
        ensures leaves { SlotLeaves D.tells D.files self.old self.new result.stub (ShowsNames from.now most result.answer) HandsStay }
        ensures lists { ListsNames D.Drive (numbers_of self.old).set from.now most result.answer (lanes_of self.old) (lanes_of self.new) }
        ensures files { FilesStay D.Drive (lanes_of self.old) (lanes_of self.new) }
        ensures lanes { AllGoOn (views D.Drive (lanes_of self.old)) (views D.Drive (lanes_of self.new)) }
        ensures out { (k : ℕ) (d : D) → IsBitSet (numbers_of self.old).set.out k → slice_index_or (lanes_of self.new) k d ≡ slice_index_or (lanes_of self.old) k d }
    {
        let ticket = self.site.turns;
        self.site.turns += 1;
        let before = self.audit.faults();
        match self.audit.reserve() {
            Ok(()) => {}
            Err(AuditFault::Failed) => {
                let after = self.audit.faults();
                let fault = SlotFault::AuditFailed { before, after };
                return Turn {
                    answer: Err(SlotFault::AuditFailed { before, after }),
                    stub: Some(Stub::refused(self.site.index, ticket, fault)),
                };
            }
            Err(AuditFault::NoMemory) => {
                return Turn {
                    answer: Err(SlotFault::NoMemory),
                    stub: None,
                };
            }
        }
        let Ok(shown) = self.ask_lanes(alloc, from, most) else {
            return Turn {
                answer: Err(SlotFault::NoMemory),
                stub: None,
            };
        };
        if shown.whys.good() < self.site.set.read_quorum() {
            let fault = SlotFault::Quorum(QuorumFault::ReadQuorum(shown.whys));
            return Turn {
                answer: Err(SlotFault::Quorum(QuorumFault::ReadQuorum(shown.whys))),
                stub: Some(self.enter_nothing(alloc, ticket, Some(fault))),
            };
        }
        Turn {
            answer: Ok(Listing::from_vec(shown.names)),
            stub: Some(self.enter_nothing(alloc, ticket, None)),
        }
    }

    /// Asks the lanes for their first names.
    fn ask_lanes(&mut self, alloc: Global, from: &str, most: u32) -> Result<Shown, NoMemory>
        ensures asked { IfOk result (λ shown. LanesAreAsked D.count (numbers_of self.old).set.out shown.whys (lanes_of self.old) (lanes_of self.new)) }
        ensures names { IfOk result (λ shown. AreShownNames D.tells D.files from.now most shown.whys (lanes_of self.old) (map string_bytes shown.names.items)) }
        ensures long { length (lanes_of self.new) ≡ length (lanes_of self.old) }
        ensures files { FilesStay D.Drive (lanes_of self.old) (lanes_of self.new) }
        ensures lanes { AllGoOn (views D.Drive (lanes_of self.old)) (views D.Drive (lanes_of self.new)) }
        ensures out { (k : ℕ) (d : D) → IsBitSet (numbers_of self.old).set.out k → slice_index_or (lanes_of self.new) k d ≡ slice_index_or (lanes_of self.old) k d }
        ensures numbers { numbers_of self.new ≡ numbers_of self.old }
        ensures holding { holding_of self.new ≡ holding_of self.old }
        ensures audit { audit_of self.new ≡ audit_of self.old }
    {
        shown_names(alloc, &mut self.lanes, self.site.set.out, from, most)
    }
}

/// Names of registers, as `list_names` answers them.
pub type Names = Listing<String>;

/// The first names that lanes show, and why each lane gave its names or didn't.
#[derive(Drop)]
pub(crate) struct Shown {
    /// The names.
    pub names: Vec<String>,
    /// Why.
    pub whys: Whys,
}

/// The first names that the lanes show which aren't out and answer, so many at most, in the order of their bytes.
pub(crate) fn shown_names<D: Drive>(
    alloc: Global,
    lanes: &mut [D],
    out: DriveSet,
    from: &str,
    most: u32,
) -> Result<Shown, NoMemory>
    requires some { 1 ≤ length lanes.old }
    requires few { length lanes.old ≤ 16 }
    ensures asked { IfOk result (λ shown. LanesAreAsked D.count out shown.whys lanes.old lanes.new) }
    ensures names { IfOk result (λ shown. AreShownNames D.tells D.files from.now most shown.whys lanes.old (map string_bytes shown.names.items)) }
    ensures files { FilesStay D.Drive lanes.old lanes.new }
    ensures lanes { AllGoOn (views D.Drive lanes.old) (views D.Drive lanes.new) }
    ensures out { (k : ℕ) (d : D) → IsBitSet out k → slice_index_or lanes.new k d ≡ slice_index_or lanes.old k d }
{
    let mut gathered = BTreeMap::new(alloc);
    let mut whys = Whys::all_good(lanes.len() as u8);
    for (index, lane) in lanes.iter_mut().enumerate() {
        let skips = is_out(out, index);
        let why = ask_lane(alloc, lane, skips, from, most, &mut gathered)?;
        whys.set(index, why);
    }
    let names = page(alloc, &gathered, from, most)?;
    Ok(Shown { names, whys })
}

/// Asks a lane for its names, and gathers them.
fn ask_lane<D: Drive>(
    alloc: Global,
    lane: &mut D,
    is_out: bool,
    from: &str,
    most: u32,
    gathered: &mut BTreeMap<String, ()>,
) -> Result<Why, NoMemory>
    ensures asks { IfOk result (λ why. AsksLane D.Drive (IsTrue is_out) from.now most why (IsGathered gathered.old) (IsGathered gathered.new) lane.old lane.new) }
    ensures files { IsTrue (D.tells lane.old) → D.files lane.new ≡ D.files lane.old }
    ensures goes_on { GoesOn (view D.Drive lane.old) (view D.Drive lane.new) }
    ensures alone { IsTrue is_out → lane.new ≡ lane.old }
{
    if is_out {
        return Ok(Why::Lacks(FileKind::Format));
    }
    let before = lane.faults();
    match lane.names(alloc, from, most) {
        Ok(names) => {
            gather(gathered, names)?;
            Ok(Why::Good)
        }
        Err(DriveFault::NoMemory) => Err(NoMemory),
        Err(_) => {
            let after = lane.faults();
            Ok(Why::Failed { before, after })
        }
    }
}

/// Gathers names.
fn gather(gathered: &mut BTreeMap<String, ()>, mut names: Vec<String>) -> Result<(), NoMemory>
    ensures { OnOk result ((name : List ℕ) → IsGathered gathered.new name ↔ (IsGathered gathered.old name ⊎ Contains (map string_bytes names.items) name)) }
{
    while let Some(name) = names.pop() {
        gathered.insert(name, ())?;
    }
    Ok(())
}
