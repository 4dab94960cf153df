//! A slot's beginning and end, its numbers, and what befalls its lanes between sections.

ghost use Rattle.std.specs.Prelude.{◌≡◌, ◌<◌, ◌≤◌, ◌^◌, length, ◌↔◌, IsTrue, false};
ghost use Rattle.slot_core.specs.Opening.{FreshSlotStands, OpenedSlotStands, OpensSlot, Strikes, opening};
ghost use Rattle.slot_core.specs.Views.{audit_of, holding_of, lanes_of, numbers_of};
ghost use Rattle.slot_core.specs.Numbers.{AreSpent};
ghost use Rattle.slot_core.specs.Life.{LanesComeBack, LifeGoesOn};

use crate::slot::{LAST_COUNT, LAST_SEQ, Slot, SlotParts, Unopened};
use audit_trail::{Audit, Deed, Entry};
use drive_base::{Drive, SetPlan, Trouble};
use seal_file::Text;
use slot_history::{fresh_law, resting_laws};
use slot_rules::{Drawn, Site};
use std::alloc::Global;

impl<D: Drive, A: Audit> Slot<D, A> {
    /// Opens a slot over its lanes, under a term that no earlier life used. It writes the entry of the opening, which is the slot's first turn. It calls
    /// no lane, and nothing is under way in the slot then. Where the audit has no place for the entry it hands back all that it was given.
    pub fn open(
        alloc: Global,
        parts: SlotParts<D, A>,
        set: SetPlan,
        index: u8,
        term: u64,
    ) -> Result<Slot<D, A>, Unopened<D, A>>
        requires lanes { length parts.lanes.items ≡ set.drives }
        requires index { index < 64 }
        requires term { 1 ≤ term }
        requires term_fits { term < 2 ^ 48 }
        ensures { OpensSlot A.entries A.count set index term parts result }
    {
        let SlotParts { lanes, mut audit } = parts;
        match audit.reserve() {
            Ok(()) => {
                audit.add(opening_entry(alloc, term));
                Ok(Slot {
                    lanes,
                    audit,
                    site: Site {
                        set,
                        index,
                        term,
                        turns: 1,
                    },
                    drawn: Drawn { seq: 0, count: 0 },
                    flights: Vec::new(alloc),
                    pins: Vec::new(alloc),
                    trash: Vec::new(alloc),
                })
            }
            Err(fault) => Err(Unopened {
                parts: SlotParts { lanes, audit },
                fault,
            }),
        }
    }

    /// Closes a slot, and gives back its lanes and its audit as they are.
    pub fn close(self) -> SlotParts<D, A>
        ensures lanes { result.lanes.items ≡ lanes_of self }
        ensures audit { result.audit ≡ audit_of self }
    {
        SlotParts {
            lanes: self.lanes,
            audit: self.audit,
        }
    }

    /// Has trouble befall the lane of this index, and answers what the trouble answered. It is no section: all stays but what that lane shows.
    pub fn trouble<T: Trouble<D>>(&mut self, index: u8, trouble: &mut T) -> bool
        requires { index < (numbers_of self.old).set.drives }
        ensures strikes { Strikes D.Drive T.befalls index trouble.old (lanes_of self.old) result (lanes_of self.new) }
        ensures numbers { numbers_of self.new ≡ numbers_of self.old }
        ensures holding { holding_of self.new ≡ holding_of self.old }
        ensures audit { audit_of self.new ≡ audit_of self.old }
    {
        trouble.strike(&mut self.lanes[index as usize])
    }

    /// The term that the slot was opened in.
    pub fn term(&self) -> u64
        ensures { result ≡ (numbers_of self.now).term }
    {
        self.site.term
    }

    /// How many turns the slot had: its opening, and each section since.
    pub fn turns(&self) -> u64
        ensures { result ≡ (numbers_of self.now).turns }
    {
        self.site.turns
    }

    /// Whether the slot's numbers are spent, and a section that may draw some is refused.
    pub(crate) fn is_spent(&self) -> bool
        ensures spent { IsTrue result ↔ AreSpent (numbers_of self.now) }
        ensures seq { result ≡ false → (numbers_of self.now).seq ≤ LAST_SEQ }
        ensures count { result ≡ false → (numbers_of self.now).count ≤ LAST_COUNT }
    {
        self.drawn.seq > LAST_SEQ || self.drawn.count > LAST_COUNT
    }
}

/// The entry of the opening.
fn opening_entry(alloc: Global, term: u64) -> Entry
    ensures { result ≡ opening term }
{
    Entry {
        ticket: 0,
        late: None,
        name: Text::empty(alloc),
        deed: Deed::Opened { term },
    }
}

/// The laws of an opening, for a caller's proof: where the lanes that are handed in have records which stand for a state, the opened slot stands for it,
/// and over lanes without files it stands for the state in which nothing was done. It does nothing.
pub fn open_law<D: Drive, A: Audit>()
    ensures opened { OpenedSlotStands A.entries A.count D.tells D.files }
    ensures fresh { FreshSlotStands A.entries A.count D.tells D.files }
{
    fresh_law();
}

/// The law of a later life, for a caller's proof: where the lanes of a slot stood for a state when its life ended, a slot that is opened over them
/// under a greater term stands for that state, with the drives out that were out, and any others. So does one of
/// which drives that were out are in again, where they keep what they kept last. It does nothing.
pub fn life_law<D: Drive>()
    ensures goes_on { LifeGoesOn D.tells D.files }
    ensures come_back { LanesComeBack D.tells D.files }
{
    resting_laws();
}
