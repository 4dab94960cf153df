//! What ops hold of a slot between two sections, and how it ends: puts that are under way, pins, and trash.

ghost use Rattle.std.specs.Prelude.{◌≡◌, ◌+◌, ◌<◌, ◌^◌, None};
ghost use Rattle.slot_core.specs.Sections.{MayLetGo, PinGoes, ShowsNoMore, TakesInHand, TrashHolds};
ghost use Rattle.slot_core.specs.SlotTurns.{SlotLeaves, SlotTurnsQuietly};
ghost use Rattle.slot_core.specs.Views.{holding_of, lanes_of, numbers_of, pins_of};

use crate::audit_entry::no_memory;
use crate::slot::Slot;
use crate::stub::Turn;
use audit_trail::Audit;
use call_types::Listing;
use drive_base::Drive;
use seal_file::Text;
use slot_data::{hands_laws, pin_laws, row_laws};
use slot_rules::{first_free, leave_out, take_pin};
use stamp_id::VersionId;
use std::alloc::Global;

/// A put that is under way. Whoever has it may stage data under its id, and commit it. Only `begin_put` makes one.
#[derive(Drop)]
pub struct Flight {
    /// The id of its data.
    pub(crate) id: VersionId,
    /// The name of its key's register.
    pub(crate) name: Text,
}

impl Flight {
    /// The id of its data.
    pub fn id(&self) -> VersionId
        ensures { result ≡ self.now.id }
    {
        self.id
    }
}

/// A pin of data. The data stays until `end_read` is given the pin. Only `begin_read` makes one.
#[derive(Drop)]
pub struct Pin {
    /// The ticket of the section that made it.
    pub(crate) ticket: u64,
}

/// Ids of data, as `take_trash` answers them.
pub type Ids = Listing<VersionId>;

impl<D: Drive, A: Audit> Slot<D, A> {
    /// Ends a read: the slot lists its pin no more. A pin that isn't listed changes nothing. The section doesn't allocate, and is never refused.
    pub fn end_read(&mut self, pin: Pin) -> Turn<()>
        requires turns { (numbers_of self.old).turns + 1 < 2 ^ 64 }
        ensures turns { SlotTurnsQuietly A.entries A.count self.old self.new result }
        ensures done { result.answer ≡ Ok tt }
        ensures drawn { (numbers_of self.new).seq ≡ (numbers_of self.old).seq }
        ensures holds { PinGoes pin.ticket (holding_of self.old) (holding_of self.new) }
        ensures lanes { lanes_of self.new ≡ lanes_of self.old }
        ensures leaves { SlotLeaves D.tells D.files self.old self.new result.stub ShowsNoMore (MayLetGo (numbers_of self.old).set pin.ticket (holding_of self.old)) }
    {
        // The laws for the proof, that the data goes on to stand where a pin ends. The call does nothing.
        pin_laws();
        self.site.turns += 1;
        let _ = take_pin(&mut self.pins, pin.ticket);
        Turn {
            answer: Ok(()),
            stub: None,
        }
    }

    /// Takes trash: the first ids that no pin names, in the order in which they came, at most `most`. The ids leave the trash, and the caller has to
    /// remove their files. A section that is refused with `NoMemory` takes none.
    pub fn take_trash(&mut self, alloc: Global, most: u32) -> Turn<Ids>
        requires turns { (numbers_of self.old).turns + 1 < 2 ^ 64 }
        ensures turns { SlotTurnsQuietly A.entries A.count self.old self.new result }
        ensures stubless { result.stub ≡ None }
        ensures drawn { (numbers_of self.new).seq ≡ (numbers_of self.old).seq }
        ensures holds { TrashHolds most (pins_of self.old) (holding_of self.old) (holding_of self.new) result.answer }
        ensures lanes { lanes_of self.new ≡ lanes_of self.old }
        ensures leaves { SlotLeaves D.tells D.files self.old self.new result.stub ShowsNoMore (TakesInHand result.answer) }
    {
        // The laws for the proof, that the data goes on to stand where trash is taken that no pin names. The calls do nothing.
        hands_laws();
        row_laws();
        self.site.turns += 1;
        let Ok(ids) = first_free(alloc, &self.trash, &self.pins, most) else {
            return no_memory();
        };
        leave_out(&mut self.trash, &ids);
        Turn {
            answer: Ok(Listing::from_vec(ids)),
            stub: None,
        }
    }
}
