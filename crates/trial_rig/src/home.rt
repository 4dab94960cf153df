//! A slot with its index and its set.

ghost use Rattle.std.specs.Prelude.{◌≡◌};
ghost use Rattle.slot_core.specs.Views.{numbers_of};

use crate::FrailAudit;
use drive_base::SetPlan;
use drive_memory::MemDrive;
use slot_core::Slot;

/// A slot over memory drives, with its index and its set.
#[derive(Drop)]
pub struct Home {
    /// The set.
    pub set: SetPlan,
    /// The index.
    pub index: u8,
    /// The slot.
    pub slot: Slot<MemDrive, FrailAudit>,
    pub ghost set_is: { (numbers_of slot).set ≡ set },
    pub ghost index_is: { (numbers_of slot).index ≡ index },
}
