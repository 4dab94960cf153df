//! What the store asks of a drive, and how drives form a set.
//!
//! A drive keeps named files. A new file is written under a loose name, synced, and then put in place
//! under its name by one `rename`. Every layer above sees drives through the trait [`Drive`] alone, so its
//! contract says all that the store relies on: what each call leaves of the files, when a name is
//! answered `Absent`, and that each `Failed` is counted.
//!
//! The contract holds of drives that tell what they hold and of drives that tell nothing, such as a
//! folder or a drive behind a lock. What a drive holds is claimed only of one that tells it. Counts,
//! causes and the order of names are claimed of every drive, and so is which calls were made of it and what each
//! answered: a drive keeps a [`Trail`] of them, which contracts alone see.
//!
//! A set of drives is a [`SetPlan`]; a [`DriveSet`] names some of its drives, and [`drive_set_laws`] says how such sets are
//! counted. The layers above see the drives of a set as a list of views, one for each: [`view_laws`] says what holds of
//! such lists over several calls, and that no call makes damage dishonest. [`page`] lists the keys of a map as a drive
//! lists its names.
//!
//! It stands on `fault_base`, which says when a count rose, and on `ghost_note`, of which a trail is made.
#![tactic(auto)]

mod drive;
mod drive_set;
mod fault;
mod listing;
mod plan;
mod trail;
mod trouble;
mod views;

pub use drive::{Drive, LONGEST_NAME};
pub use drive_set::{DriveSet, drive_set_laws};
pub use fault::DriveFault;
pub use listing::page;
pub use plan::{MOST_DRIVES, SetPlan, usual_parity};
pub use trail::{Before, Trail};
pub use trouble::Trouble;
pub use views::view_laws;
