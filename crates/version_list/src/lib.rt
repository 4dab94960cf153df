//! The versions and open uploads of one key: the state that its registers hold.
//!
//! The crate stands on `fault_base`, `stamp_id`, `seal_file`, `call_types` and `field_reader`. Each canonical state has
//! one spelling as bytes: `write` gives it, and `read` accepts spellings alone and answers the state that a content
//! spells, or the place of its first fault. `find` says which version a read of the key gives, and `apply` makes the
//! state that a change of it leaves: they are exactly `Reads` and `Step` of the specs, which follow the S3 API,
//! and a step from a canonical state leaves a canonical state. `names_id` says whether a state names an id in any field,
//! and `place_of_id` in which field of the spelling it does first: a change is made under an id that isn't named.
#![tactic(auto)]

mod change;
mod edit;
mod gone;
mod ids;
mod names;
mod naming;
mod outcome;
mod places;
mod reading;
mod reads;
mod same;
mod sizes;
mod state;
mod step;
mod uploads;
mod writing;

pub use gone::has_data;
pub use naming::{names_id, naming_laws};
pub use outcome::{ActFault, Applied};
pub use places::{place_laws, place_of_id};
pub use reading::{read, state_laws};
pub use reads::find;
pub use state::{KeyState, MOMENT_LIMIT, MOST_UPLOADS, MOST_VERSIONS};
pub use step::apply;
pub use uploads::find_upload;
pub use writing::write;
