//! Files of one drive: each call told with its cause, and whole files read and written as the store does it.
//!
//! [`size_on`], [`piece_into`] and [`piece_on`] ask for a file's length or read a piece of it, in one call of the drive;
//! [`file_on`] and [`bytes_at`] ask for the length first. Where they give nothing they say why: the drive failed, it
//! lacks the file, the file ends too early, or it is longer than a lawful one. [`append_on`], [`sync_on`], [`place`],
//! [`discard_on`] and [`remove_on`] are the steps of writing, one call each. [`write_loose`] and [`write_file`] are made
//! of them: a new file is appended under a loose name, synced, and put in place by one rename.
//!
//! A drive that tells what it holds then has the file, and after a failed write it has the file or what it had before;
//! nothing else of it is changed but what stands under the loose name. A failed call is named with the count of faults
//! before and after it, and want of memory is answered only where no count rose.
//!
//! The crate stands on `drive_base` for drives and on `call_types` for causes.
#![tactic(auto)]

mod fault;
mod laws;
mod reading;
mod steps;
mod writing;

pub use fault::FetchFault;
pub use laws::sight_laws;
pub use reading::{bytes_at, file_on, piece_into, piece_on, size_on};
pub use steps::{append_on, discard_on, place, remove_on, sync_on};
pub use writing::{write_file, write_loose};
