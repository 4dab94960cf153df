//! The quorum register: one value under one name over N lanes, of which some may be lost, damaged or slow to come back.
//!
//! [`look`] reads the register on every lane and answers its value, or that a change is on its way which must be completed
//! first, or why nothing can be said. [`draft_change`] makes the two files of a change; [`propose`] writes the first one, which
//! prepares the change, and [`mark`] the second, which makes it the value. [`mend`] writes the value on the lanes that have
//! anything else. A change that is refused half-way may take effect later, once or never, and a later look says so. Files
//! are made before the first write: `propose`, `mark` and `mend` take no memory.
//!
//! The crate stands on `register_file` for the lanes' files, on `vote_core` for the verdict and the laws of the commit
//! protocol, on `manifest_file` for the data of a pending change, and on `file_access` for the calls of a drive. Its
//! contracts speak of the records that lanes keep, in `vote_core`'s words: under every pattern of failing calls, and with
//! any record in the place of a lane that is out, sound lanes stay sound, and the value stays or becomes the change's
//! content; after a `mark` that succeeded it is the change's content.
#![tactic(auto)]

mod content;
mod drafts;
mod faults;
mod lanes;
mod looks;
mod manifests;
mod mends;
mod proposals;

pub use content::{ContentFault, ContentRule};
pub use drafts::{Draft, draft_after, draft_change, draft_mend};
pub use faults::QuorumFault;
pub use lanes::{is_out, lane_laws};
pub use looks::{Looked, look};
pub use mends::{Mended, mend};
pub use proposals::{Prepared, mark, propose};
