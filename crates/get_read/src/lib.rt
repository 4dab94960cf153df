//! Reading: the bytes of a body by its print, from any drives of which enough serve.
//!
//! A `Reader` asks each drive in turn for the manifest, until one has the print. The roots in the manifest verify
//! digest tables, and these verify blocks. A stripe is made of as many verified blocks as it has data blocks. So the
//! bytes are those of every body with that print, whatever the drives did. Or two byte strings with one SHA-256 were
//! met, and the clause names both. A refusal tells the cause of each drive.
//!
//! A `Reader` makes at most one drive call a step, and others may work on the drives between two steps. What it
//! promises is said of its own calls, each at its moment.
//!
//! A digest table is read and verified once for each drive and part. A stripe is made only of blocks whose digests
//! were compared. The digests of a stripe's blocks are computed together, once there are as many blocks as the stripe
//! has data blocks, or all drives were tried.
//!
//! The crate stands on `body_print` for the print and the names, on `manifest_file` and `shard_file` for the files,
//! and on `poly_code` for the code.
#![tactic(auto)]

mod blocks;
mod calls;
mod faults;
mod fetch;
mod places;
mod reader;
mod search;
mod state;
mod window;

pub use faults::BodyFault;
pub use reader::{ReadStep, Reader};
