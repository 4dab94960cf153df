//! What a call owes: the one reply that its sections, its drive calls and its body allow, whichever desk serves it.
//!
//! While a call is served a log grows (`specs/Events.antt`): its sections with their notes, its calls of data drives with what each gave, the bytes taken
//! of its body, and what was told. By the log alone, with no drive and no slot, `OwesReply` (`specs/Owes.antt`) says which reply is owed, `Owes` and `Pays`
//! (`specs/Paying.antt`) say how the call ends, and `Receipt` says what its notes are worth. What the drives and slots had at each event is said above.
//!
//! The crate is definitions and their laws; each law is the contract of a function that does nothing. `upload_of` alone gives something: the upload that a
//! call names (`specs/Uploads.antt`). It stands on `desk_base` for calls and what is told, on `audit_trail` for entries, on `version_list`, `bucket_book`,
//! `span_plan` and `s3_docs` for what is replied, on `body_print` for prints and clashes, and on `call_types` for replies, refusals and letters.
#![tactic(auto)]

mod barred;
mod laws;
mod uploads;

pub use barred::Barred;
pub use laws::{act_law, asking_law, join_law, outcome_law, part_law, quiet_law};
pub use uploads::{nobody, upload_of};
