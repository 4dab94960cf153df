//! What a section does with one register: it writes what is pending again, and writes a change of its own. This is the lower half of a slot's section.
//!
//! [`write_both`] proposes the change of a draft and marks it. One relation says what that leaves of the lanes (`LeavesLanes`). They hold the value as it
//! was, or what was written, which they hold where the answer is `Ok`. What may still become the value could so before, or was written. Each record is
//! one that was there, or was written. This is so whatever calls fail, on lanes that tell what they keep.
//!
//! [`draft_again`] makes the draft of what a look found pending, before the first write. `write_both` of it completes that change.
//!
//! Each answer of `write_both` tells from which calls it came, also over drives that tell nothing. Where enough lanes serve, it is not refused.
//!
//! Nothing is said here of a lane's bytes. The crate stands on the contracts of `register_core`, and on `vote_core` for the laws of lanes.
#![tactic(auto)]

mod changes;

pub use changes::{draft_again, write_both};
