//! A teller that keeps what it is told.

use crate::Line;
use crate::replies::say_reply;
use call_types::{Cut, Reply};
use desk_base::Teller;

/// A teller that keeps what it is told in words: the reply, and behind it the bytes of the body, piece by piece. It never
/// fails.
#[derive(Drop)]
pub struct RecordingTeller {
    /// What it was told.
    pub told: Line,
}

impl Teller for RecordingTeller {
    ghost takes = { λ _ _ _. Unit {0} };

    ghost breaks = { λ _ _ _. ⊥ };

    ghost faults = { λ _. 0 };

    fn head(&mut self, reply: &Reply) -> Result<(), Cut> {
        say_reply(&mut self.told, reply);
        Ok(())
    }

    fn piece(&mut self, bytes: &[u8]) -> Result<(), Cut> {
        self.told.say(" | ");
        self.told.say_bytes(bytes);
        Ok(())
    }
}
