//! How fast a peer gives bytes.

ghost use Rattle.std.specs.Prelude.{◌≡◌, ◌≤◌, ◌↔◌, true};
ghost use Rattle.std.specs.Duration.{as_nanos};
ghost use Rattle.io_base.specs.Pace.{GoesOn, Waited, no_wait, waited_of};

use std::time::Duration;

/// How many bytes a peer that is waited for has to give in its time.
const LEAST_BYTES: u64 = 1024;

/// How long a peer was waited for since it last had given `LEAST_BYTES`, and what it gave in that time.
#[derive(Clone, Copy, PartialEq, Eq)]
pub(crate) struct Pace {
    waited: Duration,
    bytes: u64,
}

impl Pace {
    /// The pace of a peer that was not waited for yet.
    pub(crate) fn new() -> Pace
        ensures { waited_of result ≡ no_wait }
    {
        Pace {
            waited: Duration::ZERO,
            bytes: 0,
        }
    }

    /// The pace after one more wait, which gave so many bytes.
    pub(crate) fn after(self, waited: Duration, bytes: usize) -> Pace
        ensures { GoesOn (as_nanos waited) bytes (waited_of self) (waited_of result) }
    {
        let bytes = self.bytes.saturating_add(bytes as u64);
        if bytes >= LEAST_BYTES {
            return Pace::new();
        }
        Pace {
            waited: self.waited.saturating_add(waited),
            bytes,
        }
    }

    /// Whether the peer was waited for so long, or longer, while it gave less than `LEAST_BYTES`.
    pub(crate) fn is_slow(&self, slow: Duration) -> bool
        ensures { (result ≡ true) ↔ (as_nanos slow ≤ (waited_of self.now).nanos) }
    {
        self.waited.as_nanos() >= slow.as_nanos()
    }
}
