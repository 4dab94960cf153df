//! Where the bytes of a body come from, and why a call was cut.

ghost use Rattle.std.specs.Prelude.{ℕ};
ghost use Rattle.call_types.specs.Feeds.{FeedView, Gives, GivesCause};

use crate::Whys;

/// Why a call was cut before its reply was whole, or before its body was.
#[derive(Clone, Copy, PartialEq, Eq)]
pub enum Cut {
    /// The source of the body failed.
    ReadFault,
    /// The body ended before its stated length.
    BodyCut {
        /// How many bytes were read of it.
        read: u64,
        /// Its stated length.
        stated: u64,
    },
    /// The sink of the reply failed.
    WriteFault,
    /// Too few drives had a shard of the next stripe, after the head was told: why, for each drive.
    ShardCut(Whys),
    /// There was not enough memory.
    NoMemory,
}

/// Gives the bytes of one body of a stated length, one after the other.
pub trait Feed {
    /// Its stated length, how many bytes it has given, and the bytes that are left of its body, or None for a feed that does
    /// not tell them; all bytes that its source gave it so far, or None for a feed that does not tell those; and whether its
    /// source met its end.
    ghost seen: { Self → FeedView };

    /// The count of faults of the source below. It never falls.
    ghost faults: { Self → ℕ };

    /// Moves the next bytes to the front of `into` and answers how many: at least one where `into` isn't empty and fewer than
    /// the stated length were given, never more than that length leaves, and nothing from there on. A take that fails gives
    /// nothing, and may have written to `into`. `ReadFault` where the source's count rose, `BodyCut` where the source met its
    /// end before the stated length, and no other error.
    fn take(&mut self, into: &mut [u8]) -> Result<usize, Cut>
        ensures gives { Gives result into.new (seen self.old) (seen self.new) }
        ensures cause { GivesCause result (seen self.new) (faults self.old) (faults self.new) };
}
