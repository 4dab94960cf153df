//! Sources of bytes that come in pieces.

use ghost_note::Note;
use io_base::{IoFault, MemSource, Source, Takes, one_take};

/// A source in memory that gives at most `first` bytes in its first take, and at most `most` in each other. It
/// doesn't tell what is left.
#[derive(Drop)]
pub struct Pieces {
    /// Where the bytes come from, and which takes fail.
    pub source: MemSource,
    /// The most bytes of the next take.
    pub first: usize,
    /// The most bytes of each take behind it.
    pub most: usize,
    /// The takes that were asked of it.
    pub takes: Note<Takes>,
}

impl Source for Pieces {
    ghost use Rattle.std.specs.Prelude.{None};

    ghost left = { λ _. None };

    ghost takes = { λ s. s.takes.value };

    ghost faults = { λ s. s.source.faults };

    fn take(&mut self, into: &mut [u8]) -> Result<usize, IoFault> {
        let most = into.len().min(self.first);
        self.first = self.most;
        let answer = self.source.take(&mut into[..most]);
        self.takes = one_take(&self.takes, &answer, into);
        answer
    }

    fn begin_message(&mut self) {
        self.source.begin_message();
    }

    fn read_faults(&self) -> u64 {
        self.source.read_faults()
    }
}
