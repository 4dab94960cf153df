//! The bytes that came from a source and wait.

ghost use Rattle.std.specs.Prelude.{◌≡◌, ◌+◌, ◌-◌, ◌<◌, ◌≤◌, [], length, take, drop, slice_range, IfOk, vec_len};
ghost use Rattle.io_base.specs.Count.{CountsFault};
ghost use Rattle.http_wire.specs.Taking.{Fills, TakesAt, source_view};
ghost use Rattle.http_wire.specs.Heads.{most_bytes};

use io_base::{IoFault, Source};
use std::alloc::{AllocError, Global};
use std::marker::Model;

/// How many bytes one take may bring.
const PIECE: usize = 65_536;

/// How many bytes may wait: those of a head that isn't whole, and one piece behind them.
const ROOM: usize = 131_072;

/// The bytes that came from a source and wait. A contract sees them as a list.
#[derive(Drop)]
pub struct Window {
    room: Vec<u8>,
    start: usize,
    end: usize,
}

impl Model for Window {
    ghost use Rattle.std.specs.Prelude.{◌≡◌, ◌≤◌, ℕ, List, slice_range, vec_len};

    ghost Value = { List ℕ };

    ghost view = { λ w. slice_range w.room.items w.start w.end };

    ghost invariant = { λ w. (w.start ≤ w.end) × (w.end ≤ 131072) × (vec_len w.room ≡ 131072) };
}

impl Window {
    /// A window in which nothing waits. It takes the memory that it needs for good.
    pub fn new(alloc: Global) -> Result<Window, AllocError>
        ensures { IfOk result (λ w. w ≡ []) }
    {
        let room = vec![in alloc; 0u8; ROOM]?;
        Ok(Window {
            room,
            start: 0,
            end: 0,
        })
    }

    /// The bytes that wait.
    pub fn bytes(&self) -> &[u8]
        ensures { result.now ≡ self.now }
    {
        &self.room[self.start..self.end]
    }

    /// Passes over the first `n` bytes.
    pub fn pass(&mut self, n: usize)
        requires { n ≤ length self.old }
        ensures { self.new ≡ drop n self.old }
    {
        self.start += n;
    }

    /// Takes one piece from the source, behind what waits, and answers its number of bytes: none where the source has
    /// ended. Where the source fails, what waits stays.
    pub fn fill<S: Source>(&mut self, source: &mut S) -> Result<usize, IoFault>
        requires { length self.old < most_bytes }
        ensures filled { Fills result self.old self.new (source_view S.Source source.old) (source_view S.Source source.new) }
        ensures counted { CountsFault result (S.faults source.old) (S.faults source.new) }
    {
        let start = settle(&mut self.room, self.start, self.end);
        self.end = start + (self.end - self.start);
        self.start = start;
        let n = take_behind(&mut self.room, self.end, source)?;
        self.end += n;
        Ok(n)
    }
}

/// Moves what waits to the front, where there is no room for a piece behind it, and answers where it starts.
fn settle(room: &mut Vec<u8>, start: usize, end: usize) -> usize
    requires ordered { start ≤ end }
    requires fits { end ≤ 131072 }
    requires short { end < start + most_bytes }
    requires room { vec_len room.old ≡ 131072 }
    ensures room { vec_len room.new ≡ 131072 }
    ensures fits { result + (end - start) ≤ most_bytes }
    ensures same { slice_range room.new.items result (result + (end - start)) ≡ slice_range room.old.items start end }
{
    if end <= PIECE {
        return start;
    }
    room.copy_within(start..end, 0);
    0
}

/// Takes one piece into the room from `end` on.
fn take_behind<S: Source>(room: &mut Vec<u8>, end: usize, source: &mut S) -> Result<usize, IoFault>
    requires fits { end ≤ most_bytes }
    requires room { vec_len room.old ≡ 131072 }
    ensures room { vec_len room.new ≡ 131072 }
    ensures front { take end room.new.items ≡ take end room.old.items }
    ensures taken { TakesAt result end room.new.items (source_view S.Source source.old) (source_view S.Source source.new) }
    ensures counted { CountsFault result (S.faults source.old) (S.faults source.new) }
{
    source.take(&mut room[end..end + PIECE])
}
