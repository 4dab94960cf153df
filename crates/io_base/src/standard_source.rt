//! A source over a reader of the outside.

ghost use Rattle.std.specs.Prelude.{◌≡◌, ℕ, [], None};
ghost use Rattle.std.specs.Io.KnownBytes.{ReadConsumes};
ghost use Rattle.io_base.specs.Count.{CountsFault};
ghost use Rattle.io_base.specs.Source.{Took};
ghost use Rattle.io_base.specs.Trail.{taken_more};

use crate::tcp_ends::TcpReader;
use crate::trail::{Takes, no_takes, one_take};
use crate::{IoFault, Source};
use ghost_note::Note;
use std::alloc::{AllocError, Global};
use std::io::{BufReader, ErrorKind, Read};
use std::rt;

/// How many bytes are read ahead for small takes.
const BUFFER_BYTES: usize = 65_536;

/// A source over a reader of the outside, as standard input. It tells the takes that were asked of it, and not what
/// the reader has left.
#[derive(Drop)]
pub struct StdSource<R> {
    reader: BufReader<R>,
    takes: Note<Takes>,
    faults: u64,
}

impl<R: Read + Drop> StdSource<R> {
    ghost use Rattle.std.specs.Prelude.{IfOk};
    ghost use Rattle.io_base.specs.StdSource.{unread};

    /// Takes 64 KiB to read ahead, and reads nothing yet. The only error is want of memory.
    pub fn new(alloc: Global, reader: R) -> Result<StdSource<R>, AllocError>
        ensures reader { IfOk result (λ s. unread R.remaining s ≡ R.remaining reader) }
        ensures trail { IfOk result (λ s. ⟦<StdSource<R> as Source>⟧.takes s ≡ []) }
        ensures count { IfOk result (λ s. ⟦<StdSource<R> as Source>⟧.faults s ≡ 0) }
    {
        match BufReader::with_capacity(alloc, BUFFER_BYTES, reader) {
            Ok(reader) => Ok(StdSource {
                reader,
                takes: no_takes(),
                faults: 0,
            }),
            Err(_) => Err(AllocError),
        }
    }
}

impl<R: rt::Clock + Drop> StdSource<TcpReader<R>> {
    /// Has the reader count anew how long its peer is waited for.
    pub(crate) fn begin(&mut self)
        ensures trail { ⟦<StdSource<TcpReader<R>> as Source>⟧.takes self.new ≡ ⟦<StdSource<TcpReader<R>> as Source>⟧.takes self.old }
        ensures count { ⟦<StdSource<TcpReader<R>> as Source>⟧.faults self.new ≡ ⟦<StdSource<TcpReader<R>> as Source>⟧.faults self.old }
    {
        self.reader.get_mut().begin();
    }
}

impl<R: Read + Drop> Source for StdSource<R> {
    ghost use Rattle.io_base.specs.StdSource.{asked, unread};

    ghost left = { λ _. None };

    ghost takes = { asked };

    ghost faults = { λ s. s.faults };

    /// Also where the reader tells its bytes, none is lost, repeated or changed.
    fn take(&mut self, into: &mut [u8]) -> Result<usize, IoFault>
        ensures taken { Took result into.new None None }
        ensures trail { asked self.new ≡ taken_more (asked self.old) result into.new }
        ensures counted { CountsFault result self.old.faults self.new.faults }
        ensures read { ReadConsumes (unread R.remaining self.old) (unread R.remaining self.new) result into.new }
    {
        for _ in 0..u64::MAX {
            match self.reader.read(into) {
                Ok(n) => {
                    self.takes = one_take(&self.takes, &Ok(n), into);
                    return Ok(n);
                }
                Err(e) if e.kind() == ErrorKind::Interrupted => {}
                Err(_) => break,
            }
        }
        self.faults = self.faults.saturating_add(1);
        self.takes = one_take(&self.takes, &Err(IoFault::Failed), into);
        Err(IoFault::Failed)
    }

    fn begin_message(&mut self) {}

    fn read_faults(&self) -> u64 {
        self.faults
    }
}
