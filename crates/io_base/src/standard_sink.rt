//! A sink over a writer of the outside.

ghost use Rattle.std.specs.Prelude.{◌≡◌, [], Some, MatchBool};
ghost use Rattle.std.specs.Io.KnownBytes.{Appends};
ghost use Rattle.io_base.specs.Count.{CountsFault};
ghost use Rattle.io_base.specs.Sink.{Gave};
ghost use Rattle.io_base.specs.Trail.{accepted, given_more};
ghost use Rattle.io_base.specs.Wrote.{Wrote, WroteFront};

use crate::trail::{Gives, no_gives, one_give};
use crate::{IoFault, Sink};
use ghost_note::Note;
use std::io::{ErrorKind, Write};

/// A sink over a writer of the outside, as standard output. It tells the bytes of the gives that the writer took. Each `give`
/// is written and flushed before it answers.
#[derive(Drop)]
pub struct StdSink<W> {
    writer: W,
    gives: Note<Gives>,
    faults: u64,
}

impl<W: Write + Drop> StdSink<W> {
    ghost use Rattle.io_base.specs.StdSink.{written};

    /// Writes nothing yet.
    pub fn new(writer: W) -> StdSink<W>
        ensures writer { written W.contents result ≡ W.contents writer }
        ensures trail { ⟦<StdSink<W> as Sink>⟧.gives result ≡ [] }
        ensures count { ⟦<StdSink<W> as Sink>⟧.faults result ≡ 0 }
    {
        StdSink {
            writer,
            gives: no_gives(),
            faults: 0,
        }
    }
}

impl<W: Write + Drop> Sink for StdSink<W> {
    ghost use Rattle.io_base.specs.StdSink.{asked, written};

    ghost given = { λ s. Some (accepted (asked s)) };

    ghost gives = { asked };

    ghost faults = { λ s. s.faults };

    /// Where the writer tells its bytes, it has got these in their order.
    fn give(&mut self, bytes: &[u8]) -> Result<(), IoFault>
        ensures given { Gave result bytes.now (Some (accepted (asked self.old))) (Some (accepted (asked self.new))) }
        ensures trail { asked self.new ≡ given_more (asked self.old) bytes.now result }
        ensures counted { CountsFault result self.old.faults self.new.faults }
        ensures wrote { Wrote result bytes.now (written W.contents self.old) (written W.contents self.new) }
    {
        let answer = if deliver(&mut self.writer, bytes) {
            Ok(())
        } else {
            self.faults = self.faults.saturating_add(1);
            Err(IoFault::Failed)
        };
        self.gives = one_give(&self.gives, bytes, &answer);
        answer
    }

    fn write_faults(&self) -> u64 {
        self.faults
    }
}

/// Writes all the bytes and flushes them, and answers whether it could. A writer that takes nothing
/// of a piece has failed, and one that was interrupted is asked again.
fn deliver<W: Write>(writer: &mut W, bytes: &[u8]) -> bool
    ensures { MatchBool result
        (Appends (W.contents writer.old) (W.contents writer.new) bytes.now)
        (WroteFront bytes.now (W.contents writer.old) (W.contents writer.new)) }
{
    let mut done = 0;
    for _ in 0..u64::MAX {
        if done == bytes.len() {
            return writer.flush().is_ok();
        }
        match writer.write(&bytes[done..]) {
            Ok(0) => return false,
            Ok(n) => done += n,
            Err(e) if e.kind() == ErrorKind::Interrupted => {}
            Err(_) => return false,
        }
    }
    false
}
