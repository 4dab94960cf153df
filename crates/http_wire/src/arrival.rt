//! The arrival of a head.

ghost use Rattle.std.specs.Prelude.{◌≡◌, ◌<◌, length};
ghost use Rattle.http_wire.specs.Answers.{Arrives, Came, TakesPiece};
ghost use Rattle.http_wire.specs.Heads.{most_bytes};
ghost use Rattle.http_wire.specs.Taking.{source_view};

use crate::judging::{Judged, judge_first};
use crate::window::Window;
use httparse::spans::{HeaderSpan, RequestSpans};
use io_base::Source;

/// Why no more was taken from the source.
#[derive(Clone, Copy, PartialEq, Eq)]
pub enum Arrival {
    /// What waits begins with a whole head.
    Whole(RequestSpans),
    /// No head begins with what waits.
    Bad,
    /// What waits reaches a limit before a head is whole.
    Long,
    /// The source has ended.
    Ended,
    /// The source failed.
    Failed,
}

/// Takes piece after piece until what waits decides. A head that comes in single bytes is judged once a byte, and no
/// head more than 65,536 times.
pub fn await_head<S: Source>(
    window: &mut Window,
    headers: &mut [HeaderSpan],
    source: &mut S,
) -> Arrival
    requires { length headers.old ≡ 64 }
    ensures came { Came window.old window.new (source_view S.Source source.old) (source_view S.Source source.new) }
    ensures arrives { Arrives result window.new headers.new (source_view S.Source source.new)
        (S.faults source.old) (S.faults source.new) }
{
    'pieces: loop {
        match judge_first(window.bytes(), headers) {
            Judged::Whole(spans) => return Arrival::Whole(spans),
            Judged::Bad => return Arrival::Bad,
            Judged::Long => return Arrival::Long,
            Judged::Open => {}
        }
        match take_piece(window, source) {
            Piece::Came => {}
            Piece::Ended => return Arrival::Ended,
            Piece::Failed => return Arrival::Failed,
        }
    }
}

/// What one take comes to.
#[derive(Clone, Copy, PartialEq, Eq)]
enum Piece {
    /// Bytes came.
    Came,
    /// The source has ended.
    Ended,
    /// The source failed.
    Failed,
}

/// Takes one piece from the source, behind what waits.
fn take_piece<S: Source>(window: &mut Window, source: &mut S) -> Piece
    requires { length window.old < most_bytes }
    ensures { TakesPiece result window.old window.new (source_view S.Source source.old) (source_view S.Source source.new)
        (S.faults source.old) (S.faults source.new) }
{
    match window.fill(source) {
        Ok(0) => Piece::Ended,
        Ok(_) => Piece::Came,
        Err(_) => Piece::Failed,
    }
}
