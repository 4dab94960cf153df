//! The exit statuses.

ghost use Rattle.std.specs.Prelude.{◌≡◌};
ghost use Rattle.std.specs.Option.{option_copied};
ghost use Rattle.ostore.specs.Statuses.{cause_words, refusal_status, status_of};

use serve_loop::ConnectionEnd;
use term_gate::OpenRefusal;

/// All was done.
pub const DONE: u8 = 0;

/// The words are not a command.
pub const USAGE: u8 = 2;

/// The store could not be opened.
pub const NOT_OPENED: u8 = 3;

/// The source failed.
pub const READ_FAULT: u8 = 4;

/// The sink failed.
pub const WRITE_FAULT: u8 = 5;

/// There was not enough memory.
pub const OUT_OF_MEMORY: u8 = 6;

/// The source ended inside a head or a body.
pub const INPUT_CUT: u8 = 8;

/// The server closed.
pub const CLOSED: u8 = 9;

/// A reply's body was cut after its head.
pub const REPLY_CUT: u8 = 10;

/// The exit status for each way in which a connection ends.
pub fn status_of(end: &ConnectionEnd) -> u8
    ensures { result ≡ status_of end.now }
{
    match end {
        ConnectionEnd::Over => DONE,
        ConnectionEnd::Closed => CLOSED,
        ConnectionEnd::InputCut => INPUT_CUT,
        ConnectionEnd::ReadFault => READ_FAULT,
        ConnectionEnd::WriteFault => WRITE_FAULT,
        ConnectionEnd::ReplyCut(_) => REPLY_CUT,
        ConnectionEnd::NoMemory => OUT_OF_MEMORY,
    }
}

/// The exit status where a store was not opened.
pub fn status_of_refusal(why: &OpenRefusal) -> u8
    ensures { result ≡ refusal_status why.now }
{
    match why {
        OpenRefusal::NoMemory => OUT_OF_MEMORY,
        _ => NOT_OPENED,
    }
}

/// What an exit status says on standard error; 0 says nothing.
pub fn cause_of(status: u8) -> Option<&'static str>
    ensures { option_copied result ≡ cause_words status }
{
    match status {
        USAGE => Some("usage"),
        NOT_OPENED => Some("opening refused"),
        READ_FAULT => Some("read fault"),
        WRITE_FAULT => Some("write fault"),
        OUT_OF_MEMORY => Some("out of memory"),
        INPUT_CUT => Some("input cut"),
        CLOSED => Some("closed"),
        REPLY_CUT => Some("reply cut"),
        _ => None,
    }
}
