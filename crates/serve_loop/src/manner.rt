//! What a head asks of its connection, and what becomes of the connection after the reply.

ghost use Rattle.std.specs.Prelude.{◌≡◌, ◌↔◌, ◌+◌, ◌≤◌, ℕ, IsTrue, Some, false, length};
ghost use Rattle.serve_loop.specs.Exchanges.{
  Ask,
  AsksClose,
  ClosesAt,
  IsManner,
  ListsClose,
  begins_token,
  closes,
  ends_token,
  ends_wire,
  expects_continue,
  head_of,
  is_blank,
  last_number,
  leaves_body,
  stays_fresh,
};
ghost use Rattle.serve_loop.specs.declared.manner.Manner.TheVariants.{Stays};

use call_types::Refusal;
use http_wire::Head;

/// What becomes of the connection after a reply.
#[derive(Clone, Copy)]
pub enum Manner {
    /// The next request may be read.
    Stays,
    /// The client asked to close.
    ClientCloses,
    /// The server closes.
    ServerCloses,
}

impl Manner {
    /// Whether the connection closes.
    pub(crate) fn closes(self) -> bool
        ensures { result ≡ closes self }
    {
        match self {
            Manner::Stays => false,
            Manner::ClientCloses => true,
            Manner::ServerCloses => true,
        }
    }
}

/// What becomes of the connection after the reply to a head. `is_last` tells that no request is served after it, and `leaves` that its
/// body is left unread.
pub(crate) fn manner_of(head: &Head, is_last: bool, leaves: bool) -> Manner
    ensures stays { result ≡ Stays → leaves ≡ false }
    ensures manner { (number : ℕ) (ask : Ask) → IsTrue is_last ↔ (number ≡ last_number) → head_of ask ≡ Some head.now → ends_wire ask ≡ leaves
        → IsManner number ask result }
{
    if is_last || leaves {
        return Manner::ServerCloses;
    }
    if asks_close(head) {
        return Manner::ClientCloses;
    }
    Manner::Stays
}

/// Whether the server closes after this refusal, whose body it doesn't read: none is stated, or it is too long.
pub(crate) fn leaves_body(why: &Refusal) -> bool
    ensures { result ≡ leaves_body why.now }
{
    match why {
        Refusal::NoLength => true,
        Refusal::EntityTooLarge => true,
        _ => false,
    }
}

/// Whether the connection is to close after the reply: HTTP/1.0, or the token `close` in the first `Connection` line.
pub(crate) fn asks_close(head: &Head) -> bool
    ensures { IsTrue result ↔ AsksClose head.now }
{
    if head.minor() == 0 {
        return true;
    }
    match head.value_of(b"connection") {
        Some(value) => lists_close(value),
        None => false,
    }
}

/// Whether `100 Continue` is awaited before the body, which has so many bytes: HTTP/1.1, some bytes, and the first `Expect` line asks for it.
pub(crate) fn expects_continue(head: &Head, size: u64) -> bool
    ensures { result ≡ expects_continue head.now size }
{
    if head.minor() != 1 || size == 0 {
        return false;
    }
    match head.value_of(b"expect") {
        Some(value) => value.eq_ignore_ascii_case(b"100-continue"),
        None => false,
    }
}

/// Whether a list of tokens with commas between has the token `close`.
fn lists_close(value: &[u8]) -> bool
    ensures { IsTrue result ↔ ListsClose value.now }
{
    if value.len() < 5 {
        return false;
    }
    for i in 0..value.len() - 4 {
        if closes_at(value, i) {
            return true;
        }
    }
    false
}

/// Whether the token `close` stands at a place of a list.
fn closes_at(value: &[u8], i: usize) -> bool
    requires { i + 5 ≤ length value.now }
    ensures { IsTrue result ↔ ClosesAt value.now i }
{
    value[i..i + 5].eq_ignore_ascii_case(b"close")
        && begins_token(&value[..i])
        && ends_token(&value[i + 5..])
}

/// Whether a token begins behind this part of a list: only blanks stand behind its last comma.
fn begins_token(before: &[u8]) -> bool
    ensures { result ≡ begins_token before.now }
{
    let mut is_fresh = true;
    for byte in before {
        is_fresh = stays_fresh(is_fresh, *byte);
    }
    is_fresh
}

/// Whether only blanks stand behind the last comma, where a byte follows.
fn stays_fresh(is_fresh: bool, byte: u8) -> bool
    ensures { result ≡ stays_fresh is_fresh byte }
{
    byte == b',' || is_fresh && is_blank(byte)
}

/// Whether a token ends before this part of a list: only blanks stand before its first comma.
fn ends_token(after: &[u8]) -> bool
    ensures { result ≡ ends_token after.now }
{
    for byte in after {
        if !is_blank(*byte) {
            return *byte == b',';
        }
    }
    true
}

/// Whether the byte is a space or a tab.
fn is_blank(byte: u8) -> bool
    ensures { result ≡ is_blank byte }
{
    byte == b' ' || byte == b'\t'
}
