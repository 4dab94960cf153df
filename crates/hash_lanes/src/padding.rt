//! The padding of FIPS 180-4, 5.1.1.

ghost use Rattle.std.specs.Prelude.{◌≡◌, ◌≤◌, length, take};
ghost use Rattle.hash_lanes.specs.Padding.{end_length, end_of};

/// How many bytes the chunks after the last whole one of a message of `length` bytes have: 64 where the
/// rest of the message leaves room for the padding's 9 bytes or more, and 128 where it doesn't.
pub(crate) fn end_length(length: usize) -> usize
    ensures value { result ≡ end_length length }
    ensures within { result ≤ 128 }
{
    (length % 64 + 72) / 64 * 64
}

/// The chunks after the last whole one of a message: the rest of it, a bit 1, zeros, and its length in
/// bits. The end has `end_length` bytes, and zeros follow.
pub(crate) fn end_of(message: &[u8]) -> [u8; 128]
    ensures { take (end_length (length message.now)) result ≡ end_of message.now }
{
    let rest = &message[message.len() / 64 * 64..];
    let end = end_length(message.len());
    let bits = (message.len() as u64).wrapping_mul(8);
    let mut chunks = [0u8; 128];
    chunks[..rest.len()].copy_from_slice(rest);
    chunks[rest.len()] = 0x80;
    chunks[end - 8..end].copy_from_slice(&bits.to_be_bytes());
    chunks
}
