//! Sixteen bytes as two numbers of eight bytes each, high byte first.

ghost use Rattle.std.specs.Prelude.{◌≡◌, ◌++◌};
ghost use Rattle.std.specs.Int.{w64, from_be_bytes, to_be_bytes};
ghost use Rattle.stamp_id.specs.Layout.{high_word, low_word};

// The number that eight bytes spell.
fn word(bytes: [u8; 8]) -> u64
    ensures value { result ≡ from_be_bytes w64 bytes }
    ensures spelled { bytes ≡ to_be_bytes w64 result }
{
    u64::from_be_bytes(bytes)
}

/// The two numbers of sixteen bytes.
pub fn from_bytes(bytes: [u8; 16]) -> (u64, u64)
    ensures high { result.0 ≡ high_word bytes }
    ensures low { result.1 ≡ low_word bytes }
    ensures bytes { bytes ≡ to_be_bytes w64 result.0 ++ to_be_bytes w64 result.1 }
{
    let [a, b, c, d, e, f, g, h, i, j, k, l, m, n, o, p] = bytes;
    (
        word([a, b, c, d, e, f, g, h]),
        word([i, j, k, l, m, n, o, p]),
    )
}

/// The sixteen bytes of two numbers.
pub fn to_bytes(high: u64, low: u64) -> [u8; 16]
    ensures { result ≡ to_be_bytes w64 high ++ to_be_bytes w64 low }
{
    let [a, b, c, d, e, f, g, h] = high.to_be_bytes();
    let [i, j, k, l, m, n, o, p] = low.to_be_bytes();
    [a, b, c, d, e, f, g, h, i, j, k, l, m, n, o, p]
}
