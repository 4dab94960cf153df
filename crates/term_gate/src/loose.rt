//! The loose names of format files.

ghost use Rattle.std.specs.Prelude.{◌≡◌, ◌<◌, ◌*◌, IsTrue, length};
ghost use Rattle.std.specs.Str.{is_utf8};
ghost use Rattle.hex.specs.Hex.{encode_lower};
ghost use Rattle.term_gate.specs.Formats.{loose_format_name};

/// A loose name, kept in place: it takes no memory.
#[derive(Drop)]
pub struct LooseName {
    /// The 15 letters.
    letters: [u8; 15],
    ghost text: { IsTrue (is_utf8 letters) },
}

impl LooseName {
    /// The loose name of a format with this term, below 2^48, on the drive of this index: an `f`, the term in 12 hex digits
    /// and the index in two decimal digits.
    pub fn new(term: u64, index: u8) -> LooseName
        requires { index < 100 }
        ensures { result.letters ≡ loose_format_name term index }
    {
        let mut letters = [b'f'; 15];
        write_digits(&term.to_be_bytes()[2..], &mut letters[1..13]);
        letters[13] = b'0' + index / 10;
        letters[14] = b'0' + index % 10;
        LooseName { letters }
    }

    /// Its text.
    pub fn as_str(&self) -> &str
        ensures { result.now ≡ self.now.letters }
    {
        match std::str::from_utf8(&self.letters) {
            Ok(text) => text,
            Err(_) => unreachable!(),
        }
    }
}

/// Writes the hex digits of bytes into a place that has room for just them.
fn write_digits(bytes: &[u8], place: &mut [u8])
    requires { length place.old ≡ 2 * length bytes.now }
    ensures { place.new ≡ encode_lower bytes.now }
{
    let _ = hex::encode_to_slice(bytes, place);
}
