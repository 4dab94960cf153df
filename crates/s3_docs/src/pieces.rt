//! White space, known text and tags. A reader of a piece answers the bytes behind it, or how many bytes are left where
//! no document goes on.

ghost use Rattle.std.specs.Prelude.{◌≡◌, ◌+◌, ◌<◌, ◌≤◌, true, ◌∷◌, length, IfOk, IfErr};
ghost use Rattle.s3_docs.specs.Machine.{State, is_gap, due};
ghost use Rattle.s3_docs.specs.Bytes.{is_blank};
ghost use Rattle.s3_docs.specs.Outcomes.{outcome};
ghost use Rattle.s3_docs.specs.Reads.{Reads, Stops, NoBlank, Opens};

/// Whether a byte is white space: space, tab, CR or LF.
pub fn is_blank(byte: u8) -> bool
    ensures { result ≡ is_blank byte }
{
    byte == b' ' || byte == b'\t' || byte == b'\r' || byte == b'\n'
}

/// The bytes behind the white space at the front.
pub fn skip_blanks(text: &[u8]) -> &[u8]
    ensures shorter { length result.now ≤ length text.now }
    ensures no_blank { NoBlank result.now }
    ensures reads { (gap : State) → is_gap gap ≡ true → Reads gap text.now gap result.now }
{
    let mut rest = text;
    while let [byte, after @ ..] = rest {
        if !is_blank(*byte) {
            return rest;
        }
        rest = after;
    }
    rest
}

/// The bytes behind this text.
pub fn expect<'a>(text: &'a [u8], literal: &[u8]) -> Result<&'a [u8], usize>
    ensures shorter { IfOk result (λ rest. length rest.now ≤ length text.now) }
    ensures reads { IfOk result (λ rest. (next : State) → Reads (due literal.now next) text.now next rest.now) }
    ensures stops { IfErr result (λ left. (next : State) → Stops (due literal.now next) text.now left) }
{
    let mut rest = text;
    for byte in literal {
        match rest {
            [first, after @ ..] if *first == *byte => rest = after,
            _ => return Err(rest.len()),
        }
    }
    Ok(rest)
}

/// The bytes behind white space and a `<`.
pub fn open_tag(text: &[u8]) -> Result<&[u8], usize>
    ensures shorter { IfOk result (λ rest. length rest.now < length text.now) }
    ensures reads { IfOk result (λ rest. (gap next : State) → Opens gap next → Reads gap text.now next rest.now) }
    ensures stops { IfErr result (λ left. (gap next : State) → Opens gap next → Stops gap text.now left) }
{
    let rest = skip_blanks(text);
    match rest {
        [b'<', after @ ..] => Ok(after),
        _ => Err(rest.len()),
    }
}
