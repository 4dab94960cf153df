//! The elements of a holder, a Part or the root of a VersioningConfiguration: their names, and those that are passed
//! over.

ghost use Rattle.std.specs.Prelude.{List, ℕ, ◌≡◌, ◌<◌, ◌≤◌, true, ◌++◌, length, take, drop, IfOk, IfErr};
ghost use Rattle.s3_docs.specs.Bytes.{is_letter, is_name_byte};
ghost use Rattle.s3_docs.specs.Machine.{State, Holder, Inner, Inside, Name, Text, Other, naming, end_tag};
ghost use Rattle.s3_docs.specs.Reads.{Reads, Stops, NoNameByte, BeginsWithLetter, Opens};

use crate::pieces::{expect, open_tag};

/// Whether a byte is a letter of ASCII.
pub fn is_letter(byte: u8) -> bool
    ensures { result ≡ is_letter byte }
{
    b'A' <= byte && byte <= b'Z' || b'a' <= byte && byte <= b'z'
}

/// Whether a byte is a letter or a digit of ASCII.
fn is_name_byte(byte: u8) -> bool
    ensures { result ≡ is_name_byte byte }
{
    is_letter(byte) || b'0' <= byte && byte <= b'9'
}

/// A name at the front, and the bytes behind it.
#[derive(Clone, Copy)]
pub struct Named<'a> {
    /// The name, with a letter at its front.
    pub name: &'a [u8],
    /// The bytes behind it.
    pub rest: &'a [u8],
}

/// How many letters and digits stand at the front.
fn name_length(text: &[u8]) -> usize
    ensures within { result ≤ length text.now }
    ensures reads { (holder : Holder) (name : List ℕ)
        → Reads (Name holder name) text.now (Name holder (name ++ take result text.now)) (drop result text.now) }
    ensures behind { NoNameByte (drop result text.now) }
{
    for (i, byte) in text.iter().enumerate() {
        if !is_name_byte(*byte) {
            return i;
        }
    }
    text.len()
}

/// The name at the front of what stands behind a `<`.
pub fn name_of(text: &[u8]) -> Named<'_>
    requires { BeginsWithLetter text.now }
    ensures shorter { length result.rest.now < length text.now }
    ensures reads { (holder : Holder) → Reads (Inner holder) text.now (Name holder result.name.now) result.rest.now }
    ensures behind { NoNameByte result.rest.now }
{
    let (_, after) = text.split_at(1);
    let length = 1 + name_length(after);
    let (name, rest) = text.split_at(length);
    Named { name, rest }
}

/// The bytes behind a text, and the `<` behind it.
fn text_end(text: &[u8]) -> Result<&[u8], usize>
    ensures shorter { IfOk result (λ rest. length rest.now ≤ length text.now) }
    ensures reads { IfOk result (λ rest. (holder : Holder) (name : List ℕ)
        → Reads (Text holder name) text.now (end_tag name (Inside holder)) rest.now) }
    ensures stops { IfErr result (λ left. (holder : Holder) (name : List ℕ) → Stops (Text holder name) text.now left) }
{
    let mut rest = text;
    while let [byte, after @ ..] = rest {
        if *byte == b'<' {
            return Ok(after);
        }
        rest = after;
    }
    Err(0)
}

/// The bytes behind the `<` of an end tag with this name. Nothing is passed over.
fn end_tag<'a>(text: &'a [u8], name: &[u8]) -> Result<&'a [u8], usize>
    ensures shorter { IfOk result (λ rest. length rest.now ≤ length text.now) }
    ensures reads { IfOk result (λ rest. (next : State) → Reads (end_tag name.now next) text.now next rest.now) }
    ensures stops { IfErr result (λ left. (next : State) → Stops (end_tag name.now next) text.now left) }
{
    let rest = expect(text, b"/")?;
    let rest = expect(rest, name)?;
    expect(rest, b">")
}

/// The bytes behind an element that is passed over, from behind its name in the start tag on.
pub fn other<'a>(named: &Named<'a>) -> Result<&'a [u8], usize>
    requires { NoNameByte named.now.rest.now }
    ensures shorter { IfOk result (λ rest. length rest.now ≤ length named.now.rest.now) }
    ensures reads { IfOk result (λ rest. (holder : Holder) → naming holder named.now.name.now ≡ Other
        → Reads (Name holder named.now.name.now) named.now.rest.now (Inside holder) rest.now) }
    ensures stops { IfErr result (λ left. (holder : Holder) → naming holder named.now.name.now ≡ Other
        → Stops (Name holder named.now.name.now) named.now.rest.now left) }
{
    match named.rest {
        [b'>', text @ ..] => {
            let rest = text_end(text)?;
            end_tag(rest, named.name)
        }
        [b'/', rest @ ..] => expect(rest, b">"),
        _ => Err(named.rest.len()),
    }
}

/// The bytes behind white space and an end tag with this name.
pub fn field_end<'a>(text: &'a [u8], name: &[u8]) -> Result<&'a [u8], usize>
    ensures shorter { IfOk result (λ rest. length rest.now ≤ length text.now) }
    ensures reads { IfOk result (λ rest. (gap next : State) → Opens gap (end_tag name.now next) → Reads gap text.now next rest.now) }
    ensures stops { IfErr result (λ left. (gap next : State) → Opens gap (end_tag name.now next) → Stops gap text.now left) }
{
    let rest = open_tag(text)?;
    end_tag(rest, name)
}

/// The bytes behind white space and the `<` of an element or of the holder's end.
pub fn inner_tag(text: &[u8]) -> Result<&[u8], usize>
    ensures shorter { IfOk result (λ rest. length rest.now < length text.now) }
    ensures reads { IfOk result (λ rest. (holder : Holder) → Reads (Inside holder) text.now (Inner holder) rest.now) }
    ensures stops { IfErr result (λ left. (holder : Holder) → Stops (Inside holder) text.now left) }
{
    open_tag(text)
}
