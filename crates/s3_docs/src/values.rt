//! The values of the fields: numbers of parts, ETags and modes, with the white space in front of them.

ghost use Rattle.std.specs.Prelude.{◌≡◌, ◌+◌, ◌<◌, ◌≤◌, ◌^◌, true, List, ℕ, [], ◌∷◌, ◌++◌, length, take, drop, IfOk, IfErr};
ghost use Rattle.hex.specs.Hex.{is_hex_digit};
ghost use Rattle.s3_docs.specs.Bytes.{is_digit};
ghost use Rattle.s3_docs.specs.Machine.{Holder, Field, PartNumber, ETag, Status, Quotation, Bare, Plain, Named, Numbered, Awaiting, Ending, Inside, Digits, Reference, Hex, with_number, with_md5, with_mode, quote_text, due};
ghost use Rattle.s3_docs.specs.Reads.{Reads, Stops};

use crate::elements::field_end;
use crate::pieces::{expect, skip_blanks};
use call_types::Mode;
use hex::FromHex;

/// The most digits of a part's number.
const MOST_DIGITS: u8 = 5;

/// The highest number of a part.
const MOST_PARTS: u32 = 10_000;

/// The hex digits of an MD5.
const DIGEST_DIGITS: usize = 32;

/// A value, and the bytes behind it.
#[derive(Clone, Copy)]
pub struct Found<'a, T> {
    /// The value.
    pub value: T,
    /// The bytes behind it.
    pub rest: &'a [u8],
}

/// Whether a byte is a decimal digit.
fn is_digit(byte: u8) -> bool
    ensures { result ≡ is_digit byte }
{
    b'0' <= byte && byte <= b'9'
}

/// Whether a byte is a hex digit of either case.
fn is_hex_digit(byte: u8) -> bool
    ensures { result ≡ is_hex_digit byte }
{
    b'0' <= byte && byte <= b'9' || b'A' <= byte && byte <= b'F' || b'a' <= byte && byte <= b'f'
}

/// The number at the front: at most five digits, from 1 to 10,000.
fn digits(text: &[u8]) -> Result<Found<'_, u16>, usize>
    ensures shorter { IfOk result (λ found. length found.rest.now ≤ length text.now) }
    ensures reads { IfOk result (λ found. (holder : Holder)
        → Reads (Digits holder 0 0) text.now (Ending (with_number holder found.value) PartNumber) found.rest.now) }
    ensures stops { IfErr result (λ left. (holder : Holder) → Stops (Digits holder 0 0) text.now left) }
{
    let mut rest = text;
    let mut count = 0u8;
    let mut value = 0u32;
    while let [byte, after @ ..] = rest {
        if !is_digit(*byte) {
            break;
        }
        count += 1;
        value = value * 10 + u32::from(*byte - b'0');
        if count > MOST_DIGITS || value > MOST_PARTS || count == MOST_DIGITS && value == 0 {
            return Err(rest.len());
        }
        rest = after;
    }
    if value == 0 {
        return Err(rest.len());
    }
    Ok(Found {
        value: value as u16,
        rest,
    })
}

/// The number of a part, behind white space.
fn number(text: &[u8]) -> Result<Found<'_, u16>, usize>
    ensures shorter { IfOk result (λ found. length found.rest.now ≤ length text.now) }
    ensures reads { IfOk result (λ found. (holder : Holder)
        → Reads (Awaiting holder PartNumber) text.now (Ending (with_number holder found.value) PartNumber) found.rest.now) }
    ensures stops { IfErr result (λ left. (holder : Holder) → Stops (Awaiting holder PartNumber) text.now left) }
{
    digits(skip_blanks(text))
}

/// The mode of a bucket, behind white space: `Enabled` or `Suspended`.
fn mode_name(text: &[u8]) -> Result<Found<'_, Mode>, usize>
    ensures shorter { IfOk result (λ found. length found.rest.now ≤ length text.now) }
    ensures reads { IfOk result (λ found. (holder : Holder)
        → Reads (Awaiting holder Status) text.now (Ending (with_mode holder found.value) Status) found.rest.now) }
    ensures stops { IfErr result (λ left. (holder : Holder) → Stops (Awaiting holder Status) text.now left) }
{
    let value = skip_blanks(text);
    match value {
        [b'E', after @ ..] => {
            let rest = expect(after, b"nabled")?;
            Ok(Found {
                value: Mode::Enabled,
                rest,
            })
        }
        [b'S', after @ ..] => {
            let rest = expect(after, b"uspended")?;
            Ok(Found {
                value: Mode::Suspended,
                rest,
            })
        }
        _ => Err(value.len()),
    }
}

/// The bytes of the 32 hex digits at the front.
fn digest(text: &[u8]) -> Result<Found<'_, [u8; 16]>, usize>
    ensures shorter { IfOk result (λ found. length found.rest.now ≤ length text.now) }
    ensures reads { IfOk result (λ found. (holder : Holder) (quotation : Quotation)
        → Reads (Hex holder quotation []) text.now
        (due (quote_text quotation) (Ending (with_md5 holder found.value) ETag)) found.rest.now) }
    ensures stops { IfErr result (λ left. (holder : Holder) (quotation : Quotation) → Stops (Hex holder quotation []) text.now left) }
{
    for i in 0..DIGEST_DIGITS {
        if i == text.len() {
            return Err(0);
        }
        if !is_hex_digit(text[i]) {
            return Err(text.len() - i);
        }
    }
    let (digits, rest) = text.split_at(DIGEST_DIGITS);
    match <[u8; 16] as FromHex>::from_hex(digits) {
        Ok(value) => Ok(Found { value, rest }),
        Err(_) => Err(rest.len()),
    }
}

/// The bytes of 32 hex digits, and what closes their quotes.
fn quoted_digest<'a>(text: &'a [u8], quote: &[u8]) -> Result<Found<'a, [u8; 16]>, usize>
    ensures shorter { IfOk result (λ found. length found.rest.now ≤ length text.now) }
    ensures reads { IfOk result (λ found. (holder : Holder) (quotation : Quotation) → quote_text quotation ≡ quote.now
        → Reads (Hex holder quotation []) text.now (Ending (with_md5 holder found.value) ETag) found.rest.now) }
    ensures stops { IfErr result (λ left. (holder : Holder) (quotation : Quotation) → quote_text quotation ≡ quote.now
        → Stops (Hex holder quotation []) text.now left) }
{
    let found = digest(text)?;
    let rest = expect(found.rest, quote)?;
    Ok(Found {
        value: found.value,
        rest,
    })
}

/// The digits of an ETag behind an `&`, quoted by `&quot;` or `&#34;`.
fn referenced(text: &[u8]) -> Result<Found<'_, [u8; 16]>, usize>
    ensures shorter { IfOk result (λ found. length found.rest.now ≤ length text.now) }
    ensures reads { IfOk result (λ found. (holder : Holder)
        → Reads (Reference holder) text.now (Ending (with_md5 holder found.value) ETag) found.rest.now) }
    ensures stops { IfErr result (λ left. (holder : Holder) → Stops (Reference holder) text.now left) }
{
    match text {
        [b'q', after @ ..] => {
            let digits = expect(after, b"uot;")?;
            quoted_digest(digits, b"&quot;")
        }
        [b'#', after @ ..] => {
            let digits = expect(after, b"34;")?;
            quoted_digest(digits, b"&#34;")
        }
        _ => Err(text.len()),
    }
}

/// The MD5 of an ETag, behind white space: 32 hex digits, bare or quoted.
fn tag_digest(text: &[u8]) -> Result<Found<'_, [u8; 16]>, usize>
    ensures shorter { IfOk result (λ found. length found.rest.now ≤ length text.now) }
    ensures reads { IfOk result (λ found. (holder : Holder)
        → Reads (Awaiting holder ETag) text.now (Ending (with_md5 holder found.value) ETag) found.rest.now) }
    ensures stops { IfErr result (λ left. (holder : Holder) → Stops (Awaiting holder ETag) text.now left) }
{
    let value = skip_blanks(text);
    match value {
        [b'"', digits @ ..] => quoted_digest(digits, b"\""),
        [b'&', after @ ..] => referenced(after),
        [byte, ..] if is_hex_digit(*byte) => quoted_digest(value, b""),
        _ => Err(value.len()),
    }
}

/// The value of a PartNumber and its end tag.
pub fn part_number(text: &[u8]) -> Result<Found<'_, u16>, usize>
    ensures shorter { IfOk result (λ found. length found.rest.now ≤ length text.now) }
    ensures reads { IfOk result (λ found. (holder : Holder)
        → Reads (Awaiting holder PartNumber) text.now (Inside (with_number holder found.value)) found.rest.now) }
    ensures stops { IfErr result (λ left. (holder : Holder) → Stops (Awaiting holder PartNumber) text.now left) }
{
    let found = number(text)?;
    let rest = field_end(found.rest, b"PartNumber")?;
    Ok(Found {
        value: found.value,
        rest,
    })
}

/// The value of an ETag and its end tag.
pub fn etag(text: &[u8]) -> Result<Found<'_, [u8; 16]>, usize>
    ensures shorter { IfOk result (λ found. length found.rest.now ≤ length text.now) }
    ensures reads { IfOk result (λ found. (holder : Holder)
        → Reads (Awaiting holder ETag) text.now (Inside (with_md5 holder found.value)) found.rest.now) }
    ensures stops { IfErr result (λ left. (holder : Holder) → Stops (Awaiting holder ETag) text.now left) }
{
    let found = tag_digest(text)?;
    let rest = field_end(found.rest, b"ETag")?;
    Ok(Found {
        value: found.value,
        rest,
    })
}

/// The value of a Status and its end tag.
pub fn mode(text: &[u8]) -> Result<Found<'_, Mode>, usize>
    ensures shorter { IfOk result (λ found. length found.rest.now ≤ length text.now) }
    ensures reads { IfOk result (λ found. (holder : Holder)
        → Reads (Awaiting holder Status) text.now (Inside (with_mode holder found.value)) found.rest.now) }
    ensures stops { IfErr result (λ left. (holder : Holder) → Stops (Awaiting holder Status) text.now left) }
{
    let found = mode_name(text)?;
    let rest = field_end(found.rest, b"Status")?;
    Ok(Found {
        value: found.value,
        rest,
    })
}
