//! The text of an entity tag, and whether a value names it.

ghost use Rattle.std.specs.Prelude.{◌≡◌, ◌≤◌, length, take};
ghost use Rattle.header_values.specs.EntityTags.{names_tag, part_count, tag_text};

use crate::blanks::trim;
use crate::members::has_tag;
use itoa::Buffer;

/// The length of the hex digits of an MD5.
const DIGITS: usize = 32;

/// The most bytes of a hyphen and a number of parts.
const COUNT: usize = 6;

/// Whether the value of an `If-Match` names the entity tag of this MD5 and this number of parts.
pub fn names_tag(value: &[u8], md5: &[u8; 16], parts: u16) -> bool
    ensures { result ≡ names_tag value.now (tag_text md5.now parts) }
{
    if trim(value) == b"*".as_slice() {
        return true;
    }
    let mut place = [0; DIGITS + COUNT];
    has_tag(value, write_tag(md5, parts, &mut place))
}

/// The text of an entity tag, written in `place`.
fn write_tag<'a>(md5: &[u8; 16], parts: u16, place: &'a mut [u8; DIGITS + COUNT]) -> &'a [u8]
    ensures { result.now ≡ tag_text md5.now parts }
{
    hex::encode_to_slice(*md5, &mut place[..DIGITS]).unwrap();
    let count = write_count(parts, &mut place[DIGITS..]);
    &place[..DIGITS + count]
}

/// Writes a hyphen and the number of parts, where there are parts. Answers how many bytes it wrote.
fn write_count(parts: u16, place: &mut [u8]) -> usize
    requires { length place.old ≡ COUNT }
    ensures short { result ≤ COUNT }
    ensures kept { length place.new ≡ COUNT }
    ensures written { take result place.new ≡ part_count parts }
{
    if parts == 0 {
        return 0;
    }
    let mut buffer = Buffer::new();
    let digits = buffer.format(parts).as_bytes();
    place[0] = b'-';
    place[1..1 + digits.len()].copy_from_slice(digits);
    1 + digits.len()
}
