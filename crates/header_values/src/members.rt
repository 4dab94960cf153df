//! The members of a list in a header.

ghost use Rattle.std.specs.Prelude.{◌≡◌, ◌++◌, bytes_eq, codes};
ghost use Rattle.std.specs.List.{list_any};
ghost use Rattle.header_values.specs.EntityTags.{is_tag, members_of};

use crate::blanks::trim;

/// Whether a member of the list is the entity tag.
pub(crate) fn has_tag(value: &[u8], tag: &[u8]) -> bool
    ensures { result ≡ list_any (is_tag tag.now) (members_of value.now) }
{
    let mut start = 0;
    let mut quoted = false;
    for (i, byte) in value.iter().enumerate() {
        if *byte == b',' && !quoted {
            if is_tag(&value[start..i], tag) {
                return true;
            }
            start = i + 1;
        } else if *byte == b'"' {
            quoted = !quoted;
        }
    }
    is_tag(&value[start..], tag)
}

/// Whether a member is the entity tag, in double quotes or bare.
fn is_tag(member: &[u8], tag: &[u8]) -> bool
    ensures { result ≡ is_tag tag.now member.now }
{
    let text = trim(member);
    text == tag || is_quoted(text, tag)
}

/// Whether a text is the entity tag in double quotes.
fn is_quoted(text: &[u8], tag: &[u8]) -> bool
    ensures { result ≡ bytes_eq text.now (codes "\"" ++ tag.now ++ codes "\"") }
{
    match text.strip_prefix(b"\"".as_slice()) {
        Some(rest) => match rest.strip_suffix(b"\"".as_slice()) {
            Some(inner) => inner == tag,
            None => false,
        },
        None => false,
    }
}
