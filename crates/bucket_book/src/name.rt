//! The names of buckets.

ghost use Rattle.std.specs.Prelude.{◌≡◌, ◌≤◌, ◌↔◌, ◌-◌, ℕ, List, IsTrue, MatchOption, position, length, slice_index};
ghost use Rattle.std.specs.List.{All, position_or_len};
ghost use Rattle.bucket_book.specs.Name.{is_dot, IsDotAt, IsLetterOrDigit, IsNameByte, HasTwoDots, IsGroup, BeginsWithGroup, IsAddress, IsBucketName};

/// Whether a text is the name of a bucket (Amazon S3, general purpose bucket naming rules): 3 to 63 letters `a` to `z`,
/// digits, dots and hyphens, of which the first and the last are letters or digits, without two dots side by side, and no
/// address of IPv4, which is four groups of one to three digits with dots between.
pub fn check_name(name: &str) -> bool
    ensures { IsTrue result ↔ IsBucketName name.now }
{
    let bytes = name.as_bytes();
    if bytes.len() < 3 || bytes.len() > 63 {
        return false;
    }
    if !are_name_bytes(bytes) {
        return false;
    }
    if !has_ends(bytes) {
        return false;
    }
    if has_two_dots(bytes) {
        return false;
    }
    !is_address(bytes)
}

fn is_letter_or_digit(byte: u8) -> bool
    ensures { IsTrue result ↔ IsLetterOrDigit byte }
{
    matches!(byte, b'a'..=b'z' | b'0'..=b'9')
}

fn is_name_byte(byte: u8) -> bool
    ensures { IsTrue result ↔ IsNameByte byte }
{
    is_letter_or_digit(byte) || byte == b'.' || byte == b'-'
}

fn are_name_bytes(name: &[u8]) -> bool
    ensures { IsTrue result ↔ All IsNameByte name.now }
{
    name.iter().all(|byte| is_name_byte(*byte))
}

/// Whether the first and the last byte are letters or digits.
fn has_ends(name: &[u8]) -> bool
    requires { 1 ≤ length name.now }
    ensures { IsTrue result ↔ (IsLetterOrDigit (slice_index name.now 0) × IsLetterOrDigit (slice_index name.now (length name.now - 1))) }
{
    is_letter_or_digit(name[0]) && is_letter_or_digit(name[name.len() - 1])
}

fn has_two_dots(name: &[u8]) -> bool
    ensures { IsTrue result ↔ HasTwoDots name.now }
{
    for at in 1..name.len() {
        if name[at - 1] == b'.' && name[at] == b'.' {
            return true;
        }
    }
    false
}

fn is_digit(byte: u8) -> bool
    ensures { IsTrue result ↔ ((48 ≤ byte) × (byte ≤ 57)) }
{
    matches!(byte, b'0'..=b'9')
}

/// Whether these are one to three digits.
fn is_group(text: &[u8]) -> bool
    ensures { IsTrue result ↔ IsGroup text.now }
{
    !text.is_empty() && text.len() <= 3 && text.iter().all(|byte| is_digit(*byte))
}

/// The place of the first dot.
fn first_dot(text: &[u8]) -> Option<usize>
    ensures { result ≡ position is_dot text.now }
{
    text.iter().position(|byte| *byte == b'.')
}

/// The same, with what is known of it.
fn dot_place(text: &[u8]) -> Option<usize>
    ensures { MatchOption result (length text.now ≤ position_or_len is_dot text.now) (IsDotAt text.now) }
{
    first_dot(text)
}

/// The bytes behind the group and the dot with which a text begins, if it does.
fn behind_group(text: &[u8]) -> Option<&[u8]>
    ensures begins { MatchOption result ((rest : List ℕ) → BeginsWithGroup text.now rest → ⊥) (λ rest. BeginsWithGroup text.now rest.now) }
    ensures alone { MatchOption result (Unit {0}) (λ rest. (other : List ℕ) → BeginsWithGroup text.now other → other ≡ rest.now) }
{
    let Some(at) = dot_place(text) else {
        return None;
    };
    let (group, _) = text.split_at(at);
    if !is_group(group) {
        return None;
    }
    let (_, rest) = text.split_at(at + 1);
    Some(rest)
}

fn is_address(name: &[u8]) -> bool
    ensures { IsTrue result ↔ IsAddress name.now }
{
    let Some(second) = behind_group(name) else {
        return false;
    };
    let Some(third) = behind_group(second) else {
        return false;
    };
    let Some(fourth) = behind_group(third) else {
        return false;
    };
    is_group(fourth)
}
