//! The words of a line: numbers, modes, versions.

ghost use Rattle.std.specs.Prelude.{◌≡◌, ◌↔◌, ◌<◌, ◌^◌, ℕ, MatchOption, Some};
ghost use Rattle.std.specs.Fmt.{decimal};
ghost use Rattle.drill_script.specs.Lines.{mode_word, version_word};
ghost use Rattle.call_types.specs.declared.names.Mode.{Mode as ModeIs};
ghost use Rattle.call_types.specs.declared.names.VersionName.{VersionName as VersionIs};

use call_types::{Mode, VersionName};
use stamp_id::VersionId;

/// The number that a word spells in decimal digits, without a sign and without a zero at its front.
pub fn number_of(word: &str) -> Option<u64>
    ensures { (n : ℕ) → (result ≡ Some n) ↔ ((word.now ≡ decimal n) × (n < 2 ^ 64)) }
{
    let bytes = word.as_bytes();
    if bytes.is_empty() || !bytes[0].is_ascii_digit() {
        return None;
    }
    if bytes[0] == b'0' && bytes.len() > 1 {
        return None;
    }
    match word.parse::<u64>() {
        Ok(number) => Some(number),
        Err(_) => None,
    }
}

/// The number below 256 that a word spells.
pub fn byte_of(word: &str) -> Option<u8>
    ensures { (n : ℕ) → (result ≡ Some n) ↔ ((word.now ≡ decimal n) × (n < 2 ^ 8)) }
{
    let Some(number) = number_of(word) else {
        return None;
    };
    if number > 255 {
        return None;
    }
    Some(number as u8)
}

/// The mode that a word names: `off`, `on` or `suspended`.
pub fn mode_of(word: &str) -> Option<Mode>
    ensures { MatchOption result ((mode : ModeIs) → word.now ≡ mode_word mode → ⊥) (λ mode. word.now ≡ mode_word mode) }
{
    match word {
        "off" => Some(Mode::Never),
        "on" => Some(Mode::Enabled),
        "suspended" => Some(Mode::Suspended),
        _ => None,
    }
}

/// The version that a word names: `null`, or the text of an id.
pub fn version_of(word: &str) -> Option<VersionName>
    ensures { MatchOption result ((id : VersionIs) → word.now ≡ version_word id → ⊥) (λ id. word.now ≡ version_word id) }
{
    if word == "null" {
        return Some(VersionName::Null);
    }
    match VersionId::parse(word) {
        Ok(id) => Some(VersionName::Id(id)),
        Err(_) => None,
    }
}
