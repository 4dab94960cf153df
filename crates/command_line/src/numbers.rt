//! The numbers of a command line.

ghost use Rattle.std.specs.Prelude.{◌≡◌, ◌↔◌, ◌<◌, ◌^◌, ℕ, option_map};
ghost use Rattle.command_line.specs.Words.{IsNumber};
ghost use Rattle.command_line.specs.Values.{IsNumberOr};

/// The most digits of a number.
const MOST_DIGITS: usize = 20;

/// The number that a text has in 1 to 20 decimal digits. What doesn't fit in a `u64` is none.
pub fn number_of(text: &str) -> Option<u64>
    ensures { (n : ℕ) → (result ≡ Some n) ↔ (IsNumber text.now n × (n < 2 ^ 64)) }
{
    if text.is_empty() || text.len() > MOST_DIGITS {
        return None;
    }
    let mut number: u64 = 0;
    for byte in text.as_bytes() {
        if !byte.is_ascii_digit() {
            return None;
        }
        let digit = u64::from(*byte - b'0');
        let Some(tens) = number.checked_mul(10) else {
            return None;
        };
        let Some(sum) = tens.checked_add(digit) else {
            return None;
        };
        number = sum;
    }
    Some(number)
}

/// The number that a text has, where it is from `least` to `most`; `usual` where there is no text.
pub fn number_between(text: Option<&str>, least: u8, most: u8, usual: u8) -> Option<u8>
    ensures { (n : ℕ) → (result ≡ Some n) ↔ IsNumberOr least most usual (option_map (λ t. t.now) text.entry) n }
{
    let Some(text) = text else {
        return Some(usual);
    };
    let Some(number) = number_of(text) else {
        return None;
    };
    if number < u64::from(least) || u64::from(most) < number {
        return None;
    }
    Some(number as u8)
}
