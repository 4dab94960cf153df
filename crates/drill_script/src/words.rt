//! The words of a line.

ghost use Rattle.std.specs.Prelude.{◌≡◌, ◌↔◌, IfOk, IsTrue, All};
ghost use Rattle.drill_script.specs.Lines.{IsWord, IsWordByte, pieces, texts_of};

use std::alloc::{AllocError, Global};

/// The pieces of a text between its spaces.
pub fn pieces_of<'a>(alloc: Global, text: &'a str) -> Result<Vec<&'a str>, AllocError>
    ensures { IfOk result (λ words. texts_of words.items ≡ pieces text.entry.now) }
{
    text.split(' ').collect(alloc)
}

/// Whether a byte is an ASCII letter, a digit, `.`, `-`, `_` or `/`.
fn is_word_byte(byte: u8) -> bool
    ensures { IsTrue result ↔ IsWordByte byte }
{
    matches!(byte, b'a'..=b'z' | b'A'..=b'Z' | b'0'..=b'9' | b'.' | b'-' | b'_' | b'/')
}

/// Whether a text is a word: one such byte or more.
fn is_word(text: &str) -> bool
    ensures { IsTrue result ↔ IsWord text.now }
{
    if text.is_empty() {
        return false;
    }
    for byte in text.as_bytes() {
        if !is_word_byte(*byte) {
            return false;
        }
    }
    true
}

/// Whether texts are words.
pub fn are_words(texts: &[&str]) -> bool
    ensures { IsTrue result ↔ All IsWord (texts_of texts.now) }
{
    for text in texts {
        if !is_word(text) {
            return false;
        }
    }
    true
}
