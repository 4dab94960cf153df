//! An answer that grows word by word.

use itoa::Buffer;
use std::alloc::Global;
use trial_base::NoAnswer;

/// An answer that grows word by word. Where a word finds no memory the whole is no answer.
#[derive(Drop)]
pub struct Line {
    alloc: Global,
    text: String,
    is_whole: bool,
}

impl Line {
    /// An answer without a word.
    pub fn new(alloc: Global) -> Line {
        Line {
            alloc,
            text: String::new(alloc),
            is_whole: true,
        }
    }

    /// Adds words as they are.
    pub fn say(&mut self, words: &str) {
        if self.text.push_str(words).is_err() {
            self.is_whole = false;
        }
    }

    /// Adds a number.
    pub fn say_number(&mut self, number: u64) {
        let mut digits = Buffer::new();
        self.say(digits.format(number));
    }

    /// Adds bytes in hex digits, `nothing` where there are none.
    pub fn say_bytes(&mut self, bytes: &[u8]) {
        if bytes.is_empty() {
            self.say("nothing");
            return;
        }
        match hex::encode(self.alloc, bytes) {
            Ok(digits) => self.say(digits.as_str()),
            Err(_) => self.is_whole = false,
        }
    }

    /// Adds bytes as text, or in hex digits where they are none.
    pub fn say_text(&mut self, bytes: &[u8]) {
        match str::from_utf8(bytes) {
            Ok(text) => self.say(text),
            Err(_) => self.say_bytes(bytes),
        }
    }

    /// Adds the words of another answer.
    pub fn say_line(&mut self, other: &Line) {
        self.say(other.text.as_str());
        self.is_whole = self.is_whole && other.is_whole;
    }

    /// The whole of it.
    pub fn into_answer(self) -> Result<String, NoAnswer> {
        if self.is_whole {
            Ok(self.text)
        } else {
            Err(NoAnswer)
        }
    }
}
