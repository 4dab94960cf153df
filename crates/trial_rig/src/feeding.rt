//! How a body is fed.

ghost use Rattle.std.specs.Prelude.{◌≡◌, IfOk, None, true};

use crate::Source;
use call_types::{Cut, Feed};
use std::alloc::Global;
use trial_base::NoAnswer;

impl Source {
    /// The feed of a body of this length, of which no byte was taken. Where fewer bytes come it ends before that length.
    pub fn new(stated: u64, bytes: Vec<u8>) -> Result<Source, NoAnswer>
        ensures stated { IfOk result (λ source. source.stated ≡ stated) }
        ensures given { IfOk result (λ source. source.given ≡ 0) }
    {
        if bytes.len() as u64 > stated {
            return Err(NoAnswer);
        }
        Ok(Source {
            stated,
            given: 0,
            bytes,
        })
    }
}

impl Feed for Source {
    ghost seen = { λ feed. record { stated = feed.stated; given = feed.given; left = None; taken = None; ended = true } };

    ghost faults = { λ _. 0 };

    fn take(&mut self, into: &mut [u8]) -> Result<usize, Cut> {
        let rest = &self.bytes[self.given..];
        let count = into.len().min(rest.len());
        if count == 0 && (self.given as u64) < self.stated && !into.is_empty() {
            return Err(Cut::BodyCut {
                read: self.given as u64,
                stated: self.stated,
            });
        }
        into[..count].copy_from_slice(&rest[..count]);
        self.given += count;
        Ok(count)
    }
}
