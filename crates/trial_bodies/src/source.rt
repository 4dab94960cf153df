//! The feed of a body whose bytes repeat.

ghost use Rattle.std.specs.Prelude.{◌≡◌, ◌≤◌, None, true};

use call_types::{Cut, Feed};

/// A feed that has so many bytes of a body, and then ends or breaks.
#[derive(Drop)]
pub struct Source {
    /// The bytes that repeat.
    bytes: Vec<u8>,
    /// How many bytes come.
    come: u64,
    /// How many are stated.
    stated: u64,
    given: u64,
    /// Whether the source fails behind the bytes that come.
    breaks: bool,
    faults: u64,
    pub ghost at_most: { given ≤ stated },
}

impl Source {
    /// A feed of the first `come` bytes of a body, of which these repeat.
    pub fn new(bytes: Vec<u8>, come: u64, stated: u64, breaks: bool) -> Source
        ensures stated { (⟦<Source as Feed>⟧.seen result).stated ≡ stated }
        ensures given { (⟦<Source as Feed>⟧.seen result).given ≡ 0 }
    {
        Source {
            bytes,
            come,
            stated,
            given: 0,
            breaks,
            faults: 0,
        }
    }
}

impl Feed for Source {
    ghost seen = { λ feed. record { stated = feed.stated; given = feed.given; left = None; taken = None; ended = true } };

    ghost faults = { λ feed. feed.faults };

    fn take(&mut self, into: &mut [u8]) -> Result<usize, Cut> {
        let wanted = (into.len() as u64).min(self.stated - self.given) as usize;
        if wanted == 0 {
            return Ok(0);
        }
        let there = self.come.saturating_sub(self.given);
        let long = self.bytes.len();
        let at = self.given.checked_rem(long as u64).unwrap_or(0) as usize;
        if there == 0 || at >= long {
            if self.breaks {
                self.faults = self.faults.saturating_add(1);
                return Err(Cut::ReadFault);
            }
            return Err(Cut::BodyCut {
                read: self.given,
                stated: self.stated,
            });
        }
        let count = (wanted as u64).min(there).min((long - at) as u64) as usize;
        into[..count].copy_from_slice(&self.bytes.as_slice()[at..at + count]);
        self.given += count as u64;
        Ok(count)
    }
}
