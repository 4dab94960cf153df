//! A reader and writer whose calls go as they are told, and a clock that stands.

use std::io::{self, ErrorKind, Read, Write};
use std::rt;
use std::time::Duration;

/// Gives and takes bytes by its turns, a letter for each call: a digit for so many bytes at most, `i` for a call that is
/// interrupted, `b` for one that is broken. The last turn stands for all calls after it.
#[derive(Drop)]
pub struct Outside {
    pub turns: String,
    pub calls: usize,
    /// What is left to be read, or what was written.
    pub bytes: Vec<u8>,
    /// How many of them were read.
    pub taken: usize,
    pub flushes: u64,
    pub breaks_flushes: bool,
}

impl Outside {
    /// How many bytes the next call moves at most.
    fn turn(&mut self) -> io::Result<usize> {
        let turns = self.turns.as_bytes();
        let turn = turns.get(self.calls).or(turns.last()).copied();
        self.calls = self.calls.saturating_add(1);
        match turn {
            Some(digit) if digit.is_ascii_digit() => Ok(usize::from(digit.saturating_sub(b'0'))),
            Some(b'i') => Err(io::Error::from(ErrorKind::Interrupted)),
            _ => Err(io::Error::from(ErrorKind::BrokenPipe)),
        }
    }
}

impl Read for Outside {
    fn read(&mut self, buf: &mut [u8]) -> io::Result<usize> {
        let most = self.turn()?.min(buf.len());
        let rest = self.bytes.get(self.taken..).unwrap_or(&[]);
        let count = most.min(rest.len());
        buf[..count].copy_from_slice(&rest[..count]);
        self.taken = self.taken.saturating_add(count);
        Ok(count)
    }
}

impl Write for Outside {
    fn write(&mut self, buf: &[u8]) -> io::Result<usize> {
        let count = self.turn()?.min(buf.len());
        self.bytes.extend_from_slice(&buf[..count])?;
        Ok(count)
    }

    fn flush(&mut self) -> io::Result<()> {
        self.flushes = self.flushes.saturating_add(1);
        if self.breaks_flushes {
            return Err(io::Error::from(ErrorKind::BrokenPipe));
        }
        Ok(())
    }
}

/// A runtime whose clock reads so many seconds, or can't be read.
#[derive(Drop)]
pub struct FixedTime(pub Option<u64>);

impl rt::Clock for FixedTime {
    fn monotonic(&self) -> io::Result<Duration> {
        Ok(Duration::from_secs(0))
    }

    fn since_1970(&self) -> io::Result<Duration> {
        match self.0 {
            Some(seconds) => Ok(Duration::from_secs(seconds)),
            None => Err(io::Error::from(ErrorKind::Other)),
        }
    }
}
