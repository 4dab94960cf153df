//! Bytes that rows are asked over, and answers that are bytes.

use sha2::{Digest, Sha256};
use std::alloc::Global;
use trial_base::{NoAnswer, number, said_bytes};

/// The widest block that a row asks over.
pub const WIDEST: usize = 1000;

/// The byte that a word spells as a number.
pub fn byte(word: &str) -> u8 {
    number(word).min(0xff) as u8
}

/// The SHA-256 of bytes.
pub fn digest(alloc: Global, bytes: &[u8]) -> Result<String, NoAnswer> {
    said_bytes(alloc, "", Sha256::digest(bytes).as_slice())
}

/// Adds a run to a text.
fn push_run(alloc: Global, text: &mut String, byte: u8, times: u64) -> Result<(), NoAnswer> {
    if times == 0 {
        return Ok(());
    }
    let run = format!(in alloc; " {byte}*{times}")?;
    Ok(text.push_str(run.as_str())?)
}

/// Bytes as runs, `BYTE*TIMES` each.
pub fn runs(alloc: Global, bytes: &[u8]) -> Result<String, NoAnswer> {
    let mut text = String::from_str(alloc, "runs")?;
    let mut last = 0;
    let mut times = 0;
    for byte in bytes {
        if *byte != last {
            push_run(alloc, &mut text, last, times)?;
            times = 0;
        }
        last = *byte;
        times = times.saturating_add(1);
    }
    push_run(alloc, &mut text, last, times)?;
    Ok(text)
}

/// Bytes that differ from place to place: the high byte of each state of a linear congruential generator.
pub fn some_bytes() -> [u8; 8000] {
    let mut bytes = [0; 8000];
    let mut state = 1u32;
    for place in 0..8000usize {
        state = state.wrapping_mul(1_664_525).wrapping_add(1_013_904_223);
        bytes[place] = (state >> 24) as u8;
    }
    bytes
}
