//! Rows over `slot_history`: names of registers, and their slots.

use crate::data_rows::id_of;
use slot_history::{SLOTS, bucket_name, bucket_slot, key_name, key_slot, part_name};
use std::alloc::Global;
use trial_base::{NoAnswer, first, said, said_number, word};
use trial_rig::{key_of, text_of};

/// `part_name BUCKET/KEY UPLOAD NUMBER`
fn part(alloc: Global, words: &str) -> Result<String, NoAnswer> {
    let upload = id_of(word(words, 2))?;
    let Ok(number) = word(words, 3).parse::<u16>() else {
        return Err(NoAnswer);
    };
    let at = key_of(alloc, word(words, 1))?;
    Ok(part_name(alloc, &at, upload, number)?)
}

/// `bucket_slot BUCKET`
fn slot_of_bucket(alloc: Global, words: &str) -> Result<String, NoAnswer> {
    let bucket = text_of(alloc, word(words, 1))?;
    said_number(alloc, "", u64::from(bucket_slot(&bucket)))
}

/// `key_slot BUCKET/KEY`
fn slot_of_key(alloc: Global, words: &str) -> Result<String, NoAnswer> {
    let at = key_of(alloc, word(words, 1))?;
    said_number(alloc, "", u64::from(key_slot(&at)))
}

/// `bucket_name BUCKET`
fn name_of_bucket(alloc: Global, words: &str) -> Result<String, NoAnswer> {
    let bucket = text_of(alloc, word(words, 1))?;
    Ok(bucket_name(alloc, &bucket)?)
}

/// `key_name BUCKET/KEY`
fn name_of_key(alloc: Global, words: &str) -> Result<String, NoAnswer> {
    let at = key_of(alloc, word(words, 1))?;
    Ok(key_name(alloc, &at)?)
}

/// What a row over `slot_history` is answered.
pub fn answer(alloc: Global, words: &str) -> Result<String, NoAnswer> {
    let (call, _) = first(words);
    match call {
        "slots" => said_number(alloc, "", u64::from(SLOTS)),
        "bucket_slot" => slot_of_bucket(alloc, words),
        "key_slot" => slot_of_key(alloc, words),
        "bucket_name" => name_of_bucket(alloc, words),
        "key_name" => name_of_key(alloc, words),
        "part_name" => part(alloc, words),
        _ => said(alloc, "no such call"),
    }
}
