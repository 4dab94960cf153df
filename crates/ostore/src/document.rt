//! The document of the command `status`.

ghost use Rattle.std.specs.Prelude.{◌≡◌, ◌++◌, IfOk, OnOk, decimal};
ghost use Rattle.std.specs.String.{string_bytes};
ghost use Rattle.uuid.specs.Text.{hyphenated_text, lower};
ghost use Rattle.ostore.specs.Document.{behind_comma, document_text, seen_word, seen_words};

use drive_base::SetPlan;
use itoa::Buffer;
use std::alloc::{AllocError, Global};
use term_gate::{Seen, Survey};
use uuid::Uuid;

/// What a survey found, as a compact JSON object and LF. Want of memory is the only error.
pub fn document(alloc: Global, set: &SetPlan, survey: &Survey) -> Result<String, AllocError>
    ensures { IfOk result (λ text. string_bytes text ≡ document_text set.now survey.now.formats survey.now.term) }
{
    let mut text = String::from_str(alloc, "{\"drives\":")?;
    push_number(&mut text, u64::from(set.drives))?;
    text.push_str(",\"formats\":[")?;
    push_formats(&mut text, survey.formats.as_slice())?;
    text.push_str("],\"parity\":")?;
    push_number(&mut text, u64::from(set.parity))?;
    text.push_str(",\"set\":\"")?;
    push_id(&mut text, set.id)?;
    text.push_str("\",\"term\":")?;
    push_number(&mut text, survey.term)?;
    text.push_str("}\n")?;
    Ok(text)
}

/// Adds a number in decimal digits.
fn push_number(text: &mut String, number: u64) -> Result<(), AllocError>
    ensures { OnOk result (string_bytes text.new ≡ string_bytes text.old ++ decimal number) }
{
    let mut digits = Buffer::new();
    text.push_str(digits.format(number))
}

/// Adds the text of a UUID.
fn push_id(text: &mut String, id: [u8; 16]) -> Result<(), AllocError>
    ensures { OnOk result (string_bytes text.new ≡ string_bytes text.old ++ hyphenated_text lower id) }
{
    let mut buffer = Uuid::encode_buffer();
    let uuid = Uuid::from_bytes(id);
    text.push_str(uuid.hyphenated().encode_lower(&mut buffer))
}

/// Adds what was found on each drive, with commas between.
fn push_formats(text: &mut String, formats: &[Seen]) -> Result<(), AllocError>
    ensures { OnOk result (string_bytes text.new ≡ string_bytes text.old ++ seen_words formats.now) }
{
    for index in 0..formats.len() {
        push_format(text, index, formats[index])?;
    }
    Ok(())
}

/// Adds what was found on the drive of this index, behind a comma unless it is the first.
fn push_format(text: &mut String, index: usize, seen: Seen) -> Result<(), AllocError>
    ensures { OnOk result (string_bytes text.new ≡ string_bytes text.old ++ behind_comma index (seen_word seen)) }
{
    if index == 0 {
        return text.push_str(word_of(seen));
    }
    text.push_str(",")?;
    text.push_str(word_of(seen))
}

/// The word for what was found on a drive, in its quotes.
fn word_of(seen: Seen) -> &'static str
    ensures { result.now ≡ seen_word seen }
{
    match seen {
        Seen::Good => "\"good\"",
        Seen::Absent => "\"absent\"",
        Seen::Damaged => "\"damaged\"",
        Seen::Failed => "\"failed\"",
        Seen::Other => "\"other\"",
    }
}
