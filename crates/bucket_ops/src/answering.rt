//! What a look at a bucket's register answers to a call.

ghost use Rattle.std.specs.Prelude.{◌≡◌, ◌⊎◌, MatchOption, None, Ok, Err, Some};
ghost use Rattle.bucket_book.specs.Content.{IsBucketOf, content_of};
ghost use Rattle.receipts.specs.Looks.{IsOfSection};
ghost use Rattle.op_steps.specs.Notes.{refusal_by};
ghost use Rattle.bucket_ops.specs.Looks.{AfterLook, look_reply};

use crate::state::State;
use bucket_book::read;
use call_types::{Cut, Mode, Refusal, Reply};
use op_steps::section_refusal;
use seal_file::Bytes;
use slot_core::SlotFault;
use std::alloc::Global;

/// The reply that tells a bucket of this mode.
fn reply_of(asks_mode: bool, mode: Mode) -> Reply
    ensures { result ≡ look_reply asks_mode mode }
{
    if asks_mode {
        Reply::Mode(mode)
    } else {
        Reply::Plain
    }
}

/// What a content answers: a bucket, or that there is none.
fn content_answer(alloc: Global, content: &Bytes, asks_mode: bool) -> State
    ensures { AfterLook asks_mode (Ok content.now) result }
{
    match read(alloc, content.as_slice()) {
        Ok(None) => State::Telling(Reply::Refused(Refusal::NoSuchBucket)),
        Ok(Some(there)) => State::Telling(reply_of(asks_mode, there.mode)),
        Err(_) => State::Over(Some(Cut::NoMemory)),
    }
}

/// What a refusal answers.
fn fault_answer(fault: &SlotFault, asks_mode: bool) -> State
    ensures { AfterLook asks_mode (Err fault.now) result }
{
    match section_refusal(fault) {
        Some(why) => State::Telling(Reply::Refused(why)),
        None => State::Over(Some(Cut::NoMemory)),
    }
}

/// What a look answers to a call that asks for the mode of its bucket, or only whether it is there.
pub(crate) fn answer_of(alloc: Global, answer: &Result<Bytes, SlotFault>, asks_mode: bool) -> State
    ensures { AfterLook asks_mode answer.now result }
{
    match answer {
        Ok(content) => content_answer(alloc, content, asks_mode),
        Err(fault) => fault_answer(fault, asks_mode),
    }
}
