//! Rows over `s3_request`: a request, and the call that is read of its head, or what a client is told of the refusal.

use crate::calls::said_call;
use crate::refusals::said_refusal;
use crate::requests::{LIMIT, head_of};
use desk_base::Call;
use s3_request::{CallFault, name_laws, read_call};
use std::alloc::Global;
use trial_base::{Names, NoAnswer, first, said};

/// What is read of a head, in words.
fn said_read(alloc: Global, read: &Result<Call, CallFault>) -> Result<String, NoAnswer> {
    match read {
        Ok(call) => said_call(alloc, call),
        Err(CallFault::Refused(why)) => said_refusal(alloc, why),
        Err(CallFault::NoMemory) => Err(NoAnswer),
    }
}

/// `REQUEST`
fn call(alloc: Global, names: &Names, request: &str) -> Result<String, NoAnswer> {
    let Some(head) = head_of(alloc, names, request)? else {
        return said(alloc, "no head");
    };
    let read = read_call(alloc, &head, LIMIT);
    let said = said_read(alloc, &read);
    drop(read);
    said
}

pub fn answer(alloc: Global, names: &Names, words: &str) -> Result<String, NoAnswer> {
    let (name, rest) = first(words);
    match name {
        "call" => call(alloc, names, rest),
        "laws" => {
            name_laws();
            said(alloc, "done")
        }
        _ => said(alloc, "no such call"),
    }
}
