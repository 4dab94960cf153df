//! Requests in words, and the calls that are read of them.
//!
//! A request is its line without the version, and behind each ` ; ` a header line; `-` is none.

use crate::texts::text;
use desk_base::Call;
use http_wire::{Head, Wire};
use io_base::MemSource;
use s3_request::{CallFault, read_call};
use std::alloc::Global;
use trial_base::{Names, NoAnswer};

/// The most bytes of a body in these rows.
pub const LIMIT: u64 = 100;

/// The bytes of the head that a request is.
fn head_bytes(alloc: Global, names: &Names, request: &str) -> Result<Vec<u8>, NoAnswer> {
    let mut out = Vec::new(alloc);
    for (at, line) in request.split(" ; ").enumerate() {
        let line = text(alloc, names, line)?;
        out.extend_from_slice(line.as_slice())?;
        let end = if at == 0 { " HTTP/1.1\r\n" } else { "\r\n" };
        out.extend_from_slice(end.as_bytes())?;
    }
    out.extend_from_slice(b"\r\n")?;
    Ok(out)
}

/// The head of a request, which has to be one.
pub fn head_of(alloc: Global, names: &Names, request: &str) -> Result<Option<Head>, NoAnswer> {
    if request == "-" {
        return Ok(None);
    }
    let bytes = head_bytes(alloc, names, request)?;
    let Ok(mut wire) = Wire::new(alloc, MemSource::new(bytes, Vec::new(alloc))) else {
        return Err(NoAnswer);
    };
    if wire.body_left() > 0 {
        return Err(NoAnswer);
    }
    match wire.next_head(alloc) {
        Ok(Some(head)) => Ok(Some(head)),
        _ => Err(NoAnswer),
    }
}

/// The call of a head, none where it is refused.
pub fn call_of(alloc: Global, head: Option<&Head>) -> Result<Option<Call>, NoAnswer> {
    let Some(head) = head else {
        return Ok(None);
    };
    match read_call(alloc, head, LIMIT) {
        Ok(call) => Ok(Some(call)),
        Err(CallFault::Refused(_)) => Ok(None),
        Err(CallFault::NoMemory) => Err(NoAnswer),
    }
}
