//! Bytes and texts that are no id.

use std::error::Error;
use std::fmt;

/// The bytes, or the text, are those of no version id.
#[derive(Clone, Copy, Debug, PartialEq, Eq)]
pub struct NotAnId;

impl fmt::Display for NotAnId {
    fn fmt<W: fmt::Write>(&self, f: &mut fmt::Formatter<W>) -> fmt::Result {
        write!(f, "not a version id")
    }
}

impl Error for NotAnId {}
