//! How far a look is.

use call_types::{Cut, Reply};

/// How far a call is that only looks at a bucket.
#[derive(Drop)]
pub enum State {
    /// The look comes next.
    Looking,
    /// This reply is told next.
    Telling(Reply),
    /// It is over, and was cut for this, if it was.
    Over(Option<Cut>),
}
