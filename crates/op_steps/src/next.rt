//! What comes next.

/// What comes next for a call.
#[derive(Clone, Copy, PartialEq, Eq)]
pub enum OpNext {
    /// A section of the slot of this index.
    Section(u8),
    /// One call of a data drive.
    Data,
    /// The next bytes of the body.
    Feed,
    /// The next telling.
    Tell,
    /// Nothing: the call is done.
    Done,
}
