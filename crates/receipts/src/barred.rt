//! Why a section can't be done.

/// Why a section of a slot can't be done, where it hasn't begun.
#[derive(Clone, Copy, PartialEq, Eq)]
pub enum Barred {
    /// The slot's turns are spent.
    Spent,
    /// There is no memory for the receipt of the section.
    NoMemory,
}
