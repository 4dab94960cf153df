//! A document of a stated length.

ghost use Rattle.std.specs.Prelude.{◌≤◌, vec_len};

/// A document of a stated length, of which the first bytes were taken.
#[derive(Drop)]
pub struct Document {
    /// As many bytes as it has, in front those that were taken.
    pub(crate) bytes: Vec<u8>,
    /// How many were taken.
    pub(crate) taken: usize,
    pub ghost within: { taken ≤ vec_len bytes },
}
