//! A feed of a body.

ghost use Rattle.std.specs.Prelude.{◌≡◌, ◌≤◌, vec_len};

/// A feed of a body of this length, of which these bytes come.
#[derive(Drop)]
pub struct Source {
    pub(crate) stated: u64,
    pub(crate) given: usize,
    pub(crate) bytes: Vec<u8>,
    pub ghost within: { vec_len bytes ≤ stated },
    pub ghost at_most: { given ≤ vec_len bytes },
}
