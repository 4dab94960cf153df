//! Bytes and texts that a record owns.

ghost use Rattle.std.specs.Prelude.{◌≡◌, ◌↔◌, ℕ, List, [], length, nat_eq, refl, Some, IsTrue, IfOk};
ghost use Rattle.std.specs.Ordering.{nat_cmp};
ghost use Rattle.std.specs.Cmp.{partial_equiv_from_equiv};
ghost use Rattle.std.specs.Cmp.Lexicographic.{pointwise, slice_cmp, nat_list_eq_equiv, nat_list_cmp_total, texts_ties, texts_po};

use fault_base::NoMemory;
use std::alloc::{AllocError, Global};
use std::cmp::Ordering;
use std::marker::Model;

/// Bytes, such as the content of a register. They are ordered byte by byte. A contract sees the list of
/// them.
#[derive(Drop)]
pub struct Bytes(Vec<u8>);

/// A text, such as a key or a content type: its bytes, which need not be UTF-8.
pub type Text = Bytes;

impl Model for Bytes {
    ghost Value = { List ℕ };

    ghost view = { λ a. a.0.items };
}

impl Bytes {
    /// The value of no bytes. It takes no memory.
    pub fn empty(alloc: Global) -> Bytes
        ensures { result ≡ [] }
    {
        Bytes(Vec::new(alloc))
    }

    /// The value of these bytes. It takes no memory.
    pub fn from_vec(bytes: Vec<u8>) -> Bytes
        ensures { result ≡ bytes.items }
    {
        Bytes(bytes)
    }

    /// The value of a copy of these bytes. The only error is want of memory.
    pub fn from_slice(alloc: Global, bytes: &[u8]) -> Result<Bytes, NoMemory>
        ensures { IfOk result (λ copy. copy ≡ bytes.now) }
    {
        Ok(Bytes(Vec::from_slice(alloc, bytes)?))
    }

    /// The bytes, with their memory.
    pub fn into_vec(self) -> Vec<u8>
        ensures { result.items ≡ self }
    {
        self.0
    }

    /// The bytes.
    pub fn as_slice(&self) -> &[u8]
        ensures { result.now ≡ self.now }
    {
        self.0.as_slice()
    }

    /// How many bytes there are.
    pub fn len(&self) -> usize
        ensures { result ≡ length self.now }
    {
        self.0.len()
    }

    /// Whether there are none.
    pub fn is_empty(&self) -> bool
        ensures { IsTrue result ↔ (self.now ≡ []) }
    {
        self.0.is_empty()
    }
}

impl Clone for Bytes {
    ghost is_clone = { λ original copy. copy ≡ original };

    fn clone(&self) -> Result<Bytes, AllocError> {
        Ok(Bytes(self.0.clone()?))
    }
}

impl PartialEq for Bytes {
    ghost eq = { pointwise nat_eq };

    ghost laws = { partial_equiv_from_equiv nat_list_eq_equiv };

    fn eq(&self, other: &Self) -> bool {
        self.as_slice() == other.as_slice()
    }
}

impl Eq for Bytes {
    ghost laws = { nat_list_eq_equiv };
}

impl PartialOrd for Bytes {
    ghost partial_cmp = { λ x y. Some (slice_cmp nat_cmp x y) };

    ghost laws = { texts_po };

    fn partial_cmp(&self, other: &Self) -> Option<Ordering> {
        Some(self.cmp(other))
    }
}

impl Ord for Bytes {
    ghost cmp = { slice_cmp nat_cmp };

    ghost total = { nat_list_cmp_total };

    ghost matches_partial_cmp = { λ x y. refl };

    ghost matches_eq = { texts_ties };

    fn cmp(&self, other: &Self) -> Ordering {
        self.as_slice().cmp(other.as_slice())
    }
}
