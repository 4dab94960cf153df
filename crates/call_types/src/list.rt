//! Lists that a contract sees as lists of their items.

ghost use Rattle.std.specs.Prelude.{◌≡◌, ◌==◌, [], length};
ghost use Rattle.std.specs.Cmp.Lexicographic.{pointwise, lists_per, lists_equiv};
ghost use Rattle.std.specs.List.{AllZip};

use std::alloc::{AllocError, Global};
use std::marker::Model;

/// A list of items. It is made from a `Vec` and gives it back without taking memory.
#[derive(Drop)]
pub struct Listing<T> {
    items: Vec<T>,
}

impl<T> Model for Listing<T> {
    ghost use Rattle.std.specs.Prelude.{List};

    ghost Value = { List T };

    ghost view = { λ a. a.items.items };
}

impl<T> Listing<T> {
    /// The empty list. It takes no memory.
    pub fn new(alloc: Global) -> Listing<T>
        ensures { result ≡ [] }
    {
        Listing {
            items: Vec::new(alloc),
        }
    }

    /// The list of these items. It takes no memory.
    pub fn from_vec(items: Vec<T>) -> Listing<T>
        ensures { result ≡ items.items }
    {
        Listing { items }
    }

    /// The items. It takes no memory.
    pub fn into_vec(self) -> Vec<T>
        ensures { result.items ≡ self }
    {
        self.items
    }

    /// The items.
    pub fn as_slice(&self) -> &[T]
        ensures { result.now ≡ self.now }
    {
        self.items.as_slice()
    }

    /// The number of items.
    pub fn len(&self) -> usize
        ensures { result ≡ length self.now }
    {
        self.items.len()
    }

    /// Whether there is no item.
    pub fn is_empty(&self) -> bool
        ensures { result ≡ (length self.now == 0) }
    {
        self.items.is_empty()
    }
}

impl<T: PartialEq> PartialEq for Listing<T> {
    ghost eq = { pointwise T.eq };

    ghost laws = { lists_per T.laws };

    fn eq(&self, other: &Listing<T>) -> bool {
        self.items == other.items
    }
}

impl<T: Eq> Eq for Listing<T> {
    ghost laws = { lists_equiv T.Eq.laws };
}

impl<T: Clone> Clone for Listing<T> {
    ghost is_clone = { AllZip T.is_clone };

    fn clone(&self) -> Result<Listing<T>, AllocError> {
        let items = self.items.clone()?;
        Ok(Listing { items })
    }
}
