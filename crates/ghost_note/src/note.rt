//! A value that contracts alone see.

ghost use Rattle.std.specs.Prelude.{◌≡◌};
ghost use Rattle.std.specs.Borrow.{ftrue};

use std::fmt::{self, Debug, Formatter, Write};
use std::marker::{Model, PhantomData};

/// How a note is made of what a value shows.
pub trait Tells<X, T> {
    /// What the note says.
    ghost told: { X → T };
}

/// A `T` as clauses see it, of which there need be no value: it takes no memory, and owns nothing.
pub struct Note<T> {
    marker: PhantomData<T>,
    /// What it says.
    pub ghost value: { T },
}

impl<T> Model for Note<T> {
    ghost also_owns = { λ _. ftrue };
}

impl<T> Note<T> {
    /// The note that `M` makes of what `x` shows. It does nothing.
    pub fn of<X, M: Tells<X, T>>(x: &X) -> Note<T>
        ensures { result.value ≡ M.told x.now }
    {
        let _ = x;
        Note {
            marker: PhantomData,
        }
    }
}

unsafe impl<T> Send for Note<T> {}

unsafe impl<T> Sync for Note<T> {}

impl<T> Debug for Note<T> {
    fn fmt<W: Write>(&self, f: &mut Formatter<W>) -> fmt::Result {
        f.write_str("Note")
    }
}

impl<T> Drop for Note<T> {
    fn drop(self) {
        let Self { marker: _ } = self;
    }
}
