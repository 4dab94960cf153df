//! What can be wrong with a stored file.

ghost use Rattle.std.specs.Prelude.{◌≡◌};
ghost use Rattle.seal_file.specs.declared.damage.RecordFault.TheVariants.{NoMemory, Unsealed};

use fault_base::NoMemory;
use std::alloc::{AllocError, AllocFailed};

/// What is wrong with the bytes of a file.
#[derive(Clone, Copy, PartialEq, Eq)]
pub enum Damage {
    /// The file has so many bytes, fewer than were needed: for a sealed file, than the 36 of a kind and a digest. Of a
    /// piece that was read without asking for the file's length it tells where the reading ended: the end of the file,
    /// or the piece's place where the file ends before it.
    Short(u64),
    /// The digest that was due, `stored`, isn't the SHA-256 of what was shown, `computed`. A sealed file stores it in its
    /// last 32 bytes; that of a manifest's text is the print, and those of digest tables and blocks stand beside them.
    Digest {
        stored: [u8; 32],
        computed: [u8; 32],
    },
    /// The digest is right, and the file begins with this kind, which is another one.
    Kind([u8; 4]),
    /// The body is no spelling of a record: it leaves the grammar at this byte. Readers of bodies say so,
    /// and `unseal` never does.
    Spelling(u64),
    /// The file has so many bytes, more than any lawful file of its kind, and wasn't read. Readers of files say so, and
    /// `unseal` never does.
    Long(u64),
}

/// Why no record was read from a file.
#[derive(Clone, Copy, PartialEq, Eq)]
pub enum RecordFault {
    /// The file is damaged.
    Unsealed(Damage),
    /// The body spells no record: the place of its first fault, from 0 at the body's first byte.
    NotCanonical(u64),
    /// There was not enough memory.
    NoMemory,
}

impl From<Damage> for RecordFault {
    ghost from_gives = { λ damage error. error ≡ Unsealed damage };

    fn from(damage: Damage) -> RecordFault {
        RecordFault::Unsealed(damage)
    }
}

impl From<NoMemory> for RecordFault {
    ghost from_gives = { λ _ error. error ≡ NoMemory };

    fn from(_error: NoMemory) -> RecordFault {
        RecordFault::NoMemory
    }
}

impl From<AllocError> for RecordFault {
    ghost from_gives = { λ _ error. error ≡ NoMemory };

    fn from(_error: AllocError) -> RecordFault {
        RecordFault::NoMemory
    }
}

impl<T: Drop> From<AllocFailed<T>> for RecordFault {
    ghost from_gives = { λ _ error. error ≡ NoMemory };

    fn from(_refused: AllocFailed<T>) -> RecordFault {
        RecordFault::NoMemory
    }
}
