//! Records that have a table.

ghost use Rattle.std.specs.Prelude.{◌≡◌, ◌++◌, length, OnOk};
ghost use Rattle.field_reader.specs.Reading.{Gives};
ghost use Rattle.sealed_record.specs.Table.{Table, spelling_of};

use field_reader::{Fields, ReadFault};
use std::alloc::{AllocError, Global};

/// A type of records that are spelled by a table.
pub trait Record: Drop {
    /// What is spelled of a record.
    ghost Row: { Type 0 };

    /// The rows of the records, their format and their spelling, and which records are written.
    ghost table: { Table Self Row };

    /// Takes a record, as the format finds it. Where it finds none, the fault is the first one.
    fn take(alloc: Global, fields: &mut Fields) -> Result<Self, ReadFault>
        ensures { Gives table.row result fields.new (table.format fields.old) };

    /// Appends the spelling of a record. Want of memory is the only error; the buffer has any bytes then.
    fn put(&self, out: &mut Vec<u8>) -> Result<(), AllocError>
        requires { table.Canonical self.now }
        ensures { OnOk result (out.new.items ≡ out.old.items ++ spelling_of table self.now) };

    /// How many bytes the spelling of a record has.
    fn size(&self) -> usize
        requires { table.Canonical self.now }
        ensures { result ≡ length (spelling_of table self.now) };
}
