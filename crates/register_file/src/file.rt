//! Records as files.

ghost use Rattle.std.specs.Prelude.{◌≡◌, IfOk};
ghost use Rattle.sealed_record.specs.Answers.{Reads, ReadsFiles, NamesDamage, NamesFault};
ghost use Rattle.sealed_record.specs.Laws.{SpellingsAreRead, FaultlessIsSpelled, SpellingIsInjective};
ghost use Rattle.register_file.specs.Lengths.{longest_file, FilesAreNoLonger, SomeFileIsAsLong};
ghost use Rattle.register_file.specs.Record.{IsCanonical};
ghost use Rattle.register_file.specs.Rows.{FileRow};
ghost use Rattle.register_file.specs.Spelling.{register_kind, file_of};
ghost use Rattle.register_file.specs.Table.{register_table, FileIsInjective};

use crate::reading::take_record;
use crate::record::{KIND, RegFile};
use crate::writing::{put_record, spelling_size};
use fault_base::NoMemory;
use field_reader::{Fields, ReadFault};
use seal_file::RecordFault;
use sealed_record::Record;
use std::alloc::{AllocError, Global};

impl Record for RegFile {
    ghost Row = { FileRow };

    ghost table = { register_table };

    fn take(alloc: Global, fields: &mut Fields) -> Result<RegFile, ReadFault> {
        take_record(alloc, fields)
    }

    fn put(&self, out: &mut Vec<u8>) -> Result<(), AllocError> {
        put_record(out, self)
    }

    fn size(&self) -> usize {
        spelling_size(self)
    }
}

/// The record of a register's file.
///
/// Bytes that are no sealed file of the kind `OREG` are `Unsealed`, with their first damage. A body that spells no
/// record is `NotCanonical`, at the place of its first fault, counted from 0 in the body, which is what stands between
/// the kind and the digest: the start of the first field that breaks its rule, the number of the body's bytes where
/// bytes are missing, or the first byte too many.
#[tactic(auto, using(crate::proofs::Lawful::register_lawful))]
pub fn read(alloc: Global, bytes: &[u8]) -> Result<RegFile, RecordFault>
    // What is read is canonical and this is its file; what is refused is damaged, or its body has a fault there.
    ensures outcome { Reads register_kind register_table bytes.now result }
    // The file of a canonical record is read as that record.
    ensures only { ReadsFiles register_kind register_table bytes.now result }
    // A damage is named, always.
    ensures damaged { NamesDamage register_kind bytes.now result }
    // A sealed body with no fault is read, and a fault is named.
    ensures fault { NamesFault register_kind register_table bytes.now result }
{
    sealed_record::read(alloc, KIND, bytes)
}

/// The file of a record: its spelling, sealed with the kind `OREG`. Want of memory is the only error.
pub fn write(alloc: Global, file: &RegFile) -> Result<Vec<u8>, NoMemory>
    // The next's parent is the base's change, and each content has fewer than 2^32 bytes.
    requires { IsCanonical file.now }
    ensures { IfOk result (λ bytes. bytes.items ≡ file_of file.now) }
{
    sealed_record::write(alloc, KIND, file)
}

/// The length in bytes of the longest file of a record whose contents, that of the base and that of the next, have at
/// most `content` bytes each. It stands still at the last value of a `u64`.
pub fn longest_file(content: u64) -> u64
    ensures { result ≡ longest_file content }
{
    content.saturating_mul(2).saturating_add(175)
}

/// The laws of spellings, for a caller's proof: a canonical record is found in its spelling, a body with no fault spells
/// a canonical record, two canonical records with one spelling, or with one file, are the same, no file is longer than
/// its contents allow, and some file is as long. It does nothing.
pub fn file_laws()
    ensures read { SpellingsAreRead register_table }
    ensures faultless { FaultlessIsSpelled register_table }
    ensures injective { SpellingIsInjective register_table }
    ensures files { FileIsInjective }
    ensures lengths { FilesAreNoLonger }
    ensures reached { SomeFileIsAsLong }
{}
