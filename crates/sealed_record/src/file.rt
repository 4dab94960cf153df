//! Records as sealed files.

ghost use Rattle.std.specs.Prelude.{◌≡◌, IfOk};
ghost use Rattle.sealed_record.specs.Answers.{Reads, ReadsFiles, NamesDamage, NamesFault};
ghost use Rattle.sealed_record.specs.Laws.{IsLawful};
ghost use Rattle.sealed_record.specs.Table.{file_of};

use crate::body::{take_whole, write_body};
use crate::record::Record;
use fault_base::NoMemory;
use field_reader::ReadFault;
use seal_file::{RecordFault, seal, unseal};
use std::alloc::Global;

/// The record of a file of this kind.
///
/// Bytes that are no sealed file of the kind are `Unsealed`, with their first damage. A body that spells no record is
/// `NotCanonical`, at the place of its first fault, counted from 0 in the body, which is what stands between the kind
/// and the digest.
pub fn read<T: Record>(alloc: Global, kind: [u8; 4], bytes: &[u8]) -> Result<T, RecordFault>
    requires { IsLawful T.table }
    ensures outcome { Reads kind T.table bytes.now result }
    ensures only { ReadsFiles kind T.table bytes.now result }
    ensures damaged { NamesDamage kind bytes.now result }
    ensures fault { NamesFault kind T.table bytes.now result }
{
    let body = unseal(kind, bytes)?;
    match take_whole(alloc, body) {
        Ok(taken) => Ok(taken),
        Err(ReadFault::At(place)) => Err(RecordFault::NotCanonical(place)),
        Err(ReadFault::NoMemory) => Err(RecordFault::NoMemory),
    }
}

/// The file of a record: its spelling, sealed with the kind. Want of memory is the only error.
pub fn write<T: Record>(alloc: Global, kind: [u8; 4], value: &T) -> Result<Vec<u8>, NoMemory>
    requires { T.table.Canonical value.now }
    ensures { IfOk result (λ file. file.items ≡ file_of kind T.table value.now) }
{
    let body = write_body(alloc, value)?;
    seal(alloc, kind, body.as_slice())
}
