//! Format files: how a format is read and written.

ghost use Rattle.std.specs.Prelude.{◌≡◌, IfOk};
ghost use Rattle.std.specs.Int.{w64};
ghost use Rattle.field_reader.specs.Format.{number, with_rule};
ghost use Rattle.field_reader.specs.Reading.{Takes};
ghost use Rattle.sealed_record.specs.Answers.{Reads, ReadsFiles, NamesDamage, NamesFault};
ghost use Rattle.term_gate.specs.Table.{IsCanonical, Row, format_file, format_kind, format_table, is_term};

use crate::record::Format;
use fault_base::NoMemory;
use field_reader::{Fields, Misspelled, ReadFault, put_bytes, put_u8, put_u64, refuse_unless};
use seal_file::RecordFault;
use sealed_record::{Record, take_format};
use std::alloc::{AllocError, Global};

/// The kind of format files.
pub const KIND: [u8; 4] = *b"OFMT";

/// Takes a term, which is below 2^48. The fault is at its start.
fn take_term(fields: &mut Fields) -> Result<u64, Misspelled>
    ensures { Takes (λ term. term) result fields.new (with_rule is_term (number w64) fields.old) }
{
    let start = fields.at();
    let term = fields.take_u64()?;
    refuse_unless(term < 0x1_0000_0000_0000, start)?;
    Ok(term)
}

impl Record for Format {
    ghost Row = { Row };

    ghost table = { format_table };

    #[tactic(auto, unfolding(crate::specs::Table::layout))]
    fn take(_alloc: Global, fields: &mut Fields) -> Result<Format, ReadFault> {
        take_format(fields)?;
        let id = fields.take_bytes()?;
        let drives = fields.take_u8()?;
        let parity = fields.take_u8()?;
        let index = fields.take_u8()?;
        let term = take_term(fields)?;
        Ok(Format {
            id,
            drives,
            parity,
            index,
            term,
        })
    }

    fn put(&self, out: &mut Vec<u8>) -> Result<(), AllocError> {
        put_u8(out, 1)?;
        put_bytes(out, self.id.as_slice())?;
        put_u8(out, self.drives)?;
        put_u8(out, self.parity)?;
        put_u8(out, self.index)?;
        put_u64(out, self.term)
    }

    #[tactic(auto, unfolding(field_reader::specs::Spelling::number_bytes))]
    fn size(&self) -> usize {
        28
    }
}

/// The format that a format file holds.
///
/// Bytes that are no sealed file of the kind `OFMT` are `Unsealed`, with their first damage. A body that spells no
/// format is `NotCanonical`, at the place of its first fault, counted from 0 in the body.
#[tactic(auto, using(crate::proofs::FormatLemmas::format_lawful))]
pub fn read(alloc: Global, bytes: &[u8]) -> Result<Format, RecordFault>
    ensures outcome { Reads format_kind format_table bytes.now result }
    ensures only { ReadsFiles format_kind format_table bytes.now result }
    ensures damaged { NamesDamage format_kind bytes.now result }
    ensures fault { NamesFault format_kind format_table bytes.now result }
{
    sealed_record::read(alloc, KIND, bytes)
}

/// The format file of a format, of 64 bytes: the kind `OFMT`; the format number 1, the id, the drives, the parity, the
/// index and the term; and the SHA-256 of all these. Want of memory is the only error.
pub fn write(alloc: Global, format: &Format) -> Result<Vec<u8>, NoMemory>
    requires { IsCanonical format.now }
    ensures { IfOk result (λ bytes. bytes.items ≡ format_file format.now) }
{
    sealed_record::write(alloc, KIND, format)
}
