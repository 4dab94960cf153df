//! The record of a part as it is spelled.

ghost use Rattle.std.specs.Int.{w64};
ghost use Rattle.field_reader.specs.Format.{number, with_rule};
ghost use Rattle.field_reader.specs.Reading.{Takes};
ghost use Rattle.upload_book.specs.Table.{PartRow, is_moment, part_table};

use call_types::PartRecord;
use field_reader::{Fields, Misspelled, ReadFault, put_bytes, put_u64, refuse_unless};
use sealed_record::Record;
use stamp_id::take_id;
use std::alloc::{AllocError, Global};
use version_list::MOMENT_LIMIT;

/// A part's record, which a table spells.
#[derive(Clone, Copy)]
pub struct Spelled(pub PartRecord);

/// Takes a moment, which is before the year 10000.
fn take_moment(fields: &mut Fields) -> Result<u64, Misspelled>
    ensures { Takes (λ moment. moment) result fields.new (with_rule is_moment (number w64) fields.old) }
{
    let start = fields.at();
    let moment = fields.take_u64()?;
    refuse_unless(moment < MOMENT_LIMIT, start)?;
    Ok(moment)
}

impl Record for Spelled {
    ghost Row = { PartRow };

    ghost table = { part_table };

    #[tactic(auto, unfolding(crate::specs::Table::part))]
    fn take(_alloc: Global, fields: &mut Fields) -> Result<Spelled, ReadFault> {
        let data_id = take_id(fields)?;
        let print = fields.take_bytes()?;
        let length = fields.take_u64()?;
        let md5 = fields.take_bytes()?;
        let modified = take_moment(fields)?;
        Ok(Spelled(PartRecord {
            data_id,
            print,
            length,
            md5,
            modified,
        }))
    }

    fn put(&self, out: &mut Vec<u8>) -> Result<(), AllocError> {
        put_bytes(out, self.0.data_id.bytes().as_slice())?;
        put_bytes(out, self.0.print.as_slice())?;
        put_u64(out, self.0.length)?;
        put_bytes(out, self.0.md5.as_slice())?;
        put_u64(out, self.0.modified)
    }

    #[tactic(auto, using(crate::proofs::Lawful::length_bytes))]
    fn size(&self) -> usize {
        80
    }
}
