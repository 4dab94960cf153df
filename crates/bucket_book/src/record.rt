//! The record of a bucket.

ghost use Rattle.std.specs.Prelude.{◌≡◌, ◌<◌};
ghost use Rattle.std.specs.Int.{w8, w64};
ghost use Rattle.field_reader.specs.Format.{number, with_rule};
ghost use Rattle.field_reader.specs.Reading.{Takes};
ghost use Rattle.bucket_book.specs.Table.{mode_number, BucketRow, is_moment, is_mode, bucket_table};

use call_types::Mode;
use field_reader::{Fields, Misspelled, ReadFault, put_u8, put_u64, refuse_unless};
use sealed_record::Record;
use std::alloc::{AllocError, Global};

/// The first second of the year 10000, in Unix seconds. The moment of each bucket is before it.
pub const MOMENT_LIMIT: u64 = 253_402_300_800;

/// A bucket.
#[derive(Clone, Copy, PartialEq, Eq)]
pub struct BucketRecord {
    /// When it was made, in Unix seconds.
    pub created: u64,
    /// Its versioning.
    pub mode: Mode,
}

/// Takes a moment.
fn take_moment(fields: &mut Fields) -> Result<u64, Misspelled>
    ensures { Takes (λ moment. moment) result fields.new (with_rule is_moment (number w64) fields.old) }
{
    let start = fields.at();
    let moment = fields.take_u64()?;
    refuse_unless(moment < MOMENT_LIMIT, start)?;
    Ok(moment)
}

/// The mode of this number.
fn mode_of(number: u8) -> Mode
    requires { number < 3 }
    ensures { mode_number result ≡ number }
{
    match number {
        0 => Mode::Never,
        1 => Mode::Enabled,
        _ => Mode::Suspended,
    }
}

/// The number of a mode.
fn mode_number(mode: Mode) -> u8
    ensures { result ≡ mode_number mode }
{
    match mode {
        Mode::Never => 0,
        Mode::Enabled => 1,
        Mode::Suspended => 2,
    }
}

/// Takes a mode.
fn take_mode(fields: &mut Fields) -> Result<Mode, Misspelled>
    ensures { Takes mode_number result fields.new (with_rule is_mode (number w8) fields.old) }
{
    let start = fields.at();
    let number = fields.take_u8()?;
    if number >= 3 {
        return Err(Misspelled(start));
    }
    Ok(mode_of(number))
}

impl Record for BucketRecord {
    ghost Row = { BucketRow };

    ghost table = { bucket_table };

    #[tactic(auto, unfolding(crate::specs::Table::bucket))]
    fn take(_alloc: Global, fields: &mut Fields) -> Result<BucketRecord, ReadFault> {
        let created = take_moment(fields)?;
        let mode = take_mode(fields)?;
        Ok(BucketRecord { created, mode })
    }

    fn put(&self, out: &mut Vec<u8>) -> Result<(), AllocError> {
        put_u64(out, self.created)?;
        put_u8(out, mode_number(self.mode))
    }

    #[tactic(auto, unfolding(field_reader::specs::Spelling::number_bytes))]
    fn size(&self) -> usize {
        9
    }
}
