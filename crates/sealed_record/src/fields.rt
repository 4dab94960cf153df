//! Fields that records of several kinds have.

ghost use Rattle.std.specs.Prelude.{if◌then◌else◌};
ghost use Rattle.field_reader.specs.Reading.{Takes};
ghost use Rattle.sealed_record.specs.Fields.{format_number, flag_number};

use field_reader::{Fields, Misspelled, refuse_unless};

/// Takes the byte that says which format follows. It must be 1; the fault is at its start.
#[tactic(auto, unfolding(crate::specs::Fields::format_number))]
pub fn take_format(fields: &mut Fields) -> Result<u8, Misspelled>
    ensures { Takes (λ format. format) result fields.new (format_number fields.old) }
{
    let start = fields.at();
    let format = fields.take_u8()?;
    refuse_unless(format == 1, start)?;
    Ok(format)
}

/// Takes the byte that says whether a part follows: 1 where one does, and 0 where none does. The fault is at its start.
#[tactic(auto, unfolding(crate::specs::Fields::flag_number))]
pub fn take_flag(fields: &mut Fields) -> Result<bool, Misspelled>
    ensures { Takes (λ follows. if follows then 1 else 0) result fields.new (flag_number fields.old) }
{
    let start = fields.at();
    let flag = fields.take_u8()?;
    refuse_unless(flag < 2, start)?;
    Ok(flag == 1)
}
