//! Records as bodies.

ghost use Rattle.std.specs.Prelude.{◌≡◌, IfOk};
ghost use Rattle.field_reader.specs.Format.{value_of};
ghost use Rattle.field_reader.specs.Reading.{GivesWhole};
ghost use Rattle.sealed_record.specs.Answers.{ReadsBody, ReadsSpellings};
ghost use Rattle.sealed_record.specs.Laws.{IsLawful};
ghost use Rattle.sealed_record.specs.Table.{spelling_of};

use crate::record::Record;
use fault_base::NoMemory;
use field_reader::{Fields, ReadFault};
use std::alloc::Global;

/// The record that a whole body holds, as the format finds it.
#[tactic(auto, unfolding(field_reader::specs::Format::value_of))]
pub(crate) fn take_whole<T: Record>(alloc: Global, body: &[u8]) -> Result<T, ReadFault>
    ensures { GivesWhole T.table.row result (value_of T.table.format body.now) }
{
    let mut fields = Fields::new(body);
    let taken = T::take(alloc, &mut fields)?;
    fields.finish()?;
    Ok(taken)
}

/// The record that a body spells. A body that spells none is refused at the place of its first fault: the start of the
/// first field that breaks its rule, the number of the body's bytes where bytes are missing, or the first byte too many.
pub fn read_body<T: Record>(alloc: Global, body: &[u8]) -> Result<T, ReadFault>
    requires { IsLawful T.table }
    ensures outcome { ReadsBody T.table body.now result }
    ensures only { ReadsSpellings T.table body.now result }
{
    take_whole(alloc, body)
}

/// The spelling of a record. Want of memory is the only error.
pub fn write_body<T: Record>(alloc: Global, value: &T) -> Result<Vec<u8>, NoMemory>
    requires { T.table.Canonical value.now }
    ensures { IfOk result (λ body. body.items ≡ spelling_of T.table value.now) }
{
    let mut out = Vec::with_capacity(alloc, value.size())?;
    value.put(&mut out)?;
    Ok(out)
}
