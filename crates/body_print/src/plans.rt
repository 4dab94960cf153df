//! The plan by which the data of a body is coded.

ghost use Rattle.std.specs.Prelude.{◌≡◌};
ghost use Rattle.body_print.specs.Plans.{data_plan};

use drive_base::SetPlan;
use stamp_id::VersionId;

/// The plan of the data of this id, in a store over this set: each body has the blocks and the parity of the set.
pub fn data_plan(set: SetPlan, _id: VersionId) -> SetPlan
    ensures { result ≡ data_plan set _id }
{
    set
}
