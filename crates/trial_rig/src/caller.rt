//! A call that is served step by step.

ghost use Rattle.std.specs.Prelude.{◌≡◌};

use crate::{RecordingTeller, Source};
use drive_base::SetPlan;
use op_steps::Op;

/// A call that is served step by step: its op, the set of the store that it is for, the feed of its body, and its teller.
#[derive(Drop)]
pub struct Caller<O: Op> {
    /// The op.
    pub op: O,
    /// The set.
    pub set: SetPlan,
    /// The feed of its body.
    pub source: Source,
    /// Its teller.
    pub teller: RecordingTeller,
    pub ghost set_is: { O.set op ≡ set },
    pub ghost stated_is: { source.stated ≡ O.stated (O.asked op) },
    pub ghost given_is: { source.given ≡ O.taken op },
}
