//! The states of a PutObject, and its work while the body is staged.

ghost use Rattle.std.specs.Prelude.{◌≡◌};
ghost use Rattle.put_stage.specs.Steps.{IsNext};

use call_types::{Cut, Mode, Reply};
use put_stage::{Stage, StageNext};
use slot_core::Flight;
use std::mem;

/// How far a PutObject is.
#[derive(Drop)]
pub enum PutState {
    /// The look at the bucket comes next.
    Looking,
    /// The put of the key begins next, in a bucket of this mode.
    Beginning(Mode),
    /// The body is staged: the next bytes, one call of a drive, or the section that ends the put.
    Staging(Work),
    /// The put is given up next, and the call was cut for this.
    Dropping(Flight, Cut),
    /// This reply is told once the rest of the body was taken.
    Draining(Reply),
    /// This reply is told next.
    Telling(Reply),
    /// The reply was told, or the call was cut for this. What is left of the trash comes next.
    Told(Option<Cut>),
}

/// Goes over to another state.
pub(crate) fn go_to(state: &mut PutState, next: PutState)
    ensures { state.new ≡ next }
{
    drop(mem::replace(state, next));
}

/// A put under way.
#[derive(Drop)]
pub struct Work {
    /// The mode of its bucket.
    pub(crate) mode: Mode,
    /// Its flight.
    pub(crate) flight: Flight,
    /// The stage of its body.
    pub(crate) stage: Stage,
    /// What comes next for that.
    pub(crate) next: StageNext,
    pub ghost is_next: { ∥ IsNext stage next ∥₁ },
}
