//! How a GetObject calls data drives, and tells its head and its pieces.

ghost use Rattle.std.specs.Prelude.{◌≡◌, ◌<◌, None, length};
ghost use Rattle.drive_base.specs.View.{views};
ghost use Rattle.op_steps.specs.Store.{teller_of};
ghost use Rattle.op_steps.specs.Words.{CallsSo, TellsSo};
ghost use Rattle.object_ops.specs.Read.{fetched_state, left_of};
ghost use Rattle.object_ops.specs.ReadStands.{StandsFor, StaysRead, told_state};
ghost use Rattle.object_ops.specs.declared.read_op.ReadState.TheVariants as state;

use crate::read_op::{ReadOp, ReadState, go_to};
use crate::read_outcome::{fetched_state, told_state};
use crate::reading::Reading;
use desk_base::Teller;
use drive_base::Drive;
use std::alloc::Global;
use std::mem;

/// Takes the reading out.
fn reading_out(reading: &mut Option<Reading>) -> Option<Reading>
    ensures out { result ≡ reading.old }
    ensures none { reading.new ≡ None }
{
    reading.take()
}

/// Puts a reading in, or none.
pub(crate) fn put_in(reading: &mut Option<Reading>, next: Option<Reading>)
    ensures { reading.new ≡ next }
{
    drop(mem::replace(reading, next));
}

impl ReadOp {
    /// Makes the call of a data drive that is due.
    pub(crate) fn fetch<D: Drive>(&mut self, alloc: Global, disks: &mut [D])
        requires state { self.old.state ≡ state.Fetching }
        requires disks { length disks.old ≡ self.old.set.drives }
        ensures stays { StaysRead self.old self.new }
        ensures left { left_of self.new.state self.new.reading < left_of self.old.state self.old.reading }
        ensures disks { length disks.new ≡ length disks.old }
        ensures calls { CallsSo (StandsFor self.old) (StandsFor self.new) self.old.set (views D.Drive disks.old) (views D.Drive disks.new) }
    {
        match reading_out(&mut self.reading) {
            Some(mut reading) => {
                let stepped = reading.step(alloc, disks);
                go_to(&mut self.state, fetched_state(&stepped, reading.told));
                put_in(&mut self.reading, Some(reading));
            }
            None => {
                go_to(&mut self.state, ReadState::Ending(None));
            }
        }
    }

    /// Tells the head, or then the piece that is at hand.
    pub(crate) fn tell_next<T: Teller>(&mut self, teller: &mut T)
        requires { self.old.state ≡ state.Giving }
        ensures stays { StaysRead self.old self.new }
        ensures left { left_of self.new.state self.new.reading < left_of self.old.state self.old.reading }
        ensures tells { TellsSo T.takes T.breaks (StandsFor self.old) (StandsFor self.new) (teller_of teller.old (T.faults teller.old))
            (teller_of teller.new (T.faults teller.new)) }
    {
        match reading_out(&mut self.reading) {
            Some(mut reading) => {
                let was_told = reading.told;
                let cut = reading.tell(teller);
                go_to(&mut self.state, told_state(reading.left, was_told, cut));
                put_in(&mut self.reading, Some(reading));
            }
            None => {
                go_to(&mut self.state, ReadState::Ending(None));
            }
        }
    }
}
