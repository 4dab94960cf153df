//! The steps of a call.

ghost use Rattle.std.specs.Prelude.{◌≡◌};
ghost use Rattle.op_steps.specs.declared.next.OpNext.TheVariants as next;

use crate::outcomes::say_stub;
use crate::replies::say_cut;
use crate::{Caller, Home, Line, RecordingTeller, Source, Store, is_one, is_ready};
use drive_base::SetPlan;
use drive_memory::MemDrive;
use op_steps::{Op, OpNext};
use std::alloc::Global;
use trial_base::NoAnswer;

/// What comes next for a call.
pub fn say_next(line: &mut Line, next: OpNext) {
    match next {
        OpNext::Section(index) => {
            line.say("section of slot ");
            line.say_number(u64::from(index));
        }
        OpNext::Data => line.say("data"),
        OpNext::Feed => line.say("feed"),
        OpNext::Tell => line.say("tell"),
        OpNext::Done => line.say("done"),
    }
}

impl<O: Op> Caller<O> {
    /// A call whose op has done nothing yet.
    pub fn new(alloc: Global, op: O, set: SetPlan, source: Source) -> Caller<O>
        requires set { O.set op ≡ set }
        requires stated { source.stated ≡ O.stated (O.asked op) }
        requires given { source.given ≡ O.taken op }
    {
        let teller = RecordingTeller {
            told: Line::new(alloc),
        };
        Caller {
            op,
            set,
            source,
            teller,
        }
    }

    /// Does the section that comes next, of this slot, and says what its stub says.
    fn turn(
        &mut self,
        alloc: Global,
        home: &mut Home,
        disks: &mut [MemDrive],
        line: &mut Line,
    ) -> Result<(), NoAnswer>
        requires { O.step self.old.op ≡ next.Section home.old.index }
    {
        if !is_ready(home, disks) || !is_one(&self.set, &home.set) {
            return Err(NoAnswer);
        }
        let stub = self.op.section(alloc, &mut home.slot, disks);
        say_stub(line, &stub);
        drop(stub);
        Ok(())
    }

    /// Does the step that comes next, and says which one it was.
    pub fn step(
        &mut self,
        alloc: Global,
        store: &mut Store,
        line: &mut Line,
    ) -> Result<(), NoAnswer> {
        let next = self.op.next();
        say_next(line, next);
        match next {
            OpNext::Section(index) => {
                let Some(place) = store.place_of(index) else {
                    return Err(NoAnswer);
                };
                let home = &mut store.homes[place];
                if home.index != index {
                    return Err(NoAnswer);
                }
                self.turn(alloc, home, store.disks.as_mut_slice(), line)
            }
            OpNext::Data => {
                if store.disks.len() != usize::from(self.set.drives) {
                    return Err(NoAnswer);
                }
                self.op.data(alloc, store.disks.as_mut_slice());
                Ok(())
            }
            OpNext::Feed => {
                self.op.feed(alloc, &mut self.source);
                Ok(())
            }
            OpNext::Tell => {
                self.op.tell(alloc, &mut self.teller);
                Ok(())
            }
            OpNext::Done => Ok(()),
        }
    }

    /// Does steps to the end, at most so many, and says how many and of which kinds, and what was told.
    pub fn run(&mut self, alloc: Global, store: &mut Store, most: u64) -> Result<String, NoAnswer> {
        let mut steps = 0u64;
        for _ in 0..most {
            if self.op.next() == OpNext::Done {
                break;
            }
            let mut line = Line::new(alloc);
            self.step(alloc, store, &mut line)?;
            steps = steps.saturating_add(1);
        }
        let mut line = Line::new(alloc);
        line.say_number(steps);
        line.say(" steps, then ");
        say_next(&mut line, self.op.next());
        line.say(": ");
        self.say_told(&mut line);
        line.into_answer()
    }

    /// What was told so far, and why the call was cut, if it was.
    pub fn say_told(&self, line: &mut Line) {
        line.say_line(&self.teller.told);
        if let Some(cut) = self.op.cut() {
            line.say(" ");
            say_cut(line, &cut);
        }
    }
}
