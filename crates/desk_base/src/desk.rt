//! What serves calls.

ghost use Rattle.std.specs.Prelude.{◌≡◌, ◌<◌, ℕ, List, Result};
ghost use Rattle.call_types.specs.declared.feed.Cut.{Cut};
ghost use Rattle.desk_base.specs.Calls.{IsFeedOf, IsLawful};
ghost use Rattle.desk_base.specs.Answering.{CutCause, Serves, Task};
ghost use Rattle.desk_base.specs.Telling.{Telling};
ghost use Rattle.bucket_book.specs.Limits.{moment_limit};

use crate::call::Call;
use crate::teller::Teller;
use call_types::{Cut, Feed};
use std::alloc::Global;

/// Is told between two steps of a call, where nothing is held and others may work.
pub trait Gate {
    /// A step of a call was done: of the slot of its key, of that of its bucket where it has no key, and of 0 where it has neither.
    fn between(&self, slot: u8);
}

/// Serves calls. It says by `answers` what each call does.
pub trait Desk {
    /// The way of one caller to what the desk serves.
    type Pass;

    /// What a call gives beside its reply: what was done for it.
    type Receipt: Drop;

    /// What a pass holds that no call changes, as plain data.
    ghost Holds: { Type 0 };

    /// That of a pass.
    ghost holds: { Self.Pass → Holds };

    /// Whether a pass that holds this is one of this desk's.
    ghost fits: { Self → Holds → Type 0 };

    /// That is a fact, which a worker may keep.
    ghost fits_is_fact: { (desk : Self) (held : Holds) → IsProp (fits desk held) };

    /// What a call comes to: the desk, the call and its moment, the pass before and after, the bytes that were taken of the body, all that was
    /// told, and the receipt, or why it was cut.
    ghost answers: { Self → Task → Self.Pass → Self.Pass → List ℕ → List Telling → Result Self.Receipt Cut → Type 0 };

    /// Serves a call: takes its body from the feed, which states the call's length and has given nothing yet, and tells the whole reply to the
    /// teller. `now` is the Unix second of the call, one that the clock gave before it. The answer is the receipt, or why the call was cut:
    /// the feed's error or the teller's, want of memory, or `ShardCut` for a body of which too few drives had a shard after its head was told.
    fn call<F: Feed, T: Teller>(
        &self,
        alloc: Global,
        pass: &mut Self::Pass,
        call: &Call,
        now: u64,
        feed: &mut F,
        teller: &mut T,
    ) -> Result<Self::Receipt, Cut>
        requires fits { fits self.now (holds pass.old) }
        requires lawful { IsLawful call.now }
        requires feed { IsFeedOf (F.seen feed.old) call.now }
        requires moment { now < moment_limit }
        ensures serves { Serves T.takes T.breaks
            (λ body tale. answers self.now (record { call = call.now; now = now }) pass.old pass.new body tale result)
            call.now result (F.seen feed.old) (F.seen feed.new) teller.old teller.new }
        ensures cause { CutCause result (F.seen feed.new) (F.faults feed.old) (F.faults feed.new) (T.faults teller.old) (T.faults teller.new) }
        ensures holds { holds pass.new ≡ holds pass.old };
}
