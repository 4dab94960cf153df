//! A reader of a span of a body, and its steps.

ghost use Rattle.std.specs.Prelude.{◌≡◌, ◌≤◌, ◌+◌, drop, length, take};
ghost use Rattle.get_read.specs.States.{asked_in};

use crate::faults::BodyFault;
use crate::fetch::Fetching;
use crate::places::{first_stripe, next_stripe};
use crate::search::{Search, Wanted};
use crate::state::{Asked, State};
use call_types::Span;
use drive_base::{Drive, SetPlan};
use fault_base::NoMemory;
use manifest_file::Manifest;
use shard_file::STRIPE;
use stamp_id::VersionId;
use std::alloc::Global;
use std::mem;

/// What a step of a reader did.
#[derive(Clone, Copy, PartialEq, Eq)]
pub enum ReadStep {
    /// It made one drive call, and more are due.
    More,
    /// The next piece of the span is there.
    Piece,
    /// The whole span is given.
    Done,
}

/// The reading of a span of a body from the drives of a set, by at most one drive call a step.
#[derive(Drop)]
pub struct Reader {
    /// What is asked for.
    pub(crate) asked: Asked,
    /// What the reader is at.
    pub(crate) state: State,
    /// The last piece.
    pub(crate) piece: Vec<u8>,
    pub ghost same: { asked_in asked state ≡ asked },
}

impl Reader {
    ghost use Rattle.std.specs.Prelude.{◌<◌, ◌^◌, IfOk, Ok, Err};
    ghost use Rattle.std.specs.Option.{option_copied};
    ghost use Rattle.drive_base.specs.View.{AllOnlyRead, views};
    ghost use Rattle.shard_file.specs.Stripes.{stripe_length};
    ghost use Rattle.get_read.specs.Progress.{Suits};
    ghost use Rattle.get_read.specs.Measure.{Falls, state_left, steps_left};
    ghost use Rattle.get_read.specs.Readers.{Begins, Steps, StepsFrom, TellsFound};
    ghost use Rattle.get_read.specs.States.{manifest_in};
    ghost use Rattle.get_read.specs.Turns.{BeginsSpan, GivesPiece};
    ghost use Rattle.get_read.specs.declared.state.State.TheVariants as state;
    ghost use Rattle.get_read.specs.declared.reader.ReadStep.TheVariants.{More};
    ghost use Rattle.get_read.specs.declared.faults.BodyFault.TheVariants as refusal;

    /// A reader of a span of the body with this print, from the manifest and the shard files of an id. It makes no call yet.
    /// Of an empty span it reads the manifest alone. It refuses for want of memory alone.
    pub fn new(
        alloc: Global,
        set: &SetPlan,
        print: [u8; 32],
        id: VersionId,
        span: Span,
    ) -> Result<Reader, NoMemory>
        requires { span.at + span.length < 2 ^ 64 }
        ensures { IfOk result (λ reader. Begins set.now print id span reader) }
    {
        let wanted = Wanted {
            set: *set,
            print,
            reach: span.at + span.length,
        };
        let asked = Asked { wanted, id, span };
        Ok(Reader {
            asked,
            state: State::Searching(Search::new(alloc, asked)?),
            piece: Vec::new(alloc),
        })
    }

    /// Makes one call of one drive that isn't out, or none where none is due. The letters are of that call alone. It answers
    /// `Piece` where the next bytes of the span are there, which are at most those of four stripes, and `Done` once all are
    /// given. `ShardQuorum` comes only after all drives were tried for the manifest, or for a stripe, and tells the cause of
    /// each. A step that finds no memory ends the reading too. Each step after a refusal answers the same. The number of
    /// steps that are left falls at each step that leaves more to do.
    pub fn step<D: Drive>(&mut self, alloc: Global, drives: &mut [D]) -> Result<ReadStep, BodyFault>
        requires { length drives.old ≡ self.old.asked.wanted.set.drives }
        ensures steps { Steps D.Drive self.old self.new result drives.old drives.new }
        ensures fewer { Falls result (steps_left self.old) (steps_left self.new) }
        ensures read { AllOnlyRead (views D.Drive drives.old) (views D.Drive drives.new) }
    {
        let state = mem::replace(&mut self.state, State::Refused(BodyFault::NoMemory));
        match state {
            State::Searching(search) => self.search(alloc, search, drives),
            State::Fetching(fetching) => self.fetch(alloc, fetching, drives),
            State::Ended(manifest) => self.end(manifest, ReadStep::Done),
            State::Refused(fault) => self.refuse(&fault),
        }
    }

    /// The last piece of the span that a step gave. It doesn't allocate.
    pub fn piece(&self) -> &[u8]
        ensures { result.now ≡ self.now.piece.items }
    {
        self.piece.as_slice()
    }

    /// The manifest, from the step that found it until a step refuses. It doesn't allocate.
    pub fn manifest(&self) -> Option<&Manifest>
        ensures manifest { option_copied result ≡ manifest_in self.now.state }
        ensures found { TellsFound self.now }
    {
        match &self.state {
            State::Searching(_) => None,
            State::Fetching(fetching) => Some(&fetching.manifest),
            State::Ended(manifest) => Some(manifest),
            State::Refused(_) => None,
        }
    }

    /// A step of the search.
    fn search<D: Drive>(
        &mut self,
        alloc: Global,
        mut search: Search,
        drives: &mut [D],
    ) -> Result<ReadStep, BodyFault>
        requires same { search.asked ≡ self.old.asked }
        requires state { self.old.state ≡ state.Refused refusal.NoMemory }
        requires drives { length drives.old ≡ search.asked.wanted.set.drives }
        ensures asked { self.new.asked ≡ self.old.asked }
        ensures steps { StepsFrom D.Drive self.old.asked (state.Searching search) self.new.state self.new.piece.items result drives.old drives.new }
        ensures fewer { Falls result (state_left (state.Searching search)) (state_left self.new.state) }
        ensures read { AllOnlyRead (views D.Drive drives.old) (views D.Drive drives.new) }
    {
        match search.step(alloc, drives) {
            Ok(None) => self.search_on(search),
            Ok(Some(manifest)) => self.begin(alloc, manifest),
            Err(fault) => self.refuse(&fault),
        }
    }

    /// The search goes on.
    fn search_on(&mut self, search: Search) -> Result<ReadStep, BodyFault>
        requires { search.asked ≡ self.old.asked }
        ensures state { self.new.state ≡ state.Searching search }
        ensures asked { self.new.asked ≡ self.old.asked }
        ensures more { result ≡ Ok More }
    {
        self.state = State::Searching(search);
        Ok(ReadStep::More)
    }

    /// A stripe is read next.
    fn fetch_on(&mut self, fetching: Fetching, step: ReadStep) -> Result<ReadStep, BodyFault>
        requires { fetching.asked ≡ self.old.asked }
        ensures state { self.new.state ≡ state.Fetching fetching }
        ensures asked { self.new.asked ≡ self.old.asked }
        ensures piece { self.new.piece ≡ self.old.piece }
        ensures step { result ≡ Ok step }
    {
        self.state = State::Fetching(fetching);
        Ok(step)
    }

    /// All of the span is given.
    fn end(&mut self, manifest: Manifest, step: ReadStep) -> Result<ReadStep, BodyFault>
        ensures state { self.new.state ≡ state.Ended manifest }
        ensures asked { self.new.asked ≡ self.old.asked }
        ensures piece { self.new.piece ≡ self.old.piece }
        ensures step { result ≡ Ok step }
    {
        self.state = State::Ended(manifest);
        Ok(step)
    }

    /// The reading is refused, now and at each later step.
    fn refuse(&mut self, fault: &BodyFault) -> Result<ReadStep, BodyFault>
        ensures state { self.new.state ≡ state.Refused fault.now }
        ensures asked { self.new.asked ≡ self.old.asked }
        ensures fault { result ≡ Err fault.now }
    {
        self.state = State::Refused(*fault);
        Err(*fault)
    }

    /// Turns to the first stripe of the span.
    fn begin(&mut self, alloc: Global, manifest: Manifest) -> Result<ReadStep, BodyFault>
        requires { Suits self.old.asked manifest }
        ensures asked { self.new.asked ≡ self.old.asked }
        ensures begins { BeginsSpan self.old.asked self.old.state self.new.state manifest result }
    {
        if self.asked.span.length == 0 {
            return self.end(manifest, ReadStep::Done);
        }
        let fetching = first_stripe(alloc, self.asked, manifest)?;
        self.fetch_on(fetching, ReadStep::More)
    }

    /// A step in a stripe.
    fn fetch<D: Drive>(
        &mut self,
        alloc: Global,
        mut fetching: Fetching,
        drives: &mut [D],
    ) -> Result<ReadStep, BodyFault>
        requires same { fetching.asked ≡ self.old.asked }
        requires state { self.old.state ≡ state.Refused refusal.NoMemory }
        requires drives { length drives.old ≡ fetching.asked.wanted.set.drives }
        ensures asked { self.new.asked ≡ self.old.asked }
        ensures steps { StepsFrom D.Drive self.old.asked (state.Fetching fetching) self.new.state self.new.piece.items result drives.old drives.new }
        ensures fewer { Falls result (state_left (state.Fetching fetching)) (state_left self.new.state) }
        ensures read { AllOnlyRead (views D.Drive drives.old) (views D.Drive drives.new) }
    {
        match fetching.step(alloc, drives) {
            Ok(None) => self.fetch_on(fetching, ReadStep::More),
            Ok(Some(stripe)) => self.give(alloc, fetching, stripe),
            Err(fault) => self.refuse(&fault),
        }
    }

    /// Gives what is wanted of a stripe, and of those that came with it, and turns to the next one.
    fn give(
        &mut self,
        alloc: Global,
        fetching: Fetching,
        stripe: Vec<u8>,
    ) -> Result<ReadStep, BodyFault>
        requires same { fetching.asked ≡ self.old.asked }
        requires long { stripe_length fetching.part.long fetching.work.stripe ≤ length stripe.items }
        ensures asked { self.new.asked ≡ self.old.asked }
        ensures gives { GivesPiece self.old.state self.new.state self.new.piece.items fetching stripe.items result }
    {
        let reach = self.asked.wanted.reach;
        let skipped = fetching.at - fetching.part.begin - fetching.work.stripe * STRIPE;
        let most = (reach - fetching.at).min(stripe.len() as u64 - skipped);
        self.piece = piece_of(stripe, skipped as usize, most as usize);
        let at = fetching.at + self.piece.len() as u64;
        if at == reach {
            return self.end(fetching.manifest, ReadStep::Piece);
        }
        let next = next_stripe(alloc, fetching, at)?;
        self.fetch_on(next, ReadStep::Piece)
    }
}

/// The bytes from a place on, at most so many.
fn piece_of(mut bytes: Vec<u8>, from: usize, most: usize) -> Vec<u8>
    requires within { from + most ≤ length bytes.items }
    ensures { result.items ≡ drop from (take (from + most) bytes.items) }
{
    bytes.truncate(from + most);
    bytes.drain(0..from);
    bytes
}
