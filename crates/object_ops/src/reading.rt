//! The reading of a version's body, piece by piece, and what leads to it: the answer to the begin of a read, the condition and the range of the call.

ghost use Rattle.std.specs.Prelude.{◌≡◌, length, IfOk};
ghost use Rattle.drive_base.specs.View.{AllOnlyRead, views};
ghost use Rattle.op_steps.specs.Moves.{TellMoves};
ghost use Rattle.op_steps.specs.Store.{teller_of};
ghost use Rattle.object_ops.specs.ReadingStep.{IsStepped, ReadsSo, StaysReading, StepsFall, TellsNext, next_telling};
ghost use Rattle.call_types.specs.declared.reply.Reply.TheVariants.{Found};
ghost use Rattle.receipts.specs.Spans.{body_length, whole_of};
ghost use Rattle.version_list.specs.Step.{told as step_told};
ghost use Rattle.object_ops.specs.ReadingPlan.{PlansSo, StartsSo};
ghost use Rattle.receipts.specs.Reading.{is_met};

use crate::read_op::ReadKind;
use crate::telling::{tell_head, tell_piece};
use body_print::data_plan;
use call_types::{Cut, Mode, Refusal, Reply, Span, Version, VersionName, What, Whys};
use desk_base::Teller;
use drive_base::{Drive, SetPlan};
use get_read::{BodyFault, ReadStep, Reader};
use header_values::names_tag;
use op_steps::section_refusal;
use seal_file::Text;
use slot_core::{Pin, ReadStart, SlotFault};
use span_plan::{plan, span_laws};
use std::alloc::{AllocError, Global};

/// The reading of a span of a version's body.
#[derive(Drop)]
pub struct Reading {
    /// Its reader.
    pub(crate) reader: Reader,
    /// The head that tells the version and the span.
    pub(crate) reply: Reply,
    /// The span.
    pub(crate) span: Span,
    /// How many bytes of the span are not told yet.
    pub(crate) left: u64,
    /// Whether the head is told.
    pub(crate) told: bool,
    /// How many drive calls may be made yet. No reading comes to its end.
    pub(crate) calls: u64,
}

/// What a step of a reading did.
#[derive(Clone, Copy, PartialEq, Eq)]
pub(crate) enum Stepped {
    /// One drive call, and more are due.
    Goes,
    /// The next piece is at hand.
    Gives,
    /// Too few drives gave what is asked for: why, for each drive.
    Refused(Whys),
    /// There was not enough memory.
    LacksMemory,
}

/// What a reader's step is to a reading.
fn stepped_of(answer: &Result<ReadStep, BodyFault>) -> Stepped
    ensures { IsStepped answer.now result }
{
    match answer {
        Ok(ReadStep::Piece) => Stepped::Gives,
        Ok(ReadStep::More) => Stepped::Goes,
        Ok(ReadStep::Done) => Stepped::Goes,
        Err(BodyFault::ShardQuorum(whys)) => Stepped::Refused(*whys),
        Err(BodyFault::InvalidRange(_)) => Stepped::LacksMemory,
        Err(BodyFault::NoMemory) => Stepped::LacksMemory,
    }
}

impl Reading {
    /// Makes at most one drive call.
    pub(crate) fn step<D: Drive>(&mut self, alloc: Global, disks: &mut [D]) -> Stepped
        requires { length disks.old ≡ self.old.reader.asked.wanted.set.drives }
        ensures stays { StaysReading self.old self.new }
        ensures fall { StepsFall result self.old.calls self.new.calls }
        ensures steps { ReadsSo D.Drive self.old self.new result disks.old disks.new }
        ensures read { AllOnlyRead (views D.Drive disks.old) (views D.Drive disks.new) }
    {
        if self.calls == 0 {
            return Stepped::LacksMemory;
        }
        self.calls -= 1;
        let answer = self.reader.step(alloc, disks);
        stepped_of(&answer)
    }

    /// Tells the head, or then the piece that is at hand.
    pub(crate) fn tell<T: Teller>(&mut self, teller: &mut T) -> Option<Cut>
        ensures told { TellsNext self.old self.new }
        ensures moves { TellMoves T.takes T.breaks (next_telling self.old) result (teller_of teller.old (T.faults teller.old))
            (teller_of teller.new (T.faults teller.new)) }
    {
        if !self.told {
            self.told = true;
            return tell_head(teller, &self.reply);
        }
        let piece = self.reader.piece();
        let cut = tell_piece(teller, piece);
        self.left = self.left.saturating_sub(piece.len() as u64);
        cut
    }
}

/// What the begin of a read answers.
#[derive(Drop)]
pub(crate) enum Started {
    /// A version, an object, with the name that a reply tells of it, and the pin of its data.
    Found(Version, Option<VersionName>, Pin),
    /// Why it was refused.
    Refused(Refusal),
    /// There was not enough memory.
    LacksMemory,
}

/// The name that a reply tells of a version.
fn told(mode: Mode, name: VersionName) -> Option<VersionName>
    ensures { result ≡ step_told mode name }
{
    match mode {
        Mode::Never => None,
        Mode::Enabled => Some(name),
        Mode::Suspended => Some(name),
    }
}

/// The length of a version's body in bytes, 0 for a marker.
fn length_of(what: &What) -> u64
    ensures { result ≡ body_length what.now }
{
    match what {
        What::Marker => 0,
        What::Object { length, .. } => *length,
    }
}

/// What the begin of a read in a bucket of this mode answers.
pub(crate) fn started_of(answer: Result<ReadStart, SlotFault>, mode: Mode) -> Started
    ensures { StartsSo mode answer result }
{
    match answer {
        Ok(start) => {
            let id = told(mode, start.version.id);
            Started::Found(start.version, id, start.pin)
        }
        Err(SlotFault::Key(why)) => Started::Refused(Refusal::from(why)),
        Err(fault) => match section_refusal(&fault) {
            Some(why) => Started::Refused(why),
            None => Started::LacksMemory,
        },
    }
}

/// What is to be done for a version that was found.
#[derive(Drop)]
pub(crate) enum Planned {
    /// To tell this reply, which no bytes follow.
    Tells(Reply),
    /// To read.
    Reads(Reading),
    /// Nothing: there was not enough memory.
    LacksMemory,
}

/// The head that tells a version with its whole body.
fn whole_reply(version: Version, id: Option<VersionName>) -> Reply
    ensures { result ≡ Found version (whole_of version) id }
{
    let span = Span {
        at: 0,
        length: length_of(&version.what),
    };
    Reply::Found { version, span, id }
}

/// What is to be done for a version that was found, an object. The condition comes before the range, and an empty span is told without a reading.
pub(crate) fn planned_of(
    alloc: Global,
    set: &SetPlan,
    version: Version,
    id: Option<VersionName>,
    kind: &ReadKind,
    matches: &Option<Text>,
) -> Planned
    ensures { PlansSo set.now version id kind.now matches.now result }
{
    // The laws for the proof, that a span ends in its body. The call does nothing.
    span_laws();
    if !meets(matches, &version.what) {
        return Planned::Tells(Reply::Refused(Refusal::PreconditionFailed));
    }
    let ReadKind::Get(ask) = kind else {
        return Planned::Tells(whole_reply(version, id));
    };
    let What::Object {
        data_id,
        print,
        length,
        ..
    } = &version.what
    else {
        return Planned::LacksMemory;
    };
    let (data_id, print) = (*data_id, *print);
    let span = match plan(*length, ask) {
        Ok(span) => span,
        Err(invalid) => return Planned::Tells(Reply::Refused(Refusal::from(invalid))),
    };
    if span.length == 0 {
        return Planned::Tells(Reply::Found { version, span, id });
    }
    let body_plan = data_plan(*set, data_id);
    match Reader::new(alloc, &body_plan, print, data_id, span) {
        Ok(reader) => Planned::Reads(Reading {
            reader,
            reply: Reply::Found { version, span, id },
            span,
            left: span.length,
            told: false,
            calls: u64::MAX,
        }),
        Err(_) => Planned::LacksMemory,
    }
}

/// Whether a version has one of the entity tags that the condition names. A marker has none, and without a condition each version does.
fn meets(matches: &Option<Text>, what: &What) -> bool
    ensures { result ≡ is_met matches.now what.now }
{
    let Some(value) = matches else {
        return true;
    };
    match what {
        What::Marker => false,
        What::Object { md5, parts, .. } => names_tag(value.as_slice(), md5, *parts),
    }
}

/// A copy of the condition.
pub(crate) fn copied(matches: &Option<Text>) -> Result<Option<Text>, AllocError>
    ensures { IfOk result (λ copy. copy ≡ matches.now) }
{
    match matches {
        None => Ok(None),
        Some(value) => Ok(Some(value.clone()?)),
    }
}

/// Takes the pin out.
pub(crate) fn pin_out(pin: &mut Option<Pin>) -> Option<Pin>
    ensures { result ≡ pin.old }
{
    pin.take()
}
