//! Ranges and their spans.

ghost use Rattle.std.specs.Prelude.{◌≡◌, ◌↔◌, IsTrue};
ghost use Rattle.call_types.specs.declared.refusal.Refusal.TheVariants as refusal;
ghost use Rattle.call_types.specs.declared.names.RangeAsk.TheVariants.{FromTo, Last};
ghost use Rattle.span_plan.specs.Span.{Plans, IsPartial};
ghost use Rattle.span_plan.specs.Laws.{PlansAreOne, SpansAreAsked, SpansAreWithin, PartsAreNotEmpty, RefusedAskForNone};

use call_types::{RangeAsk, Refusal, Span};

/// The range is not satisfiable in a body of this length, in bytes (RFC 9110, section 15.5.17).
#[derive(Clone, Copy, PartialEq, Eq)]
pub struct InvalidRange(pub u64);

/// The refusal as that of the call.
impl From<InvalidRange> for Refusal {
    ghost from_gives = { λ invalid why. why ≡ refusal.InvalidRange invalid.0 };

    fn from(invalid: InvalidRange) -> Refusal {
        Refusal::InvalidRange(invalid.0)
    }
}

/// The bytes that a range gives of a body of `length` bytes: from its first place to its last one or to the body's end,
/// whichever comes first, or the last bytes, all where there are fewer. The whole of an empty body, and a suffix of it,
/// is the empty span.
///
/// A range is `InvalidRange` exactly where it is not satisfiable: its first place is not below the length or is above its
/// own last one, or it asks for the last 0 bytes.
pub fn plan(length: u64, ask: &RangeAsk) -> Result<Span, InvalidRange>
    ensures { Plans length ask.now result }
{
    match *ask {
        RangeAsk::Whole => Ok(Span { at: 0, length }),
        RangeAsk::FromTo(first, last) => from_to(length, first, last),
        RangeAsk::From(first) => from_to(length, first, u64::MAX),
        RangeAsk::Last(count) => last_bytes(length, count),
    }
}

fn from_to(length: u64, first: u64, last: u64) -> Result<Span, InvalidRange>
    ensures { Plans length (FromTo first last) result }
{
    if last < first || length <= first {
        return Err(InvalidRange(length));
    }
    let behind = (last - first).min(length - first - 1);
    Ok(Span {
        at: first,
        length: behind + 1,
    })
}

fn last_bytes(length: u64, count: u64) -> Result<Span, InvalidRange>
    ensures { Plans length (Last count) result }
{
    if count == 0 {
        return Err(InvalidRange(length));
    }
    let there = count.min(length);
    Ok(Span {
        at: length - there,
        length: there,
    })
}

/// Whether a reply that gives the span of a satisfiable range is a part of the body, 206 with a `Content-Range`. It is the
/// body as without a range, 200, where no range is asked for and where the body is empty.
pub fn is_partial(length: u64, ask: &RangeAsk) -> bool
    ensures { IsTrue result ↔ IsPartial length ask.now }
{
    match *ask {
        RangeAsk::Whole => false,
        RangeAsk::FromTo(..) => length > 0,
        RangeAsk::From(_) => length > 0,
        RangeAsk::Last(_) => length > 0,
    }
}

/// The laws of spans, for a caller's proof: a body's length and a range have one answer, a span has exactly the places
/// that are asked for, all of them in the body, a part of a body is not empty, and a range that is refused asks for no
/// place of the body. It does nothing.
pub fn span_laws()
    ensures one { PlansAreOne }
    ensures asked { SpansAreAsked }
    ensures within { SpansAreWithin }
    ensures parts { PartsAreNotEmpty }
    ensures refused { RefusedAskForNone }
{}
