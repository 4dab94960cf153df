//! Laws of openings.

ghost use Rattle.term_gate.specs.Laws.{FormatsStay, OpeningIsComplete, TermsStay};

/// The laws of openings, for a caller's proof. It does nothing.
///
/// - An opening that can succeed is refused for want of memory alone. It can where as many formats as a read needs are
///   good, some term is 1 or more or no format is absent, no good format is another's, none has the last term, and as many
///   drives as a write needs take the new one; and for a set that is being made where each drive has a format of term 0
///   or none, and takes what is written.
/// - A term that enough drives keep is kept by as many after an opening, also after one that was refused. So the term of a
///   life stays below that of each later one.
/// - A drive that tells, keeps a format and shows it honestly keeps one after an opening, also after one that was refused,
///   and it isn't out of a set that was opened.
pub fn opening_laws()
    ensures complete { OpeningIsComplete }
    ensures terms { TermsStay }
    ensures formats { FormatsStay }
{}
