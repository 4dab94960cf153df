//! Laws of lines.

ghost use Rattle.audit_trail.specs.Lines.{NamesKeepTheLine};

/// The law of lines, for a caller's proof: the name in a line has no LF, so the line ends at its first one. It does
/// nothing.
#[tactic(auto, using(crate::proofs::LineLemmas::names_keep))]
pub fn line_laws()
    ensures names { NamesKeepTheLine }
{}
