//! The law of codewords, for a caller's proof.

ghost use Rattle.poly_code.specs.Codeword.{AgreeingCodewordsAreEqual};

/// Two codewords with D coefficients that agree at D distinct places are equal, so that any D blocks determine the
/// stripe. It does nothing.
pub fn codeword_laws()
    ensures { AgreeingCodewordsAreEqual }
{}
