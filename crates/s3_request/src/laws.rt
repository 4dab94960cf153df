//! What the tests of names and the reading of ids mean.

ghost use Rattle.s3_request.specs.Names.{ReadsIds, TestsNames};

/// The laws of two definitions that calls are read by, for a caller's proof: the test of a bucket's name is the rule of `bucket_book`, and a text
/// spells exactly the id whose text it is. It does nothing.
pub fn name_laws()
    ensures names { TestsNames }
    ensures ids { ReadsIds }
{}
