//! What contracts see of the calls that were made of a sink, a source or a door.

ghost use Rattle.std.specs.Prelude.{◌≡◌, ◌∷◌, ◌++◌, []};
ghost use Rattle.io_base.specs.Trail.{given_more, taken_more};

use crate::IoFault;
use ghost_note::{Note, Tells};
use std::marker::{Model, PhantomData};

/// What a list of gives is to contracts. No value of it is made.
pub struct Gives {}

impl Model for Gives {
    ghost use Rattle.std.specs.Prelude.{List, []};
    ghost use Rattle.io_base.specs.Trail.{GiveCall};

    ghost Value = { List GiveCall };

    ghost view = { λ _. [] };
}

/// What a list of takes is to contracts. No value of it is made.
pub struct Takes {}

impl Model for Takes {
    ghost use Rattle.std.specs.Prelude.{List, []};
    ghost use Rattle.io_base.specs.Trail.{TakeCall};

    ghost Value = { List TakeCall };

    ghost view = { λ _. [] };
}

/// What a list of the ends of connections is to contracts. No value of it is made.
pub struct Pairs<S, K> {
    source: PhantomData<S>,
    sink: PhantomData<K>,
}

impl<S, K> Model for Pairs<S, K> {
    ghost use Rattle.std.specs.Prelude.{List, []};

    ghost Value = { List (S × K) };

    ghost view = { λ _. [] };
}

/// No give yet.
struct NoGive;

impl Tells<(), Gives> for NoGive {
    ghost told = { λ _. [] };
}

/// The trail of a sink that was asked nothing.
pub(crate) fn no_gives() -> Note<Gives>
    ensures { result.value ≡ [] }
{
    Note::of::<(), NoGive>(&())
}

/// One give more.
struct OneGive;

impl<'a> Tells<(&'a Note<Gives>, &'a [u8], &'a Result<(), IoFault>), Gives> for OneGive {
    ghost told = { λ x. given_more x.0.now.value x.1.now x.2.now };
}

/// The trail with one give more.
pub(crate) fn one_give(
    gives: &Note<Gives>,
    bytes: &[u8],
    answer: &Result<(), IoFault>,
) -> Note<Gives>
    ensures { result.value ≡ given_more gives.now.value bytes.now answer.now }
{
    Note::of::<(&Note<Gives>, &[u8], &Result<(), IoFault>), OneGive>(&(gives, bytes, answer))
}

/// No take yet.
struct NoTake;

impl Tells<(), Takes> for NoTake {
    ghost told = { λ _. [] };
}

/// The trail of a source that was asked nothing.
pub fn no_takes() -> Note<Takes>
    ensures { result.value ≡ [] }
{
    Note::of::<(), NoTake>(&())
}

/// One take more.
struct OneTake;

impl<'a> Tells<(&'a Note<Takes>, &'a Result<usize, IoFault>, &'a [u8]), Takes> for OneTake {
    ghost told = { λ x. taken_more x.0.now.value x.1.now x.2.now };
}

/// The trail with one take more, which answered so and left the buffer so.
pub fn one_take(takes: &Note<Takes>, answer: &Result<usize, IoFault>, into: &[u8]) -> Note<Takes>
    ensures { result.value ≡ taken_more takes.now.value answer.now into.now }
{
    Note::of::<(&Note<Takes>, &Result<usize, IoFault>, &[u8]), OneTake>(&(takes, answer, into))
}

/// No pair yet.
struct NoPair;

impl<S, K> Tells<(), Pairs<S, K>> for NoPair {
    ghost told = { λ _. [] };
}

/// The trail of a door that gave nothing.
pub(crate) fn no_pairs<S, K>() -> Note<Pairs<S, K>>
    ensures { result.value ≡ [] }
{
    Note::of::<(), NoPair>(&())
}

/// One pair more.
struct OnePair;

impl<'a, S, K> Tells<(&'a Note<Pairs<S, K>>, &'a S, &'a K), Pairs<S, K>> for OnePair {
    ghost told = { λ x. x.0.now.value ++ (x.1.now, x.2.now) ∷ [] };
}

/// The trail with these ends of a connection behind it.
pub(crate) fn one_pair<S, K>(pairs: &Note<Pairs<S, K>>, source: &S, sink: &K) -> Note<Pairs<S, K>>
    ensures { result.value ≡ pairs.now.value ++ (source.now, sink.now) ∷ [] }
{
    Note::of::<(&Note<Pairs<S, K>>, &S, &K), OnePair>(&(pairs, source, sink))
}
