//! Rows over `desk_base`: the length that a call states, and a desk, a gate, a feed and a teller of the smallest kind.

use crate::requests::{call_of, head_of};
use call_types::{Cut, Feed, Refusal, Reply};
use desk_base::{Call, Desk, Gate, Teller};
use std::alloc::Global;
use trial_base::{Names, NoAnswer, first, said, said_number};

/// A teller that counts what it is told.
#[derive(Drop)]
struct Counter {
    heads: u8,
    pieces: u8,
}

impl Teller for Counter {
    ghost takes = { λ old telling new. Unit {0} };

    ghost breaks = { λ old telling new. ⊥ };

    ghost faults = { λ _. 0 };

    fn head(&mut self, _reply: &Reply) -> Result<(), Cut> {
        self.heads = self.heads.saturating_add(1);
        Ok(())
    }

    fn piece(&mut self, _bytes: &[u8]) -> Result<(), Cut> {
        self.pieces = self.pieces.saturating_add(1);
        Ok(())
    }
}

/// A feed of no bytes.
#[derive(Drop)]
struct Nothing;

impl Feed for Nothing {
    ghost use Rattle.std.specs.Prelude.{[], Some, false};

    ghost seen = { λ _. record { stated = 0; given = 0; left = Some []; taken = Some []; ended = false } };

    ghost faults = { λ _. 0 };

    fn take(&mut self, _into: &mut [u8]) -> Result<usize, Cut> {
        Ok(0)
    }
}

/// A desk that serves no call.
#[derive(Drop)]
struct Closed;

impl Desk for Closed {
    ghost use Rattle.std.proofs.Props.{props};
    ghost use Rattle.desk_base.specs.Answering.{CallTells};

    type Pass = ();

    type Receipt = ();

    ghost Holds = { Unit {0} };

    ghost holds = { λ pass. pass };

    ghost fits = { λ desk held. Unit {0} };

    ghost fits_is_fact = { λ desk held. Prim.hlevel props };

    ghost answers = { λ desk task before after body tale result. CallTells task.call result tale };

    fn call<F: Feed, T: Teller>(
        &self,
        _alloc: Global,
        _pass: &mut (),
        _call: &Call,
        _now: u64,
        _feed: &mut F,
        teller: &mut T,
    ) -> Result<(), Cut> {
        teller.head(&Reply::Refused(Refusal::NotImplemented))
    }
}

/// A gate that lets everybody through.
#[derive(Drop)]
struct Open;

impl Gate for Open {
    fn between(&self, _slot: u8) {}
}

/// `serve`: what a desk that serves no call tells, behind an open gate.
fn serve(alloc: Global) -> Result<String, NoAnswer> {
    let mut told = Counter {
        heads: 0,
        pieces: 0,
    };
    Open.between(28);
    let served = Closed.call(
        alloc,
        &mut (),
        &Call::ListBuckets,
        784_111_777,
        &mut Nothing,
        &mut told,
    );
    let end = if served.is_ok() { "served" } else { "cut" };
    Ok(format!(in alloc; "{end}, heads {}, pieces {}", told.heads, told.pieces)?)
}

/// `stated_length REQUEST`: the length of the body that the call of a request takes.
fn stated_length(alloc: Global, names: &Names, request: &str) -> Result<String, NoAnswer> {
    let head = head_of(alloc, names, request)?;
    let call = call_of(alloc, head.as_ref())?;
    let length = match &call {
        Some(call) => Some(call.stated_length()),
        None => None,
    };
    drop(call);
    match length {
        Some(length) => said_number(alloc, "", length),
        None => said(alloc, "no call"),
    }
}

pub fn answer(alloc: Global, names: &Names, words: &str) -> Result<String, NoAnswer> {
    let (call, rest) = first(words);
    match call {
        "stated_length" => stated_length(alloc, names, rest),
        "serve" => serve(alloc),
        _ => said(alloc, "no such call"),
    }
}
