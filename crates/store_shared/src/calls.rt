//! The serving of each call by its op, and of those that are not served yet.

ghost use Rattle.std.specs.Prelude.{◌<◌, ◌≡◌, IfOk, [], ℕ};
ghost use Rattle.bucket_book.specs.Limits.{moment_limit};
ghost use Rattle.desk_base.specs.Answering.{CutCause, Serves};
ghost use Rattle.desk_base.specs.Calls.{IsFeedOf, IsLawful, stated_length};
ghost use Rattle.desk_base.specs.Telling.Telling.{Head};
ghost use Rattle.op_steps.specs.Claims.{no_claim};
ghost use Rattle.op_steps.specs.Going.{PaysFor};
ghost use Rattle.op_steps.specs.Moves.{TellMoves};
ghost use Rattle.op_steps.specs.Store.{teller_of};
ghost use Rattle.store_shared.specs.Homes.{home_of};
ghost use Rattle.store_shared.specs.Later.{IsLater, TellsLater};

use crate::op_desk::{OpDesk, Receipt};
use bucket_ops::{ChangeOp, ListOp, LookOp};
use call_types::{Cut, Feed, Refusal, Reply};
use desk_base::{Call, Teller};
use fault_base::NoMemory;
use list_ops::PageOp;
use object_ops::{DeedOp, PutOp, ReadOp};
use op_steps::Op;
use slot_history::{bucket_slot, key_slot};
use std::alloc::Global;

/// The slot of a call's key, or of its bucket where it has no key, and 0 where it has neither.
pub(crate) fn home_of(call: &Call) -> u8
    ensures { result ≡ home_of call.now }
{
    match call {
        Call::ListBuckets => 0,
        Call::CreateBucket { bucket }
        | Call::HeadBucket { bucket }
        | Call::GetVersioning { bucket }
        | Call::PutVersioning { bucket, .. }
        | Call::List2 { bucket, .. }
        | Call::ListVersions { bucket, .. } => bucket_slot(bucket),
        Call::Put { at, .. }
        | Call::Get { at, .. }
        | Call::Head { at, .. }
        | Call::Delete { at, .. }
        | Call::Create { at, .. }
        | Call::Part { at, .. }
        | Call::Complete { at, .. }
        | Call::Abort { at, .. } => key_slot(at),
    }
}

/// Serves a call, made in this Unix second, by its op, which has done nothing yet. Where there was no memory for it the call is cut, and nothing is done.
fn serve<S: OpDesk, O: Op + Drop, F: Feed, T: Teller>(
    desk: &S,
    alloc: Global,
    pass: &mut S::Pass,
    call: &Call,
    now: u64,
    op: Result<O, NoMemory>,
    feed: &mut F,
    teller: &mut T,
) -> Result<Receipt, Cut>
    requires fits { S.fits desk.now (S.holds pass.old) }
    requires set { IfOk op (λ op. O.set op ≡ S.set (S.holds pass.old)) }
    requires taken { IfOk op (λ op. O.taken op ≡ 0) }
    requires begins { IfOk op (λ op. (slot : ℕ) × (slot < 64) × O.stands op (no_claim slot) []) }
    requires stated { IfOk op (λ op. O.stated (O.asked op) ≡ stated_length call.now) }
    requires pays { IfOk op (λ op. PaysFor (O.set op) (record { call = call.now; now = now }) (O.owed (O.set op) (O.asked op))) }
    requires feed { IsFeedOf (F.seen feed.old) call.now }
    ensures holds { S.holds pass.new ≡ S.holds pass.old }
    ensures serves { Serves T.takes T.breaks
        (λ body tale. S.answers desk.now (record { call = call.now; now = now }) pass.old pass.new body tale result)
        call.now result (F.seen feed.old) (F.seen feed.new) teller.old teller.new }
    ensures cause { CutCause result (F.seen feed.new) (F.faults feed.old) (F.faults feed.new) (T.faults teller.old) (T.faults teller.new) }
{
    match op {
        Ok(mut op) => desk.serve_op(alloc, pass, call, now, &mut op, feed, teller),
        Err(_) => {
            desk.told_alone();
            Err(Cut::NoMemory)
        }
    }
}

/// Serves a call by its op. A call that is not served yet is told so.
pub(crate) fn serve_call<S: OpDesk, F: Feed, T: Teller>(
    desk: &S,
    alloc: Global,
    pass: &mut S::Pass,
    call: &Call,
    now: u64,
    feed: &mut F,
    teller: &mut T,
) -> Result<Receipt, Cut>
    requires fits { S.fits desk.now (S.holds pass.old) }
    requires lawful { IsLawful call.now }
    requires feed { IsFeedOf (F.seen feed.old) call.now }
    requires moment { now < moment_limit }
    ensures serves { Serves T.takes T.breaks
        (λ body tale. S.answers desk.now (record { call = call.now; now = now }) pass.old pass.new body tale result)
        call.now result (F.seen feed.old) (F.seen feed.new) teller.old teller.new }
    ensures cause { CutCause result (F.seen feed.new) (F.faults feed.old) (F.faults feed.new) (T.faults teller.old) (T.faults teller.new) }
    ensures holds { S.holds pass.new ≡ S.holds pass.old }
{
    let set = desk.set_in(pass);
    match call {
        Call::ListBuckets => {
            let op = ListOp::new(alloc, set, now);
            serve(desk, alloc, pass, call, now, op, feed, teller)
        }
        Call::HeadBucket { .. } | Call::GetVersioning { .. } => {
            let op = LookOp::new(alloc, set, call, now);
            serve(desk, alloc, pass, call, now, op, feed, teller)
        }
        Call::CreateBucket { .. } | Call::PutVersioning { .. } => {
            let op = ChangeOp::new(alloc, set, call, now);
            serve(desk, alloc, pass, call, now, op, feed, teller)
        }
        Call::Put { .. } => {
            let op = PutOp::new(alloc, set, call, now);
            serve(desk, alloc, pass, call, now, op, feed, teller)
        }
        Call::Get { .. } => {
            let op = ReadOp::new(alloc, set, call, now);
            serve(desk, alloc, pass, call, now, op, feed, teller)
        }
        Call::Head { .. } => {
            let op = ReadOp::new(alloc, set, call, now);
            serve(desk, alloc, pass, call, now, op, feed, teller)
        }
        Call::Delete { .. } => {
            let op = DeedOp::new(alloc, set, call, now);
            serve(desk, alloc, pass, call, now, op, feed, teller)
        }
        Call::List2 { .. } | Call::ListVersions { .. } => {
            let op = PageOp::new(alloc, set, call, now);
            serve(desk, alloc, pass, call, now, op, feed, teller)
        }
        Call::Create { .. } | Call::Part { .. } | Call::Complete { .. } | Call::Abort { .. } =>
            refuse_later(desk, pass, alloc, call, now, feed, teller),
    }
}

/// Tells the head of a reply, and says why that was cut, if it was.
fn tell_head<T: Teller>(teller: &mut T, reply: &Reply) -> Option<Cut>
    ensures { TellMoves T.takes T.breaks (Head reply.now) result (teller_of teller.old (T.faults teller.old)) (teller_of teller.new (T.faults teller.new)) }
{
    teller.head(reply).err()
}

/// Tells that a call is not served yet.
fn tell_later<T: Teller>(alloc: Global, teller: &mut T) -> Result<Receipt, Cut>
    ensures { TellsLater T.takes T.breaks result (teller_of teller.old (T.faults teller.old)) (teller_of teller.new (T.faults teller.new)) }
{
    match tell_head(teller, &Reply::Refused(Refusal::NotImplemented)) {
        None => Ok(Receipt {
            stubs: Vec::new(alloc),
        }),
        Some(cut) => Err(cut),
    }
}

/// Answers a call that is not served yet: it is told so. Nothing of its body is taken, and nothing of the store is touched.
pub(crate) fn refuse_later<S: OpDesk, F: Feed, T: Teller>(
    desk: &S,
    pass: &S::Pass,
    alloc: Global,
    call: &Call,
    now: u64,
    feed: &F,
    teller: &mut T,
) -> Result<Receipt, Cut>
    requires later { IsLater call.now }
    requires feed { IsFeedOf (F.seen feed.now) call.now }
    ensures serves { Serves T.takes T.breaks
        (λ body tale. S.answers desk.now (record { call = call.now; now = now }) pass.now pass.now body tale result)
        call.now result (F.seen feed.now) (F.seen feed.now) teller.old teller.new }
    ensures cause { CutCause result (F.seen feed.now) (F.faults feed.now) (F.faults feed.now) (T.faults teller.old) (T.faults teller.new) }
{
    desk.told_alone();
    tell_later(alloc, teller)
}
