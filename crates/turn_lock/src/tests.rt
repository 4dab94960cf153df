//! Turns in threads, and what passes tell. What is told is kept as numbers, and compared where no pass is alive any more.

ghost use Rattle.std.specs.Prelude.{◌≡◌, ◌≤◌, ℕ, [], IfOk, IsTrue};
ghost use Rattle.std.specs.Thread.{IsSync};
ghost use Rattle.turn_lock.specs.Passes.{IsPassOf, parts_of, turns_of};

use crate::{Pass, TurnLock, Turned, history_law};
use std::alloc::{AllocError, Global};
use std::sync::Wait;
use std::thread;
use std::thread::Threads;

/// A number of turns, with the sum of their tickets.
#[derive(Drop)]
struct Tally {
    name: u32,
    turns: u64,
    sum: u64,
}

impl Turned for Tally {
    ghost Name = { ℕ };

    ghost name = { λ tally. tally.name };

    ghost turn = { λ tally. tally.turns };

    fn turns(&self) -> u64 {
        self.turns
    }
}

/// What may be sent to another thread.
fn sent<T: Send>(value: T) -> T
    ensures { result ≡ value }
{
    value
}

/// What threads may share.
fn shared<T: Sync>(value: &T) -> &T {
    value
}

/// A lock of a tally that had so many turns, and its pass. Both may be sent.
fn lock_after(alloc: Global, turns: u64) -> Result<(TurnLock<Tally>, Pass<Tally>), AllocError>
    ensures { IfOk result (λ r. IsPassOf r.0 r.1 × (parts_of r.1 ≡ 65536) × (turns_of r.1 ≡ [])) }
{
    let value = Tally {
        name: 7,
        turns,
        sum: 0,
    };
    match TurnLock::new(alloc, value) {
        Ok((lock, pass)) => {
            let _lock = shared(&lock);
            Ok((sent(lock), sent(pass)))
        }
        Err(_) => Err(AllocError),
    }
}

/// The tally, once all passes are joined.
fn close_whole(lock: TurnLock<Tally>, pass: Pass<Tally>) -> Tally
    requires { IsPassOf lock pass × (parts_of pass ≡ 65536) }
{
    let closed = lock.close(pass);
    let Ok(value) = closed else { unreachable!() };
    value
}

/// The tally at the close, after the one turn that was made, if there was a ticket for it: what that turn gave back.
fn only_turn<R: Wait>(rt: &R, lock: TurnLock<Tally>, pass: Pass<Tally>) -> (bool, Tally)
    requires { IsPassOf lock pass × (parts_of pass ≡ 65536) × (turns_of pass ≡ []) }
    ensures { IsTrue result.0 → result.1.sum ≡ 12 }
{
    history_law::<Tally>();
    match lock.take(rt, pass) {
        Ok(mut held) => {
            held.value.turns += 1;
            held.value.sum = 12;
            let pass = lock.give(held);
            let closed = lock.close(pass);
            let Ok(tally) = closed else { unreachable!() };
            (true, tally)
        }
        Err(pass) => (false, close_whole(lock, pass)),
    }
}

/// One turn, and its ticket.
fn take_turn<R: Wait>(
    rt: &R,
    lock: &TurnLock<Tally>,
    pass: Pass<Tally>,
) -> (Pass<Tally>, Option<u64>)
    requires { IsPassOf lock.now pass }
    ensures { IsPassOf lock.now result.0 × (parts_of result.0 ≡ parts_of pass) }
{
    match lock.take(rt, pass) {
        Ok(mut held) => {
            let ticket = held.ticket();
            held.value.turns += 1;
            held.value.sum = held.value.sum.wrapping_add(ticket);
            (lock.give(held), Some(ticket))
        }
        Err(pass) => (pass, None),
    }
}

/// Takes so many turns, and adds their tickets, as far as there is memory.
fn work<R: Wait>(
    rt: &R,
    lock: &TurnLock<Tally>,
    mut pass: Pass<Tally>,
    turns: u32,
    mut tickets: Vec<u64>,
) -> (Pass<Tally>, Vec<u64>)
    requires { IsPassOf lock.now pass }
    ensures { IsPassOf lock.now result.0 × (parts_of result.0 ≡ parts_of pass) }
{
    for _ in 0..turns {
        let (back, ticket) = take_turn(rt, lock, pass);
        pass = back;
        let Some(ticket) = ticket else { break };
        if tickets.push(ticket).is_err() {
            break;
        }
    }
    (pass, tickets)
}

/// Two threads that take so many turns each.
fn work_by_two<R: Threads + Wait + Sync>(
    rt: &R,
    lock: &TurnLock<Tally>,
    pass: Pass<Tally>,
    turns: u32,
    first: Vec<u64>,
    second: Vec<u64>,
) -> (Pass<Tally>, Vec<u64>, Vec<u64>)
    requires { IsPassOf lock.now pass × (2 ≤ parts_of pass) }
    ensures { IsPassOf lock.now result.0 × (parts_of result.0 ≡ parts_of pass) }
{
    let (one, other) = lock.split(pass, 1);
    let ((one, first), (other, second)) = thread::join(
        rt,
        move ||
            requires { IsPassOf lock.now one }
            ensures { IsPassOf lock.entry.now result.0 × (parts_of result.0 ≡ parts_of one) }
        { work(rt, lock, one, turns, first) },
        move ||
            requires { IsPassOf lock.now other }
            ensures { IsPassOf lock.entry.now result.0 × (parts_of result.0 ≡ parts_of other) }
        { work(rt, lock, other, turns, second) },
    );
    (lock.join(one, other), first, second)
}

/// Four threads that take so many turns each.
fn work_by_four<R: Threads + Wait + Sync>(
    rt: &R,
    lock: &TurnLock<Tally>,
    pass: Pass<Tally>,
    turns: u32,
    tickets: [Vec<u64>; 4],
) -> (Pass<Tally>, [Vec<u64>; 4])
    requires { IsPassOf lock.now pass × (parts_of pass ≡ 65536) }
    ensures { IsPassOf lock.now result.0 × (parts_of result.0 ≡ parts_of pass) }
{
    let [a, b, c, d] = tickets;
    let (one, other) = lock.split(pass, 30_000);
    let ((one, a, b), (other, c, d)) = thread::join(
        rt,
        move ||
            requires { IsSync R.row × IsPassOf lock.now one × (2 ≤ parts_of one) }
            ensures { IsPassOf lock.entry.now result.0 × (parts_of result.0 ≡ parts_of one) }
        { work_by_two(rt, lock, one, turns, a, b) },
        move ||
            requires { IsSync R.row × IsPassOf lock.now other × (2 ≤ parts_of other) }
            ensures { IsPassOf lock.entry.now result.0 × (parts_of result.0 ≡ parts_of other) }
        { work_by_two(rt, lock, other, turns, c, d) },
    );
    (lock.join(one, other), [a, b, c, d])
}

/// Threads that take so many turns each: four, or two with the first two lists of tickets.
fn work_by<R: Threads + Wait + Sync>(
    rt: &R,
    lock: &TurnLock<Tally>,
    pass: Pass<Tally>,
    are_four: bool,
    turns: u32,
    tickets: [Vec<u64>; 4],
) -> (Pass<Tally>, [Vec<u64>; 4])
    requires { IsPassOf lock.now pass × (parts_of pass ≡ 65536) }
    ensures { IsPassOf lock.now result.0 × (parts_of result.0 ≡ parts_of pass) }
{
    if are_four {
        return work_by_four(rt, lock, pass, turns, tickets);
    }
    let [first, second, third, fourth] = tickets;
    let (pass, first, second) = work_by_two(rt, lock, pass, turns, first, second);
    (pass, [first, second, third, fourth])
}

/// How many tickets the lists have, and how many numbers from `from` on are among them without a gap.
fn count_tickets(alloc: Global, from: u64, lists: &[Vec<u64>]) -> Result<[u64; 2], AllocError> {
    let mut all = Vec::new(alloc);
    for list in lists {
        all.extend_from_slice(list)?;
    }
    all.sort_unstable();
    let mut next = from;
    for ticket in &all {
        if *ticket == next {
            next = next.wrapping_add(1);
        }
    }
    Ok([all.len() as u64, next.wrapping_sub(from)])
}

/// What is told of a lock that had so many turns, after threads took so many each: of the tickets, how many there are and how many numbers they have without a gap;
/// of the pass, the turns that it has seen; of the tally, its turns and its sum.
fn tell_work<R: Threads + Wait + Sync>(
    rt: &R,
    alloc: Global,
    from: u64,
    are_four: bool,
    turns: u32,
) -> Result<[u64; 5], AllocError> {
    let (lock, pass) = lock_after(alloc, from)?;
    let none = [
        Vec::new(alloc),
        Vec::new(alloc),
        Vec::new(alloc),
        Vec::new(alloc),
    ];
    let (pass, tickets) = work_by(rt, &lock, pass, are_four, turns, none);
    let seen = pass.seen();
    let tally = close_whole(lock, pass);
    let [count, in_place] = count_tickets(alloc, from, &tickets)?;
    Ok([count, in_place, seen, tally.turns, tally.sum])
}

/// What stands for the ticket where there was none: the number that is never one.
const NO_TICKET: u64 = u64::MAX;

/// One turn, and its ticket or `NO_TICKET`.
fn take_numbered<R: Wait>(rt: &R, lock: &TurnLock<Tally>, pass: Pass<Tally>) -> (Pass<Tally>, u64)
    requires { IsPassOf lock.now pass }
    ensures { IsPassOf lock.now result.0 × (parts_of result.0 ≡ parts_of pass) }
{
    let (pass, ticket) = take_turn(rt, lock, pass);
    (pass, ticket.unwrap_or(NO_TICKET))
}

/// What is told of a pass: its parts, the turns that it has seen, and 1 where it is spent.
fn tell_pass(pass: &Pass<Tally>) -> [u64; 3] {
    [pass.parts(), pass.seen(), u64::from(pass.spent())]
}

/// What is told while a pass is cut and joined again: of the pass and of what was cut off, then the ticket of a turn of each and what both have seen, then of
/// the pass that they are joined to, and the turns of the tally. The lock is closed in vain before they are joined.
fn tell_parting<R: Wait>(rt: &R, lock: TurnLock<Tally>, pass: Pass<Tally>) -> [[u64; 3]; 7]
    requires { IsPassOf lock pass × (parts_of pass ≡ 65536) }
{
    let whole = tell_pass(&pass);
    let (pass, other) = lock.split(pass, 6);
    let (rest, cut) = (tell_pass(&pass), tell_pass(&other));
    let (pass, ticket) = take_numbered(rt, &lock, pass);
    let first = [ticket, pass.seen(), other.seen()];
    let closed = lock.close(pass);
    let Err((lock, pass)) = closed else {
        unreachable!()
    };
    let (other, ticket) = take_numbered(rt, &lock, other);
    let second = [ticket, pass.seen(), other.seen()];
    let pass = lock.join(pass, other);
    let joined = tell_pass(&pass);
    let tally = close_whole(lock, pass);
    let last = [tally.turns, tally.sum, 0];
    [whole, rest, cut, first, second, joined, last]
}

/// What is told where one ticket is left or none: the ticket of a first turn and of a second one, each with the turns that the pass has then seen and whether
/// it is spent. Then whether these are spent: what was cut off between the two turns, the pass, and what was cut off behind them. Then the turns and the sum
/// of the tally, and whether all passes joined are spent.
fn tell_last<R: Wait>(rt: &R, lock: TurnLock<Tally>, pass: Pass<Tally>) -> [[u64; 3]; 4]
    requires { IsPassOf lock pass × (parts_of pass ≡ 65536) }
{
    let (pass, ticket) = take_numbered(rt, &lock, pass);
    let first = [ticket, pass.seen(), u64::from(pass.spent())];
    let (pass, fresh) = lock.split(pass, 1);
    let (pass, ticket) = take_numbered(rt, &lock, pass);
    let second = [ticket, pass.seen(), u64::from(pass.spent())];
    let (pass, other) = lock.split(pass, 1);
    let parted = [
        u64::from(fresh.spent()),
        u64::from(pass.spent()),
        u64::from(other.spent()),
    ];
    let pass = lock.join(lock.join(fresh, other), pass);
    let spent = u64::from(pass.spent());
    let tally = close_whole(lock, pass);
    [first, second, parted, [tally.turns, tally.sum, spent]]
}

/// What is told of a lock that had so many turns, while its pass is cut and joined again.
fn tell_parting_after<R: Wait>(
    rt: &R,
    alloc: Global,
    turns: u64,
) -> Result<[[u64; 3]; 7], AllocError> {
    let (lock, pass) = lock_after(alloc, turns)?;
    Ok(tell_parting(rt, lock, pass))
}

/// What is told of a lock that had so many turns, where one ticket is left or none.
fn tell_last_after<R: Wait>(
    rt: &R,
    alloc: Global,
    turns: u64,
) -> Result<[[u64; 3]; 4], AllocError> {
    let (lock, pass) = lock_after(alloc, turns)?;
    Ok(tell_last(rt, lock, pass))
}

/// Of a lock that had so many turns: 1 where its only turn was made, and the turns and the sum of its tally.
fn tell_only_turn_after<R: Wait>(
    rt: &R,
    alloc: Global,
    turns: u64,
) -> Result<[u64; 3], AllocError> {
    let (lock, pass) = lock_after(alloc, turns)?;
    let (made, tally) = only_turn(rt, lock, pass);
    Ok([u64::from(made), tally.turns, tally.sum])
}

#[test]
fn threads_take_turns(rt: HostRuntime) -> Result<(), AllocError> {
    let two = tell_work(&rt, rt.alloc(), 5, false, 3_000)?;
    assert!(rt; two == [6_000, 6_000, 6_005, 6_005, 18_027_000]);
    let four = tell_work(&rt, rt.alloc(), 0, true, 2_000)?;
    assert!(rt; four == [8_000, 8_000, 8_000, 8_000, 31_996_000]);
    Ok(())
}

#[test]
fn a_lock_closes_once_its_passes_are_joined(rt: HostRuntime) -> Result<(), AllocError> {
    let told = [
        [65_536, 40, 0],
        [65_530, 40, 0],
        [6, 40, 0],
        [40, 41, 40],
        [41, 41, 42],
        [65_536, 42, 0],
        [42, 81, 0],
    ];
    assert!(rt; tell_parting_after(&rt, rt.alloc(), 40)? == told);
    // It closes with what its only turn gave back.
    assert!(rt; tell_only_turn_after(&rt, rt.alloc(), 40)? == [1, 41, 12]);
    Ok(())
}

#[test]
fn the_last_number_is_no_ticket(rt: HostRuntime) -> Result<(), AllocError> {
    const LAST: u64 = u64::MAX;
    let one_is_left = [
        [LAST - 1, LAST, 0],
        [NO_TICKET, LAST, 1],
        [0, 1, 1],
        [LAST, LAST - 1, 1],
    ];
    let none_is_left = [
        [NO_TICKET, LAST, 1],
        [NO_TICKET, LAST, 1],
        [1, 1, 1],
        [LAST, 0, 1],
    ];
    assert!(rt; tell_last_after(&rt, rt.alloc(), LAST - 1)? == one_is_left);
    assert!(rt; tell_last_after(&rt, rt.alloc(), LAST)? == none_is_left);
    Ok(())
}
