//! The desk of several callers: two of them in turn.

ghost use Rattle.std.specs.Prelude.{◌≡◌, IfOk, IfSome};
ghost use Rattle.store_shared.specs.Parting.{MayBeSplit};
ghost use Rattle.store_shared.specs.SharedPasses.{FitsDesk, set_held, shared_holds};

use crate::desks::{MemPass, drives, hear};
use crate::last_slot::LastSlot;
use audit_trail::Audit;
use drive_base::Drive;
use drive_memory::MemDrive;
use std::alloc::Global;
use std::sync::atomic::{AtomicU64, Ordering};
use std::sync::{Arc, Wait};
use store_shared::{PlainPass, SharedDesk, SharedPass};
use trial_base::{Names, NoAnswer};
use trial_rig::FrailAudit;

/// A desk over memory drives.
type MemShared<R> = SharedDesk<R, MemDrive, FrailAudit, LastSlot>;

/// The way of one caller to it.
type Way = SharedPass<MemDrive, FrailAudit>;

/// A desk over a store of four drives in memory, with its one pass.
fn desk_over<R: Wait + Drop>(
    rt: R,
    alloc: Global,
    pass: MemPass,
    gate: LastSlot,
) -> Result<(MemShared<R>, Way), NoAnswer>
    ensures fits { IfOk result (λ r. FitsDesk r.0 (shared_holds r.1)) }
    ensures parts { IfOk result (λ r. MayBeSplit (shared_holds r.1)) }
    ensures four { IfOk result (λ r. (set_held (shared_holds r.1)).drives ≡ 4) }
{
    let parts = pass.into_parts();
    if parts.set.drives != 4 {
        return Err(NoAnswer);
    }
    match SharedDesk::new(rt, alloc, parts, gate) {
        Ok(both) => Ok(both),
        Err(_) => Err(NoAnswer),
    }
}

/// Two ways to it, of which the second one has data drives of its own.
fn two_ways<R: Wait>(alloc: Global, desk: &MemShared<R>, pass: Way) -> Result<(Way, Way), NoAnswer>
    requires fits { FitsDesk desk.now (shared_holds pass) }
    requires parts { MayBeSplit (shared_holds pass) }
    requires four { (set_held (shared_holds pass)).drives ≡ 4 }
    ensures { IfOk result (λ r. FitsDesk desk.now (shared_holds r.0) × FitsDesk desk.now (shared_holds r.1)) }
{
    let disks = drives(alloc, 0)?;
    if disks.len() != 4 {
        return Err(NoAnswer);
    }
    match desk.split(alloc, pass, disks) {
        Ok(both) => Ok(both),
        Err(_) => Err(NoAnswer),
    }
}

/// The words before a bar and those behind it.
fn cut(words: &str) -> (&str, &str) {
    words.split_once(" | ").unwrap_or((words, ""))
}

/// What two callers are told in turn, the second one first: `CALL | CALL | CALL | CALL`.
fn in_turn<R: Wait>(
    alloc: Global,
    names: &Names,
    desk: &MemShared<R>,
    one: &mut Way,
    other: &mut Way,
    words: &str,
) -> Result<String, NoAnswer>
    requires fits { FitsDesk desk.now (shared_holds one.old) }
    requires fits_too { FitsDesk desk.now (shared_holds other.old) }
    ensures holds { shared_holds one.new ≡ shared_holds one.old }
    ensures holds_too { shared_holds other.new ≡ shared_holds other.old }
{
    let (call, words) = cut(words);
    let made = hear(alloc, names, desk, other, call)?;
    let (call, words) = cut(words);
    let stored = hear(alloc, names, desk, one, call)?;
    let (call, words) = cut(words);
    let found = hear(alloc, names, desk, other, call)?;
    let given = hear(alloc, names, desk, one, words)?;
    Ok(format!(in alloc; "{made}; {stored}; {found}; {given}")?)
}

/// The desk and its way, which lacks parts that another way has, so that the desk isn't closed.
fn stays_open<R: Wait + Drop>(desk: MemShared<R>, way: Way) -> Option<(MemShared<R>, Way)>
    requires { FitsDesk desk (shared_holds way) }
    ensures { IfSome result (λ r. (r.0 ≡ desk) × (r.1 ≡ way)) }
{
    desk.close(way).err()
}

/// The way to the store of a desk that is closed.
fn closed<R: Wait + Drop>(desk: MemShared<R>, way: Way) -> Result<MemPass, NoAnswer>
    requires { FitsDesk desk (shared_holds way) }
{
    match desk.close(way) {
        Ok(parts) => Ok(PlainPass::new(parts)),
        Err(_) => Err(NoAnswer),
    }
}

/// What two callers of a store are told in turn, and the slot that the gate was told last. Then the desk isn't closed while a pass is out, and is once both are
/// joined: the way to the store, which goes on.
pub fn two<R: Wait + Drop + Sync>(
    rt: R,
    alloc: Global,
    names: &Names,
    pass: MemPass,
    words: &str,
) -> Result<(String, MemPass), NoAnswer> {
    let place = Arc::new(alloc, AtomicU64::new(64))?;
    let gate = LastSlot {
        slot: place.clone()?,
    };
    let (desk, pass) = desk_over(rt, alloc, pass, gate)?;
    let (mut one, mut other) = two_ways(alloc, &desk, pass)?;
    let told = in_turn(alloc, names, &desk, &mut one, &mut other, words)?;
    let slot = place.load(Ordering::SeqCst);
    let Some((desk, one)) = stays_open(desk, one) else {
        return Err(NoAnswer);
    };
    let (all, _) = desk.join(one, crosses(&desk, other));
    let pass = closed(desk, all)?;
    let told = format!(in alloc; "{told}; slot {slot}; open while a pass is out, and closed")?;
    Ok((told, pass))
}

fn sent<T: Send>(value: T) -> T
    ensures { result ≡ value }
{
    value
}

fn seen<T: Sync>(value: &T) -> &T {
    value
}

/// Threads may share a desk, and a pass may be sent to one, where drives and audits may be sent.
fn crosses<R: Sync, D: Drive + Send, A: Audit + Send, G: Sync>(
    desk: &SharedDesk<R, D, A, G>,
    pass: SharedPass<D, A>,
) -> SharedPass<D, A>
    ensures { result ≡ pass }
{
    let _desk = seen(desk);
    sent(pass)
}
