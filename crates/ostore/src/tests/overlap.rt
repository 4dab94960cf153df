//! Two workers in threads of their own, whose calls overlap.

ghost use Rattle.std.specs.Prelude.{◌≡◌, IfOk, length};

use super::{Found, NO_CALL, NOW, SLOTS, STORED, count_given, door_over, find, fresh_rig, pair_of};
use crate::serving::serve;
use crate::ways::with_ways;
use desk_base::Gate;
use io_base::{MemClock, MemDoor, Spawner};
use std::alloc::{AllocError, Global};
use std::sync::atomic::{AtomicU64, Ordering};

/// How often a call looks for the other one at most.
const MOST_LOOKS: u32 = 100_000_000;

/// A gate that holds each of two calls behind its first step until the other one has made its first step too.
#[derive(Drop)]
struct Meeting<'a> {
    /// A bit for each of them that has.
    seen: &'a AtomicU64,
    /// How many looked in vain.
    alone: &'a AtomicU64,
}

impl Gate for Meeting<'_> {
    fn between(&self, slot: u8) {
        let mark = if slot == SLOTS[0] {
            1
        } else if slot == SLOTS[1] {
            2
        } else {
            return;
        };
        let _ = self.seen.fetch_or(mark, Ordering::SeqCst);
        for _ in 0..MOST_LOOKS {
            if self.seen.load(Ordering::SeqCst) == 3 {
                return;
            }
        }
        let _ = self.alone.fetch_add(1, Ordering::SeqCst);
    }
}

/// A door of one connection, which makes the bucket and then a key.
fn door_to(alloc: Global, bytes: &[u8]) -> Result<MemDoor, AllocError> {
    let mut pairs = Vec::new(alloc);
    pairs.push(pair_of(alloc, bytes, NO_CALL, NO_CALL)?)?;
    door_over(alloc, pairs, NO_CALL)
}

/// A door for each of two keys.
fn two_doors(alloc: Global) -> Result<Vec<MemDoor>, AllocError>
    ensures { IfOk result (λ doors. length doors.items ≡ 2) }
{
    let mut doors = Vec::new(alloc);
    doors.push(door_to(
        alloc,
        b"PUT /pic HTTP/1.1\r\n\r\nPUT /pic/a HTTP/1.1\r\nContent-Length: 5\r\n\r\nhello",
    )?)?;
    doors.push(door_to(
        alloc,
        b"PUT /pic HTTP/1.1\r\n\r\nPUT /pic/k HTTP/1.1\r\nContent-Length: 5\r\n\r\nhello",
    )?)?;
    Ok(doors)
}

#[test]
fn calls_on_two_slots_overlap(rt: HostRuntime) -> Result<(), AllocError> {
    let (alloc, clock) = (rt.alloc(), MemClock::new(NOW));
    let (seen, alone) = (AtomicU64::new(0), AtomicU64::new(0));
    let gate = Meeting {
        seen: &seen,
        alone: &alone,
    };
    let doors = two_doors(alloc)?;
    let rig = with_ways(rt, alloc, fresh_rig(alloc)?)?;
    let ended = serve(&rt, alloc, rig, &clock, doors, &mut Spawner::Threads, gate);
    let Found {
        status,
        entries,
        doors,
    } = find(ended);
    let [came, stored, _] = count_given(doors, &[STORED, STORED]);
    assert!(rt; (status, alone.load(Ordering::SeqCst), entries) == (0, 0, [2, 2]));
    assert!(rt; (came, stored) == (2, 2));
    Ok(())
}
