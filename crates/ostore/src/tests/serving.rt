//! Workers that run one after another.

ghost use Rattle.std.specs.Prelude.{◌≡◌, IfOk, length};

use super::{Found, NO_CALL, NOW, count_given, door_over, find, fresh_rig, pair_of};
use crate::gate::NoGate;
use crate::rig::Ended;
use crate::serving::serve;
use crate::ways::with_ways;
use audit_trail::MemAudit;
use io_base::{MemClock, MemDoor, Spawner, Turns};
use std::alloc::{AllocError, Global};

/// A bucket and a key are made.
const MAKE: &[u8] =
    b"PUT /pic HTTP/1.1\r\n\r\nPUT /pic/a HTTP/1.1\r\nContent-Length: 5\r\n\r\nhello";

/// What is given for that.
const MADE: &[u8] =
    b"HTTP/1.1 200 OK\r\nDate: Sun, 06 Nov 1994 08:49:37 GMT\r\nContent-Length: 0\r\nLocation: /pic\r\n\r\nHTTP/1.1 200 OK\r\nDate: Sun, 06 Nov 1994 08:49:37 GMT\r\nContent-Length: 0\r\nETag: \"5d41402abc4b2a76b9719d911017c592\"\r\n\r\n";

/// A read of the key.
const GET: &[u8] = b"GET /pic/a HTTP/1.1\r\n\r\n";

/// What is given for that.
const FOUND: &[u8] =
    b"HTTP/1.1 200 OK\r\nDate: Sun, 06 Nov 1994 08:49:37 GMT\r\nContent-Length: 5\r\nContent-Type: binary/octet-stream\r\nLast-Modified: Sun, 06 Nov 1994 08:49:37 GMT\r\nETag: \"5d41402abc4b2a76b9719d911017c592\"\r\nAccept-Ranges: bytes\r\n\r\nhello";

/// What is given to a connection that was cut.
const NOTHING: &[u8] = b"";

/// A door of three connections, which fails at this call. The first gives these bytes. The source of the second fails in its head, as one of a peer that is
/// too slow, and the sink of the third at its first write.
fn door_of_three(alloc: Global, bytes: &[u8], fails: u64) -> Result<MemDoor, AllocError> {
    let mut pairs = Vec::new(alloc);
    for (bytes, take, give) in [
        (bytes, NO_CALL, NO_CALL),
        (&GET[..9], 1, NO_CALL),
        (GET, NO_CALL, 0),
    ] {
        pairs.push(pair_of(alloc, bytes, take, give)?)?;
    }
    door_over(alloc, pairs, fails)
}

/// Two doors of three connections, of which the first one fails at this call. Its first connection reads what that of the second one makes, which is served
/// before it where workers run in turn.
fn two_doors(alloc: Global, fails: u64) -> Result<Vec<MemDoor>, AllocError>
    ensures { IfOk result (λ doors. length doors.items ≡ 2) }
{
    let mut doors = Vec::new(alloc);
    doors.push(door_of_three(alloc, GET, fails)?)?;
    doors.push(door_of_three(alloc, MAKE, NO_CALL)?)?;
    Ok(doors)
}

/// The status, the entries, and what was given.
fn tell<D: Drop>(
    ended: Ended<D, MemAudit, Vec<MemDoor>>,
    given: &[&[u8]],
) -> (u8, [usize; 2], [usize; 3]) {
    let Found {
        status,
        entries,
        doors,
    } = find(ended);
    (status, entries, count_given(doors, given))
}

#[test]
fn doors_are_served_until_they_fail_or_are_over(rt: HostRuntime) -> Result<(), AllocError> {
    let (made, found) = (MADE.len(), FOUND.len());
    // The call at which the first door fails, the work that can't be started, and what was given to the connections that came back: the status, the entries,
    // and how many connections and bytes these are.
    let table: [(u64, u64, &[&[u8]], (u8, [usize; 2], [usize; 3])); 4] = [
        (
            NO_CALL,
            NO_CALL,
            &[FOUND, NOTHING, NOTHING, MADE, NOTHING, NOTHING],
            (0, [5, 1], [6, 6, found + made]),
        ),
        (
            0,
            NO_CALL,
            &[MADE, NOTHING, NOTHING],
            (4, [3, 1], [3, 3, made]),
        ),
        (
            1,
            NO_CALL,
            &[FOUND, MADE, NOTHING, NOTHING],
            (4, [4, 1], [4, 4, found + made]),
        ),
        (
            NO_CALL,
            1,
            &[MADE, NOTHING, NOTHING],
            (5, [3, 1], [3, 3, made]),
        ),
    ];
    let (alloc, clock) = (rt.alloc(), MemClock::new(NOW));
    for (fails, left, given, told) in table {
        let mut spawner = Spawner::InTurn(Turns::new(vec![in alloc; left]?));
        let doors = two_doors(alloc, fails)?;
        let rig = with_ways(rt, alloc, fresh_rig(alloc)?)?;
        let ended = serve(&rt, alloc, rig, &clock, doors, &mut spawner, NoGate);
        assert!(rt; tell(ended, given) == told);
    }
    Ok(())
}
