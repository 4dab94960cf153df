//! How long a connection over TCP is waited for.

ghost use Rattle.std.specs.Prelude.{◌≡◌};
ghost use Rattle.std.specs.Duration.{as_nanos};

use std::time::Duration;

/// How long a connection over TCP is waited for.
#[derive(Clone, Copy, PartialEq, Eq)]
pub struct TcpLimits {
    /// How long a read waits for the next byte, so also between two requests. Some time.
    pub idle: Duration,
    /// How long a write waits until the peer takes a byte. Some time.
    pub write: Duration,
    /// How long a peer is waited for in all within a message while it gives less than 1 KiB. Some time: without any every peer is
    /// slow at once.
    pub slow: Duration,
    /// How long a connection that the server ends is read before it is closed.
    pub linger: Duration,
}

impl TcpLimits {
    /// 10 seconds for an idle connection, 30 for a write, a minute for a slow peer, and half a second for the end.
    pub fn usual() -> TcpLimits
        ensures idle { as_nanos result.idle ≡ 10_000_000_000 }
        ensures write { as_nanos result.write ≡ 30_000_000_000 }
        ensures slow { as_nanos result.slow ≡ 60_000_000_000 }
        ensures linger { as_nanos result.linger ≡ 500_000_000 }
    {
        TcpLimits {
            idle: Duration::from_secs(10),
            write: Duration::from_secs(30),
            slow: Duration::from_secs(60),
            linger: Duration::from_millis(500),
        }
    }
}
