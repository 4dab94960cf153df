//! Fuses.

ghost use Rattle.std.specs.Prelude.{◌≡◌, Some};
ghost use Rattle.drive_memory.specs.Fuses.{is_spent, is_due, burned};

/// A fuse: a drive with it lets `calls` calls pass, and then fails each.
///
/// Where it is `late`, the first failing call takes effect before it fails.
#[derive(Clone, Copy, Drop)]
pub struct Fuse {
    /// How many calls still pass.
    pub calls: u64,
    /// Whether the first failing call takes effect.
    pub late: bool,
}

impl Fuse {
    /// Whether it fails each call, without effect.
    pub(crate) fn is_spent(self) -> bool
        ensures { result ≡ is_spent (Some self) }
    {
        self.calls == 0 && !self.late
    }

    /// Whether it fails the next call, which takes effect.
    pub(crate) fn is_due(self) -> bool
        ensures { result ≡ is_due (Some self) }
    {
        self.calls == 0 && self.late
    }

    /// The fuse after one call more.
    pub(crate) fn burned(self) -> Fuse
        ensures { Some result ≡ burned (Some self) }
    {
        Fuse {
            calls: self.calls.saturating_sub(1),
            late: self.late && self.calls != 0,
        }
    }
}
