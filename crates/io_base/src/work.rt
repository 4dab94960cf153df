//! Works that stand beside one another.

ghost use Rattle.std.specs.Prelude.{◌≡◌};

/// Something to be done, once, by a thread of its own.
pub trait Work: Send {
    /// What stays as it is while the work is done.
    ghost Kept: { Type 0 };

    /// That part of the work.
    ghost kept: { Self → Kept };

    /// That the work is done.
    ghost over: { Self → Type 0 };

    /// Does the work.
    fn work(&mut self)
        ensures over { over self.new }
        ensures kept { kept self.new ≡ kept self.old };
}

/// Works after a run of them.
#[derive(Drop)]
pub struct Spawned<W> {
    /// The works that were done.
    pub done: Vec<W>,
    /// The works that could not be started, as they were.
    pub left: Vec<W>,
}
