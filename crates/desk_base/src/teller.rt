//! What a reply is told to.

ghost use Rattle.std.specs.Prelude.{ℕ};
ghost use Rattle.desk_base.specs.Telling.{Telling, Tells, TellsCause};
ghost use Rattle.desk_base.specs.Telling.Telling.{Head, Piece};

use call_types::{Cut, Reply};

/// Is told one reply: its head, and then the pieces of its body, if it has one.
pub trait Teller {
    /// What one telling that is taken does to it.
    ghost takes: { Self → Telling → Self → Type 0 };

    /// What one telling does to it in the midst of which the sink fails.
    ghost breaks: { Self → Telling → Self → Type 0 };

    /// The count of faults of the sink below. It never falls.
    ghost faults: { Self → ℕ };

    /// Tells the reply. `WriteFault` where the sink's count rose, when a front of what was told may have been given to the sink, and `NoMemory`,
    /// when nothing was done; no other error.
    fn head(&mut self, reply: &Reply) -> Result<(), Cut>
        ensures tells { Tells takes breaks result (Head reply.now) self.old self.new }
        ensures cause { TellsCause result (faults self.old) (faults self.new) };

    /// Tells the next bytes of the body, in the same way.
    fn piece(&mut self, bytes: &[u8]) -> Result<(), Cut>
        ensures tells { Tells takes breaks result (Piece bytes.now) self.old self.new }
        ensures cause { TellsCause result (faults self.old) (faults self.new) };
}
