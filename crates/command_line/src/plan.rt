//! What a command line says.

use drive_base::SetPlan;
use std::alloc::AllocError;

/// What is to be done.
#[derive(Clone, Copy, PartialEq, Eq)]
pub enum Command {
    /// One connection, from the source to the sink.
    Pipe,
    /// The connections of a door.
    Serve,
    /// What the drives have for formats.
    Status,
}

/// What a command line says.
#[derive(Drop)]
pub struct Plan {
    /// The set of the store.
    pub set: SetPlan,
    /// How many connections are served at once.
    pub workers: u8,
    /// The folder of the drives, or None for drives in memory.
    pub root: Option<String>,
    /// Where connections are awaited.
    pub listen: String,
    /// What is to be done.
    pub command: Command,
}

/// Why words were not read as a command line.
#[derive(Clone, Copy, PartialEq, Eq)]
pub enum Usage {
    /// They are none.
    NotACommand,
    /// There was not enough memory.
    NoMemory,
}

impl From<AllocError> for Usage {
    ghost use Rattle.std.specs.Prelude.{◌≡◌};
    ghost use Rattle.command_line.specs.declared.plan.Usage.TheVariants.{NoMemory};

    ghost from_gives = { λ _ usage. usage ≡ NoMemory };

    fn from(_error: AllocError) -> Usage {
        Usage::NoMemory
    }
}
