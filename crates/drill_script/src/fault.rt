//! Why bytes are no script.

use fault_base::NoMemory;

/// Why a script was not read.
#[derive(Clone, Copy)]
pub enum ScriptFault {
    /// The first line that isn't one of a script has this number, counted from 1 (`IsFirstBad` of `specs/Scripts.antt`).
    BadLine(u64),
    /// There was not enough memory.
    NoMemory,
}

impl From<NoMemory> for ScriptFault {
    ghost use Rattle.std.specs.Prelude.{◌≡◌};
    ghost use Rattle.drill_script.specs.declared.fault.ScriptFault.TheVariants as fault;

    ghost from_gives = { λ _ given. given ≡ fault.NoMemory };

    fn from(_error: NoMemory) -> ScriptFault {
        ScriptFault::NoMemory
    }
}
