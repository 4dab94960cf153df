//! What a turn lock holds.

ghost use Rattle.std.specs.Prelude.{◌≡◌, ℕ};

/// A value that counts its own turns.
pub trait Turned {
    /// The type of names, which are data that no turn changes.
    ghost Name: { Type 0 };

    /// The name of the value, which a turn leaves as it is.
    ghost name: { Self → Name };

    /// How many turns the value had.
    ghost turn: { Self → ℕ };

    /// How many turns the value had.
    fn turns(&self) -> u64
        ensures { result ≡ turn self.now };
}
