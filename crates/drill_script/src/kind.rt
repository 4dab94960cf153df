//! The kinds of lines, by their first words.

ghost use Rattle.std.specs.Prelude.{◌≡◌, MatchOption};
ghost use Rattle.drill_script.specs.Lines.{IsNoKind, kind_word};

/// The kind of a line.
#[derive(Clone, Copy)]
pub enum Kind {
    /// `set`
    Set,
    /// `put`
    Put,
    /// `fill`
    Fill,
    /// `get`
    Get,
    /// `getv`
    GetVersion,
    /// `range`
    Range,
    /// `del`
    Delete,
    /// `delv`
    DeleteVersion,
    /// `go`
    Go,
    /// `run`
    Run,
    /// `upto`
    UpTo,
    /// `lose`
    Lose,
    /// `back`
    Back,
    /// `hurt`
    Hurt,
    /// `fuse`
    Fuse,
    /// `stop`
    Stop,
}

/// The kind of the lines that begin with this word.
pub fn kind_of(word: &str) -> Option<Kind>
    ensures { MatchOption result (IsNoKind word.now) (λ kind. word.now ≡ kind_word kind) }
{
    match word {
        "set" => Some(Kind::Set),
        "put" => Some(Kind::Put),
        "fill" => Some(Kind::Fill),
        "get" => Some(Kind::Get),
        "getv" => Some(Kind::GetVersion),
        "range" => Some(Kind::Range),
        "del" => Some(Kind::Delete),
        "delv" => Some(Kind::DeleteVersion),
        "go" => Some(Kind::Go),
        "run" => Some(Kind::Run),
        "upto" => Some(Kind::UpTo),
        "lose" => Some(Kind::Lose),
        "back" => Some(Kind::Back),
        "hurt" => Some(Kind::Hurt),
        "fuse" => Some(Kind::Fuse),
        "stop" => Some(Kind::Stop),
        _ => None,
    }
}
