//! The options of a command line, by their names.

ghost use Rattle.std.specs.Prelude.{◌≡◌, MatchOption, IfSome, OnSome, option_map, is_some, true, Contains};
ghost use Rattle.command_line.specs.Words.{option_names};
ghost use Rattle.command_line.specs.Values.{name_text, value_in, Takes, IsNoName};

/// The name of an option.
#[derive(Clone, Copy, PartialEq, Eq)]
pub enum OptionName {
    /// The folder of the drives.
    Root,
    /// How many drives the set has.
    Drives,
    /// How many of them are parity.
    Parity,
    /// The id of the set.
    Set,
    /// Where connections are awaited.
    Listen,
    /// How many connections are served at once.
    Workers,
}

/// The values of the options that were given.
#[derive(Clone, Copy)]
pub struct Options<'a> {
    /// The folder of the drives.
    pub root: Option<&'a str>,
    /// How many drives the set has.
    pub drives: Option<&'a str>,
    /// How many of them are parity.
    pub parity: Option<&'a str>,
    /// The id of the set.
    pub set: Option<&'a str>,
    /// Where connections are awaited.
    pub listen: Option<&'a str>,
    /// How many connections are served at once.
    pub workers: Option<&'a str>,
}

impl<'a> Options<'a> {
    /// No option.
    pub fn none() -> Options<'a>
        ensures { (name : _) → value_in result name ≡ None }
    {
        Options {
            root: None,
            drives: None,
            parity: None,
            set: None,
            listen: None,
            workers: None,
        }
    }

    /// The value that was given under a name.
    fn value(self, name: OptionName) -> Option<&'a str>
        ensures { option_map (λ t. t.now) result ≡ value_in self.entry name }
    {
        match name {
            OptionName::Root => self.root,
            OptionName::Drives => self.drives,
            OptionName::Parity => self.parity,
            OptionName::Set => self.set,
            OptionName::Listen => self.listen,
            OptionName::Workers => self.workers,
        }
    }

    /// These options and one more, or None where one of its name was given already.
    pub fn with(self, name: OptionName, value: &'a str) -> Option<Options<'a>>
        ensures { MatchOption result (is_some (value_in self.entry name) ≡ true) (Takes self.entry name value.entry.now) }
    {
        if self.value(name).is_some() {
            return None;
        }
        let value = Some(value);
        match name {
            OptionName::Root => Some(Options {
                root: value,
                ..self
            }),
            OptionName::Drives => Some(Options {
                drives: value,
                ..self
            }),
            OptionName::Parity => Some(Options {
                parity: value,
                ..self
            }),
            OptionName::Set => Some(Options { set: value, ..self }),
            OptionName::Listen => Some(Options {
                listen: value,
                ..self
            }),
            OptionName::Workers => Some(Options {
                workers: value,
                ..self
            }),
        }
    }
}

/// The option that has this name.
pub fn name_of(text: &str) -> Option<OptionName>
    ensures { MatchOption result (IsNoName text.now) (λ name. text.now ≡ name_text name) }
{
    match text {
        "root" => Some(OptionName::Root),
        "drives" => Some(OptionName::Drives),
        "parity" => Some(OptionName::Parity),
        "set" => Some(OptionName::Set),
        "listen" => Some(OptionName::Listen),
        "workers" => Some(OptionName::Workers),
        _ => None,
    }
}
