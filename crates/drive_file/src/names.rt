//! The set of names that a drive knows.

ghost use Rattle.std.specs.Prelude.{◌≡◌, ◌↔◌, Some, None, IsSome, IsTrue, OnOk, OnErr, IfOk, map, string_bytes};
ghost use Rattle.drive_base.specs.Files.{with_name};
ghost use Rattle.drive_base.specs.Names.{IsPage, ListsShown};
ghost use Rattle.drive_file.specs.FileDrive.{names_in};

use drive_base::{LONGEST_NAME, page};
use std::alloc::{AllocError, Global};
use std::collections::BTreeMap;

/// Names, in the order of their bytes.
#[derive(Drop)]
pub(crate) struct NameSet {
    names: BTreeMap<String, ()>,
}

impl NameSet {
    /// No name. It takes no memory.
    pub(crate) fn new(alloc: Global) -> NameSet
        ensures { names_in result ≡ λ _. None }
    {
        NameSet {
            names: BTreeMap::new(alloc),
        }
    }

    /// Whether the name is there.
    pub(crate) fn has(&self, name: &str) -> bool
        ensures { IsTrue result ↔ IsSome (names_in self.now name.now) }
    {
        self.names.contains_key(name)
    }

    /// Puts the name in, where it isn't there yet.
    pub(crate) fn add(&mut self, alloc: Global, name: &str) -> Result<(), AllocError>
        ensures ok { OnOk result (names_in self.new ≡ with_name (names_in self.old) name.now (Some tt)) }
        ensures err { OnErr result (names_in self.new ≡ names_in self.old) }
    {
        let name = String::from_str(alloc, name)?;
        self.names.insert(name, ())?;
        Ok(())
    }

    /// Takes the name out.
    pub(crate) fn take(&mut self, name: &str)
        ensures { names_in self.new ≡ with_name (names_in self.old) name.now None }
    {
        self.names.remove(name);
    }

    /// The first `most` names from `from` on; names of more than 1,129 bytes are passed over.
    pub(crate) fn page(
        &self,
        alloc: Global,
        from: &str,
        most: u32,
    ) -> Result<Vec<String>, AllocError>
        ensures page { IfOk result (λ names. IsPage from.now most LONGEST_NAME (map string_bytes names.items)) }
        ensures shown { IfOk result (λ names. ListsShown (names_in self.now) from.now most LONGEST_NAME (map string_bytes names.items)) }
    {
        page(alloc, &self.names, from, most)
    }
}
