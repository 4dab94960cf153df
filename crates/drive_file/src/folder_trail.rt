//! The calls that were made of a folder, as contracts see them.

ghost use Rattle.std.specs.Prelude.{◌≡◌, ◌∷◌, []};
ghost use Rattle.drive_base.specs.Trail.{listed};
ghost use Rattle.drive_file.specs.Folder.{AskSize, AskRead, AskAppend, AskSync, AskRename, AskRemove, AskMake, AskClear, AskList};

use drive_base::{Before, DriveFault};
use ghost_note::{Note, Tells};
use std::marker::Model;

/// What a list of calls is to contracts. No value of it is made.
pub(crate) struct AskedList {}

impl Model for AskedList {
    ghost use Rattle.std.specs.Prelude.{List, []};
    ghost use Rattle.drive_file.specs.Folder.{FolderCall};

    ghost Value = { List FolderCall };

    ghost view = { λ _. [] };
}

/// The calls that were made of a folder and what each answered, the newest first. Contracts alone see them, so that it takes no
/// memory and its methods do nothing.
#[derive(Drop)]
pub(crate) struct FolderTrail {
    calls: Note<AskedList>,
}

impl Model for FolderTrail {
    ghost use Rattle.std.specs.Prelude.{List};
    ghost use Rattle.drive_file.specs.Folder.{FolderCall};

    ghost Value = { List FolderCall };

    ghost view = { λ t. t.calls.value };
}

struct Nothing;

impl Tells<(), AskedList> for Nothing {
    ghost told = { λ _. [] };
}

struct OneRead;

impl<'a> Tells<
    (
        (&'a Note<AskedList>, &'a str, u64),
        (&'a Before, &'a Result<usize, DriveFault>, &'a [u8]),
    ),
    AskedList,
> for OneRead {
    ghost told = { λ x. AskRead x.0.1.now x.0.2 x.1.0.now x.1.1.now x.1.2.now ∷ x.0.0.now.value };
}

struct OneSize;

impl<'a> Tells<(&'a Note<AskedList>, &'a str, &'a Result<u64, DriveFault>), AskedList> for OneSize {
    ghost told = { λ x. AskSize x.1.now x.2.now ∷ x.0.now.value };
}

struct OneAppend;

impl<'a> Tells<
    (
        &'a Note<AskedList>,
        &'a str,
        &'a [u8],
        &'a Result<(), DriveFault>,
    ),
    AskedList,
> for OneAppend {
    ghost told = { λ x. AskAppend x.1.now x.2.now x.3.now ∷ x.0.now.value };
}

struct OneSync;

impl<'a> Tells<(&'a Note<AskedList>, &'a str, &'a Result<(), DriveFault>), AskedList> for OneSync {
    ghost told = { λ x. AskSync x.1.now x.2.now ∷ x.0.now.value };
}

struct OneRename;

impl<'a> Tells<
    (
        &'a Note<AskedList>,
        &'a str,
        &'a str,
        &'a Result<(), DriveFault>,
    ),
    AskedList,
> for OneRename {
    ghost told = { λ x. AskRename x.1.now x.2.now x.3.now ∷ x.0.now.value };
}

struct OneRemove;

impl<'a> Tells<(&'a Note<AskedList>, &'a str, &'a Result<(), DriveFault>), AskedList>
    for OneRemove {
    ghost told = { λ x. AskRemove x.1.now x.2.now ∷ x.0.now.value };
}

struct OneMake;

impl<'a> Tells<(&'a Note<AskedList>, &'a str, &'a Result<bool, DriveFault>), AskedList>
    for OneMake {
    ghost told = { λ x. AskMake x.1.now x.2.now ∷ x.0.now.value };
}

struct OneClear;

impl<'a> Tells<(&'a Note<AskedList>, &'a str, &'a Result<(), DriveFault>), AskedList> for OneClear {
    ghost told = { λ x. AskClear x.1.now x.2.now ∷ x.0.now.value };
}

struct OneList;

impl<'a> Tells<
    (
        &'a Note<AskedList>,
        &'a str,
        &'a Result<Vec<String>, DriveFault>,
    ),
    AskedList,
> for OneList {
    ghost told = { λ x. AskList x.1.now (listed x.2.now) ∷ x.0.now.value };
}

impl FolderTrail {
    /// No call.
    pub(crate) fn new() -> FolderTrail
        ensures { result ≡ [] }
    {
        FolderTrail {
            calls: Note::of::<(), Nothing>(&()),
        }
    }

    /// One call of `read` more, into a buffer that was so before.
    pub(crate) fn read(
        &mut self,
        path: &str,
        at: u64,
        before: &Before,
        answer: &Result<usize, DriveFault>,
        after: &[u8],
    )
        ensures { self.new ≡ AskRead path.now at before.now answer.now after.now ∷ self.old }
    {
        self.calls = Note::of::<
            (
                (&Note<AskedList>, &str, u64),
                (&Before, &Result<usize, DriveFault>, &[u8]),
            ),
            OneRead,
        >(&((&self.calls, path, at), (before, answer, after)));
    }

    /// One call of `size` more.
    pub(crate) fn size(&mut self, path: &str, answer: &Result<u64, DriveFault>)
        ensures { self.new ≡ AskSize path.now answer.now ∷ self.old }
    {
        self.calls = Note::of::<(&Note<AskedList>, &str, &Result<u64, DriveFault>), OneSize>(&(
            &self.calls,
            path,
            answer,
        ));
    }

    /// One call of `append` more.
    pub(crate) fn append(&mut self, path: &str, bytes: &[u8], answer: &Result<(), DriveFault>)
        ensures { self.new ≡ AskAppend path.now bytes.now answer.now ∷ self.old }
    {
        self.calls = Note::of::<
            (&Note<AskedList>, &str, &[u8], &Result<(), DriveFault>),
            OneAppend,
        >(&(&self.calls, path, bytes, answer));
    }

    /// One call of `sync` more.
    pub(crate) fn sync(&mut self, path: &str, answer: &Result<(), DriveFault>)
        ensures { self.new ≡ AskSync path.now answer.now ∷ self.old }
    {
        self.calls = Note::of::<(&Note<AskedList>, &str, &Result<(), DriveFault>), OneSync>(&(
            &self.calls,
            path,
            answer,
        ));
    }

    /// One call of `rename` more.
    pub(crate) fn rename(&mut self, from: &str, to: &str, answer: &Result<(), DriveFault>)
        ensures { self.new ≡ AskRename from.now to.now answer.now ∷ self.old }
    {
        self.calls = Note::of::<(&Note<AskedList>, &str, &str, &Result<(), DriveFault>), OneRename>(
            &(&self.calls, from, to, answer),
        );
    }

    /// One call of `remove` more.
    pub(crate) fn remove(&mut self, path: &str, answer: &Result<(), DriveFault>)
        ensures { self.new ≡ AskRemove path.now answer.now ∷ self.old }
    {
        self.calls = Note::of::<(&Note<AskedList>, &str, &Result<(), DriveFault>), OneRemove>(&(
            &self.calls,
            path,
            answer,
        ));
    }

    /// One call of `make` more.
    pub(crate) fn make(&mut self, path: &str, answer: &Result<bool, DriveFault>)
        ensures { self.new ≡ AskMake path.now answer.now ∷ self.old }
    {
        self.calls = Note::of::<(&Note<AskedList>, &str, &Result<bool, DriveFault>), OneMake>(&(
            &self.calls,
            path,
            answer,
        ));
    }

    /// One call of `clear` more.
    pub(crate) fn clear(&mut self, path: &str, answer: &Result<(), DriveFault>)
        ensures { self.new ≡ AskClear path.now answer.now ∷ self.old }
    {
        self.calls = Note::of::<(&Note<AskedList>, &str, &Result<(), DriveFault>), OneClear>(&(
            &self.calls,
            path,
            answer,
        ));
    }

    /// One call of `list` more.
    pub(crate) fn list(&mut self, path: &str, answer: &Result<Vec<String>, DriveFault>)
        ensures { self.new ≡ AskList path.now (listed answer.now) ∷ self.old }
    {
        self.calls = Note::of::<
            (&Note<AskedList>, &str, &Result<Vec<String>, DriveFault>),
            OneList,
        >(&(&self.calls, path, answer));
    }
}
