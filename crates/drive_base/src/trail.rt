//! The calls that were made of a drive, as contracts see them.

ghost use Rattle.std.specs.Prelude.{◌≡◌, []};
ghost use Rattle.drive_base.specs.Trail.{and_append, and_discard, and_names, and_read, and_remove, and_rename, and_size, and_sync};

use crate::DriveFault;
use ghost_note::{Note, Tells};
use std::marker::Model;

/// What a list of calls is to contracts. No value of it is made.
pub struct CallList {}

impl Model for CallList {
    ghost use Rattle.std.specs.Prelude.{List, []};
    ghost use Rattle.drive_base.specs.Trail.{DriveCall};

    ghost Value = { List DriveCall };

    ghost view = { λ _. [] };
}

/// What bytes are to contracts. No value of it is made.
pub struct ByteList {}

impl Model for ByteList {
    ghost use Rattle.std.specs.Prelude.{ℕ, List, []};

    ghost Value = { List ℕ };

    ghost view = { λ _. [] };
}

/// The calls that were made of a drive and what each answered, the newest first. Contracts alone see them, so that a trail
/// takes no memory and its methods do nothing.
#[derive(Drop)]
pub struct Trail {
    calls: Note<CallList>,
}

impl Model for Trail {
    ghost use Rattle.std.specs.Prelude.{List};
    ghost use Rattle.drive_base.specs.Trail.{DriveCall};

    ghost Value = { List DriveCall };

    ghost view = { λ t. t.calls.value };
}

/// The bytes of a buffer at one moment.
#[derive(Drop)]
pub struct Before {
    bytes: Note<ByteList>,
}

impl Model for Before {
    ghost use Rattle.std.specs.Prelude.{ℕ, List};

    ghost Value = { List ℕ };

    ghost view = { λ b. b.bytes.value };
}

struct Nothing;

impl Tells<(), CallList> for Nothing {
    ghost told = { λ _. [] };
}

struct Shown;

impl<'a> Tells<&'a [u8], ByteList> for Shown {
    ghost told = { λ x. x.now };
}

struct OneSize;

impl<'a> Tells<(&'a Note<CallList>, &'a str, &'a Result<u64, DriveFault>), CallList> for OneSize {
    ghost told = { λ x. and_size x.0.now.value x.1.now x.2.now };
}

struct OneRead;

impl<'a> Tells<
    (
        (&'a Note<CallList>, &'a str, u64),
        (&'a Note<ByteList>, &'a Result<usize, DriveFault>, &'a [u8]),
    ),
    CallList,
> for OneRead {
    ghost told = { λ x. and_read x.0.0.now.value x.0.1.now x.0.2 x.1.0.now.value x.1.1.now x.1.2.now };
}

struct OneAppend;

impl<'a> Tells<
    (
        &'a Note<CallList>,
        &'a str,
        &'a [u8],
        &'a Result<(), DriveFault>,
    ),
    CallList,
> for OneAppend {
    ghost told = { λ x. and_append x.0.now.value x.1.now x.2.now x.3.now };
}

struct OneSync;

impl<'a> Tells<(&'a Note<CallList>, &'a str, &'a Result<(), DriveFault>), CallList> for OneSync {
    ghost told = { λ x. and_sync x.0.now.value x.1.now x.2.now };
}

struct OneRename;

impl<'a> Tells<
    (
        &'a Note<CallList>,
        &'a str,
        &'a str,
        &'a Result<(), DriveFault>,
    ),
    CallList,
> for OneRename {
    ghost told = { λ x. and_rename x.0.now.value x.1.now x.2.now x.3.now };
}

struct OneDiscard;

impl<'a> Tells<(&'a Note<CallList>, &'a str, &'a Result<(), DriveFault>), CallList> for OneDiscard {
    ghost told = { λ x. and_discard x.0.now.value x.1.now x.2.now };
}

struct OneRemove;

impl<'a> Tells<(&'a Note<CallList>, &'a str, &'a Result<(), DriveFault>), CallList> for OneRemove {
    ghost told = { λ x. and_remove x.0.now.value x.1.now x.2.now };
}

struct OneNames;

impl<'a> Tells<
    (
        &'a Note<CallList>,
        &'a str,
        u32,
        &'a Result<Vec<String>, DriveFault>,
    ),
    CallList,
> for OneNames {
    ghost told = { λ x. and_names x.0.now.value x.1.now x.2 x.3.now };
}

impl Before {
    /// The bytes of a buffer.
    pub fn of(bytes: &[u8]) -> Before
        ensures { result ≡ bytes.now }
    {
        Before {
            bytes: Note::of::<&[u8], Shown>(&bytes),
        }
    }
}

impl Trail {
    /// No call.
    pub fn new() -> Trail
        ensures { result ≡ [] }
    {
        Trail {
            calls: Note::of::<(), Nothing>(&()),
        }
    }

    /// One call of `size` more.
    pub fn size(&mut self, name: &str, answer: &Result<u64, DriveFault>)
        ensures { self.new ≡ and_size self.old name.now answer.now }
    {
        self.calls = Note::of::<(&Note<CallList>, &str, &Result<u64, DriveFault>), OneSize>(&(
            &self.calls,
            name,
            answer,
        ));
    }

    /// One call of `read` more, into a buffer that was so before.
    pub fn read(
        &mut self,
        name: &str,
        at: u64,
        before: &Before,
        answer: &Result<usize, DriveFault>,
        after: &[u8],
    )
        ensures { self.new ≡ and_read self.old name.now at before.now answer.now after.now }
    {
        self.calls = Note::of::<
            (
                (&Note<CallList>, &str, u64),
                (&Note<ByteList>, &Result<usize, DriveFault>, &[u8]),
            ),
            OneRead,
        >(&((&self.calls, name, at), (&before.bytes, answer, after)));
    }

    /// One call of `append` more.
    pub fn append(&mut self, loose: &str, bytes: &[u8], answer: &Result<(), DriveFault>)
        ensures { self.new ≡ and_append self.old loose.now bytes.now answer.now }
    {
        self.calls = Note::of::<(&Note<CallList>, &str, &[u8], &Result<(), DriveFault>), OneAppend>(
            &(&self.calls, loose, bytes, answer),
        );
    }

    /// One call of `sync` more.
    pub fn sync(&mut self, loose: &str, answer: &Result<(), DriveFault>)
        ensures { self.new ≡ and_sync self.old loose.now answer.now }
    {
        self.calls = Note::of::<(&Note<CallList>, &str, &Result<(), DriveFault>), OneSync>(&(
            &self.calls,
            loose,
            answer,
        ));
    }

    /// One call of `rename` more.
    pub fn rename(&mut self, loose: &str, name: &str, answer: &Result<(), DriveFault>)
        ensures { self.new ≡ and_rename self.old loose.now name.now answer.now }
    {
        self.calls = Note::of::<(&Note<CallList>, &str, &str, &Result<(), DriveFault>), OneRename>(
            &(&self.calls, loose, name, answer),
        );
    }

    /// One call of `discard` more.
    pub fn discard(&mut self, loose: &str, answer: &Result<(), DriveFault>)
        ensures { self.new ≡ and_discard self.old loose.now answer.now }
    {
        self.calls = Note::of::<(&Note<CallList>, &str, &Result<(), DriveFault>), OneDiscard>(&(
            &self.calls,
            loose,
            answer,
        ));
    }

    /// One call of `remove` more.
    pub fn remove(&mut self, name: &str, answer: &Result<(), DriveFault>)
        ensures { self.new ≡ and_remove self.old name.now answer.now }
    {
        self.calls = Note::of::<(&Note<CallList>, &str, &Result<(), DriveFault>), OneRemove>(&(
            &self.calls,
            name,
            answer,
        ));
    }

    /// One call of `names` more.
    pub fn names(&mut self, from: &str, most: u32, answer: &Result<Vec<String>, DriveFault>)
        ensures { self.new ≡ and_names self.old from.now most answer.now }
    {
        self.calls = Note::of::<
            (&Note<CallList>, &str, u32, &Result<Vec<String>, DriveFault>),
            OneNames,
        >(&(&self.calls, from, most, answer));
    }
}
