//! The lines of a script, as data.

use call_types::{Mode, VersionName};
use seal_file::Text;

/// A line of a script.
#[derive(Drop)]
pub enum Line {
    /// Memory drives, an opening of them, and a bucket of this mode.
    Set {
        /// How many drives the set has.
        drives: u8,
        /// How many of them are parity.
        parity: u8,
        /// The mode of the bucket.
        mode: Mode,
    },
    /// Starts a PutObject of a text.
    Put {
        /// The actor's name.
        actor: Text,
        /// The key.
        key: Text,
        /// The text, where `-` is the empty body.
        body: Text,
    },
    /// Starts a PutObject of bytes that are made.
    Fill {
        /// The actor's name.
        actor: Text,
        /// The key.
        key: Text,
        /// How many bytes the body has.
        length: u64,
    },
    /// Starts a GetObject of the current version.
    Get {
        /// The actor's name.
        actor: Text,
        /// The key.
        key: Text,
    },
    /// Starts a GetObject of a version.
    GetVersion {
        /// The actor's name.
        actor: Text,
        /// The key.
        key: Text,
        /// The version.
        id: VersionName,
    },
    /// Starts a GetObject of a part of the current version.
    Range {
        /// The actor's name.
        actor: Text,
        /// The key.
        key: Text,
        /// The first place.
        from: u64,
        /// The last place, which may lie before the first one.
        to: u64,
    },
    /// Starts a DeleteObject without a version.
    Delete {
        /// The actor's name.
        actor: Text,
        /// The key.
        key: Text,
    },
    /// Starts a DeleteObject of a version.
    DeleteVersion {
        /// The actor's name.
        actor: Text,
        /// The key.
        key: Text,
        /// The version.
        id: VersionName,
    },
    /// The next step of an actor.
    Go(Text),
    /// The steps of an actor until it is done.
    Run(Text),
    /// The steps of an actor up to its commit, or up to its first piece of a body.
    UpTo(Text),
    /// A drive is lost.
    Lose(u8),
    /// A lost drive is back.
    Back(u8),
    /// A byte of a file is inverted.
    Hurt {
        /// The drive's index.
        index: u8,
        /// The file's name.
        name: Text,
        /// The byte's place.
        place: u64,
    },
    /// A drive fails after some more calls.
    Fuse {
        /// The drive's index.
        index: u8,
        /// How many calls pass.
        calls: u64,
        /// Whether the call that fails takes effect.
        late: bool,
    },
    /// The end of a life, and an opening of the drives anew.
    Stop,
}
