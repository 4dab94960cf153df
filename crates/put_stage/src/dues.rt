//! The calls that a stage makes on a drive, in their order.

ghost use Rattle.std.specs.Prelude.{◌≡◌};
ghost use Rattle.put_stage.specs.Dues.{after, is_block, is_nothing};

/// The next call of a stage on a drive.
#[derive(Clone, Copy, PartialEq, Eq)]
pub enum Due {
    /// `append` of the drive's block of the last stripe to the shard file.
    Block,
    /// `append` of the digest table, once the body is whole. All blocks so far are appended.
    Table,
    /// `sync` of the shard file.
    SyncShard,
    /// `append` of the manifest.
    Manifest,
    /// `sync` of the manifest.
    SyncManifest,
    /// `rename` of the manifest.
    PlaceManifest,
    /// `rename` of the shard file.
    PlaceShard,
    /// None is left.
    Nothing,
}

impl Due {
    /// Whether it is that of a block.
    pub fn is_block(self) -> bool
        ensures { result ≡ is_block self }
    {
        matches!(self, Due::Block)
    }

    /// Whether none is left.
    pub fn is_nothing(self) -> bool
        ensures { result ≡ is_nothing self }
    {
        matches!(self, Due::Nothing)
    }

    /// The one that follows, for a body or for a manifest alone.
    pub fn after(self, alone: bool) -> Due
        ensures { result ≡ after alone self }
    {
        match self {
            Due::Block => Due::Table,
            Due::Table => Due::SyncShard,
            Due::SyncShard => Due::Manifest,
            Due::Manifest => Due::SyncManifest,
            Due::SyncManifest => Due::PlaceManifest,
            Due::PlaceManifest => {
                if alone {
                    return Due::Nothing;
                }
                Due::PlaceShard
            }
            Due::PlaceShard | Due::Nothing => Due::Nothing,
        }
    }
}
