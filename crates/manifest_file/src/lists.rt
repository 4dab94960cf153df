//! The lists of a manifest. A contract sees each as the list of its items.

ghost use Rattle.std.specs.Prelude.{◌≡◌, ◌==◌, length};
ghost use Rattle.manifest_file.specs.declared.manifest.ManifestPart.{ManifestPart};

use crate::manifest::ManifestPart;
use std::marker::Model;

/// The parts of a body, in their order.
#[derive(Drop)]
pub struct Parts(Vec<ManifestPart>);

impl Model for Parts {
    ghost use Rattle.std.specs.Prelude.{List};
    ghost use Rattle.manifest_file.specs.declared.manifest.ManifestPart.{ManifestPart};

    ghost Value = { List ManifestPart };

    ghost view = { λ a. a.0.items };
}

impl Parts {
    /// The list of these parts. It takes no memory.
    pub fn from_vec(parts: Vec<ManifestPart>) -> Parts
        ensures { result ≡ parts.items }
    {
        Parts(parts)
    }

    /// The parts, with their memory.
    pub fn into_vec(self) -> Vec<ManifestPart>
        ensures { result.items ≡ self }
    {
        self.0
    }

    /// The parts.
    pub fn as_slice(&self) -> &[ManifestPart]
        ensures { result.now ≡ self.now }
    {
        self.0.as_slice()
    }

    /// How many parts there are.
    pub fn len(&self) -> usize
        ensures { result ≡ length self.now }
    {
        self.0.len()
    }

    /// Whether there is no part.
    pub fn is_empty(&self) -> bool
        ensures { result ≡ (length self.now == 0) }
    {
        self.0.is_empty()
    }
}

/// The root of a part's shard on each drive: the SHA-256 of the digests of its blocks.
#[derive(Drop)]
pub struct Roots(Vec<[u8; 32]>);

impl Model for Roots {
    ghost use Rattle.std.specs.Prelude.{ℕ, List};

    ghost Value = { List (List ℕ) };

    ghost view = { λ a. a.0.items };
}

impl Roots {
    /// The list of these roots. It takes no memory.
    pub fn from_vec(roots: Vec<[u8; 32]>) -> Roots
        ensures { result ≡ roots.items }
    {
        Roots(roots)
    }

    /// The roots, with their memory.
    pub fn into_vec(self) -> Vec<[u8; 32]>
        ensures { result.items ≡ self }
    {
        self.0
    }

    /// The roots.
    pub fn as_slice(&self) -> &[[u8; 32]]
        ensures { result.now ≡ self.now }
    {
        self.0.as_slice()
    }

    /// How many roots there are.
    pub fn len(&self) -> usize
        ensures { result ≡ length self.now }
    {
        self.0.len()
    }

    /// Whether there is no root.
    pub fn is_empty(&self) -> bool
        ensures { result ≡ (length self.now == 0) }
    {
        self.0.is_empty()
    }
}
