//! The print of a body.

ghost use Rattle.std.specs.Prelude.{◌≡◌, ◌≤◌, ◌++◌, List, ℕ, length, map};
ghost use Rattle.std.specs.List.{flat_map};
ghost use Rattle.sha2.specs.Hashers.{Holds256};
ghost use Rattle.manifest_file.specs.Print.{cut_of, cut_bytes, print_of_parts, TextsTellParts, TextsAreBytes};
ghost use Rattle.manifest_file.specs.Spelling.{roots_bytes};
ghost use Rattle.manifest_file.specs.Canonical.{IsCanonical};

use crate::manifest::{Manifest, ManifestPart};
use sha2::{Digest, Sha256};

/// Feeds roots.
fn feed_roots(hasher: &mut Sha256, roots: &[[u8; 32]])
    ensures { (before : List ℕ) → Holds256 hasher.old before → Holds256 hasher.new (before ++ roots_bytes roots.now) }
{
    for root in roots {
        hasher.update(root);
    }
}

/// Feeds the length and the roots of a part.
fn feed_part(hasher: &mut Sha256, part: &ManifestPart)
    ensures { (before : List ℕ) → Holds256 hasher.old before → Holds256 hasher.new (before ++ cut_bytes (cut_of part.now)) }
{
    hasher.update(part.length.to_be_bytes());
    feed_roots(hasher, part.roots.as_slice());
}

/// Feeds the lengths and the roots of parts.
fn feed_parts(hasher: &mut Sha256, parts: &[ManifestPart])
    ensures { (before : List ℕ) → Holds256 hasher.old before → Holds256 hasher.new (before ++ flat_map cut_bytes (map cut_of parts.now)) }
{
    for part in parts {
        feed_part(hasher, part);
    }
}

/// The print of the body of a manifest: the SHA-256 (FIPS 180-4) of a byte for the drives, a byte for the parity, two
/// bytes for the number of parts, and for each part eight bytes for its length, and its roots. The name and the ids of
/// the parts have no share in it. It takes no memory.
pub fn print_of(manifest: &Manifest) -> [u8; 32]
    requires { IsCanonical manifest.now }
    ensures { result ≡ print_of_parts manifest.now.drives manifest.now.parity (map cut_of manifest.now.parts) }
{
    let mut hasher = Sha256::new();
    hasher.update([manifest.drives, manifest.parity]);
    hasher.update((manifest.parts.len() as u16).to_be_bytes());
    feed_parts(&mut hasher, manifest.parts.as_slice());
    hasher.finalize()
}

/// The laws of prints, for a caller's proof: canonical manifests whose prints have one text under SHA-256 agree on the
/// drives, the parity, and the lengths and the roots of their parts, and each such text is made of bytes. It does nothing.
pub fn print_laws()
    ensures tell { TextsTellParts }
    ensures bytes { TextsAreBytes }
{}
