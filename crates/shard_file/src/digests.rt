//! Digests of blocks, and roots of shards.

ghost use Rattle.std.specs.Prelude.{◌≡◌, ◌*◌, ℕ, List, IsOk, length, map};
ghost use Rattle.sha2.specs.Sha256.{sha256};
ghost use Rattle.shard_file.specs.Checks.{Checks};
ghost use Rattle.shard_file.specs.Shards.{root_of, table_of};
ghost use Rattle.shard_file.specs.Stripes.{pieces};

use hash_lanes::hash_equal_blocks;
use seal_file::Damage;
use sha2::{Digest, Sha256};

/// The root of the shard that has this digest table, the digests of its blocks joined. A shard of no block
/// has a table of no bytes.
pub fn root(table: &[u8]) -> [u8; 32]
    ensures digest { result ≡ sha256 table.now }
    ensures root { (blocks : List (List ℕ)) → table.now ≡ table_of blocks → result ≡ root_of blocks }
{
    Sha256::digest(table)
}

/// Whether a block is the one of which the digest is stored. The error is `Damage::Digest` with both
/// digests, exactly where they differ.
pub fn check_block(stored: [u8; 32], block: &[u8]) -> Result<(), Damage>
    ensures outcome { Checks stored block.now result }
    ensures intact { stored ≡ sha256 block.now → IsOk result }
{
    let computed = Sha256::digest(block);
    if stored != computed {
        return Err(Damage::Digest { stored, computed });
    }
    Ok(())
}

/// Writes the SHA-256 of each block of a stripe, in order. The blocks have `size` bytes each and stand one
/// after another; there are as many as digests.
pub fn block_digests(bytes: &[u8], size: usize, digests: &mut [[u8; 32]])
    requires { length bytes.now ≡ size * length digests.old }
    ensures { digests.new ≡ map sha256 (pieces size (length digests.old) bytes.now) }
{
    hash_equal_blocks(bytes, size, digests);
}
