//! Where blocks and digests stand.

ghost use Rattle.std.specs.Prelude.{◌≡◌, ◌+◌, ◌*◌, ◌^◌, ◌<◌, ◌≤◌};
ghost use Rattle.drive_base.specs.Plan.{data_drives};
ghost use Rattle.shard_file.specs.Stripes.{block_size, stripe_length};
ghost use Rattle.shard_file.specs.Shards.{block_place, digest_place, file_length, table_place};

use drive_base::SetPlan;

/// The bytes of a whole stripe of a body.
pub const STRIPE: u64 = 1_048_576;

/// The bytes of a digest.
const DIGEST: u64 = 32;

/// Where a stripe's block and its digest stand in a shard file, in bytes from the front.
#[derive(Clone, Copy, PartialEq, Eq)]
pub struct Place {
    /// Where the block begins.
    pub block: u64,
    /// How many bytes the block has.
    pub length: u64,
    /// Where the 32 bytes of the block's digest begin.
    pub digest: u64,
}

/// The bytes of each block of a stripe of so many bytes: as few as D blocks need to hold it.
pub fn block_len(set: &SetPlan, stripe: u64) -> u64
    ensures size { result ≡ block_size (data_drives set.now.drives set.now.parity) stripe }
    ensures enough { stripe ≤ data_drives set.now.drives set.now.parity * result }
    ensures few { data_drives set.now.drives set.now.parity * result < stripe + data_drives set.now.drives set.now.parity }
    ensures half { result + result ≤ stripe + 1 }
{
    stripe.div_ceil(set.read_quorum() as u64)
}

/// The bytes of the blocks in each shard file of a body of so many bytes. The digest table begins there.
fn blocks_len(set: &SetPlan, length: u64) -> u64
    ensures place { result ≡ table_place (data_drives set.now.drives set.now.parity) length }
    ensures small { result ≤ 9223372036855037952 }
{
    length / STRIPE * block_len(set, STRIPE) + block_len(set, length % STRIPE)
}

/// The bytes of each shard file of a body of so many bytes.
pub fn file_len(set: &SetPlan, length: u64) -> u64
    ensures { result ≡ file_length (data_drives set.now.drives set.now.parity) length }
{
    blocks_len(set, length) + DIGEST * length.div_ceil(STRIPE)
}

/// Where the block of a stripe and its digest stand in each shard file of a body of so many bytes. Stripes
/// count from 0. The digests of the later stripes follow that of this one, up to the file's end, so that the
/// place of the first one is that of the digest table.
pub fn layout(set: &SetPlan, length: u64, stripe: u64) -> Place
    requires { stripe * STRIPE < length }
    ensures block { result.block ≡ block_place (data_drives set.now.drives set.now.parity) stripe }
    ensures length { result.length ≡ block_size (data_drives set.now.drives set.now.parity) (stripe_length length stripe) }
    ensures digest { result.digest ≡ digest_place (data_drives set.now.drives set.now.parity) length stripe }
    ensures apart { result.block + result.length ≤ result.digest }
    ensures fits { result.digest + 32 < 2 ^ 64 }
{
    Place {
        block: stripe * block_len(set, STRIPE),
        length: block_len(set, (length - stripe * STRIPE).min(STRIPE)),
        digest: blocks_len(set, length) + stripe * DIGEST,
    }
}
