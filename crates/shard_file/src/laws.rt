//! The laws of stripes and shard files, for a caller's proof.

ghost use Rattle.shard_file.specs.Laws.{StripesAreTheBody, StripesHaveLengths, DataBlocksArePadded, DataBlocksAreTheStripe, DataBlocksHaveOneSize, ShardFilesHaveLength, ShardFilesHoldBlocks, DigestsEndTheFile, WholeBlocksAdjoin, BodiesHaveShards};

/// A body is its stripes and a stripe its data blocks, in the numbers and lengths that follow from the
/// body's length; a shard file has its blocks and digests at their places and ends with them, and the blocks of whole
/// stripes adjoin in it. It does nothing.
pub fn shard_laws()
    ensures stripes { StripesAreTheBody }
    ensures stripe_lengths { StripesHaveLengths }
    ensures padded { DataBlocksArePadded }
    ensures stripe { DataBlocksAreTheStripe }
    ensures blocks { DataBlocksHaveOneSize }
    ensures shards { BodiesHaveShards }
    ensures file { ShardFilesHaveLength }
    ensures held { ShardFilesHoldBlocks }
    ensures digests { DigestsEndTheFile }
    ensures adjoin { WholeBlocksAdjoin }
{}
