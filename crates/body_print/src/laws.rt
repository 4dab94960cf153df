//! The laws of shards and prints, for a caller's proof.

ghost use Rattle.body_print.specs.Laws.{AnyBlocksGiveEach, HashedAreBytes, JoinedPrint, PrintTextsAreOne, ShardsAreOne, ShardsHaveTheirBlocks, StripesAreAdded, TextTellsCuts};

/// A body has one list of shards, each with the blocks of a shard file of its length; they grow by a block with each stripe, and any D
/// blocks of a stripe give each of its blocks. Cut in one way, a body has one text under its print, and this text tells the cut; the
/// text of a joined manifest is that of the joined body. What is hashed for a print is bytes. It does nothing.
pub fn body_laws()
    ensures one { ShardsAreOne }
    ensures blocks { ShardsHaveTheirBlocks }
    ensures more { StripesAreAdded }
    ensures any { AnyBlocksGiveEach }
    ensures texts { PrintTextsAreOne }
    ensures cuts { TextTellsCuts }
    ensures joined { JoinedPrint }
    ensures bytes { HashedAreBytes }
{}
