//! The laws of what calls owe.

ghost use Rattle.receipts.specs.Asking.{PutsAskDrives, PutsReachAll, RefusedReadsAskDrives};
ghost use Rattle.receipts.specs.Laws.{CutBodyChangesNothing, NotesAreOwed, OutcomesAreOne, PayIsTold, ReceiptShowsAct};
ghost use Rattle.receipts.specs.Laws.{BodiesJoin, CallsJoin, CutsJoin, NotesJoin, SectionsJoin, TalesJoin};
ghost use Rattle.receipts.specs.PartLaws.{PartIsStored, PartTellsTag, PartsAskDrives, QuietKeepsPart};
ghost use Rattle.receipts.specs.Laws.{QuietKeepsNotes, QuietKeepsPay, QuietKeepsReply};

/// Each reading of two logs in a row is that of the first and then that of the second. It does nothing.
pub fn join_law()
    ensures sections { SectionsJoin }
    ensures notes { NotesJoin }
    ensures bodies { BodiesJoin }
    ensures tales { TalesJoin }
    ensures cuts { CutsJoin }
    ensures calls { CallsJoin }
{}

/// Quiet events leave the notes, the reply that is owed, and what is paid. It does nothing.
pub fn quiet_law()
    ensures notes { QuietKeepsNotes }
    ensures reply { QuietKeepsReply }
    ensures pays { QuietKeepsPay }
{}

/// One log has one outcome, what is paid is told as a desk must, and a call that is cut before its body is whole changed nothing. It does nothing.
pub fn outcome_law()
    ensures one { OutcomesAreOne }
    ensures told { PayIsTold }
    ensures cut { CutBodyChangesNothing }
{}

/// The act of a receipt is the call's, and its notes are those by which the reply was owed. It does nothing.
pub fn act_law()
    ensures act { ReceiptShowsAct }
    ensures notes { NotesAreOwed }
{}

/// Whatever drives tell, no body is put by a log that has no call of a data drive. Where one is put each drive in use took its shard and its manifest, but where
/// a call of it failed or it forgot. And no read is refused for want of manifests by a log that leaves a drive in use uncalled. It does nothing.
pub fn asking_law()
    ensures puts { PutsAskDrives }
    ensures all { PutsReachAll }
    ensures reads { RefusedReadsAskDrives }
{}

/// What is owed to an UploadPart stays owed over quiet events. Where its reply isn't a refusal it tells the MD5 of exactly its body, some note has the store of that
/// body's part, and data drives were called. It does nothing.
pub fn part_law()
    ensures stays { QuietKeepsPart }
    ensures tag { PartTellsTag }
    ensures stored { PartIsStored }
    ensures asks { PartsAskDrives }
{}
