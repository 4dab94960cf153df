//! The laws of a slot's data while data drives are written.

ghost use Rattle.slot_data.specs.DiskLaws.{ElsewhereIsWritten, FlightWrites, TakenIsRemoved};

/// It goes on to stand while a put under way writes.
pub fn flight_write_law()
    ensures { FlightWrites }
{}

/// It stands while an op removes files of data that it took.
pub fn removed_law()
    ensures { TakenIsRemoved }
{}

/// It stands while ops of other slots write and remove.
pub fn elsewhere_law()
    ensures { ElsewhereIsWritten }
{}
