//! The data of a slot: which data is live, what keeps it, and when it stands.
//!
//! A slot keeps in memory the puts that are under way, the pins of reads, heals and Completes, and the ids of data that is trash
//! (`specs/Holding.antt`). Data drives keep manifests and shards under ids (`specs/Disks.antt`). Data is held where a register names it, a change on
//! its way adds it, its put is under way or a Complete has a pin of it, and so are the parts in its manifest; it is live where it is held or a read
//! or a heal has a pin of it (`specs/Live.antt`). The data of a slot stands (`specs/Standing.antt`) where what is named, coming or pinned has its
//! holders, nothing that is trash is held, and nothing that an op is to remove is live.
//!
//! The laws say that it goes on to stand through what sections do in memory (`specs/Moves.antt`, `specs/Laws.antt`) and on the lanes
//! (`specs/Bringing.antt`, `specs/LaneLaws.antt`), and through what ops do on data drives: a put writes under its own id, an op removes what it took,
//! and ops of other slots do either (`specs/DiskLaws.antt`). What a heal writes is not among them. The crate is definitions and laws, and the rows of
//! a slot's memory with the tests of what stands in them: no drive is called here, and each law is the contract of a function that does nothing. It
//! stands on `slot_history` for what lanes stand for, and on `body_print` and `manifest_file` for what drives keep.
#![tactic(auto)]

mod disk_laws;
mod laws;
mod rows;

pub use disk_laws::{elsewhere_law, flight_write_law, removed_law};
pub use laws::{
    again_data_laws, flight_laws, fresh_data_law, hands_laws, out_law, own_data_laws, pin_laws,
};
pub use rows::{FlightRow, PinFor, PinRow, is_in_flight, is_pinned, row_laws};
