//! A drive in memory, for tests and drills.
//!
//! [`MemDrive`] keeps its files in maps and tells all that it holds, so each clause of `Drive` on files
//! holds of it. It can be lost and come back, be hurt in one shown byte, be stopped, and have a fuse that lets
//! some calls pass and then fails each; [`Lose`], [`Back`], [`Hurt`] and [`Fuse`] do so to a drive that
//! another type holds, which hands on what each of them does ([`Trouble`](drive_base::Trouble) has it as `befalls`).
//!
//! [`ScriptedDrive`] is a memory drive for tests: it counts its calls by kind, fails those that a [`Script`] says, and tells
//! what it holds, tells nothing, or lies ([`Voice`]).
//!
//! What a caller may rely on besides the trait: a call fails exactly where the drive is lost, where its fuse
//! fails it, or where it finds no memory, which is counted (`starved`), and each failed call raises the
//! count of faults by one. A call that a late fuse fails did all that it does; a call that a spent fuse fails
//! did nothing. A file that is put in place before it was synced is zeros from then on, so that a forgotten
//! `sync` shows.
//!
//! It stands on `drive_base`, which has the traits, and on `fault_base`, which says when a count rose.
#![tactic(auto)]

mod contents;
mod damage;
mod drive;
mod faults;
mod fuse;
mod loose;
mod maps;
mod placed;
mod scripted;
mod troubles;

pub use drive::MemDrive;
pub use fuse::Fuse;
pub use scripted::{Calls, Script, ScriptedDrive, Voice};
pub use troubles::{Back, Hurt, Lose};
