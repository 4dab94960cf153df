//! What the calls that were made of a drive say of its files, where the drive did what it answered.
//!
//! A drive always tells its trail: the calls that were made of it, with their answers. Over a real folder it tells nothing
//! else, since the system may do anything with it. This crate says what follows for a drive that behaved: whose calls, those
//! of all its ways in some one order, lead a model of its files from what they were to what they are. Data that a put wrote
//! there, and of which no other call named a file, is then in place.
//!
//! It stands on `drive_base` for calls and files, and on `body_print` for the names of data. It has laws alone.
#![tactic(auto)]

mod laws;

pub use laws::trail_law;
