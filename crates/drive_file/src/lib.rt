//! A drive over a folder that outlasts a loss of power, a drive that several threads share, and the lock of a folder.
//!
//! [`FileDrive`] keeps a file in place under its name's spelling ([`spelling_laws`]: two names have two) and a loose file
//! under that below `loose`. The set of names is read when the folder is opened, and a call asks it before the system, so a name
//! that the drive knows is never answered `Absent`: where the system doesn't find its file, the call fails and is counted.
//!
//! What lasts is what POSIX says lasts. `sync` waits for the file's fsync. `rename` waits, after the system's rename, for the
//! fsync of the folder and of each folder that has a new one as its entry; `open` does so for each folder that it finds, since a
//! process that was killed may have left entries that only the cache has. Where one of these fails, nobody knows what the disk
//! has, so the drive is lost: every later call fails, until the folder is opened anew. `remove` and `discard` wait for no fsync,
//! so a file that was removed may be back after a loss of power.
//!
//! [`SharedDrive`] is one of several ways to a drive behind a Mutex, each with a count of the faults that it met itself, or the
//! only way to a drive, without a lock, which `share` makes one of several in place: so a program opens drives alone and serves
//! them from several threads, over any drive that is [`Share`]. Ways to one drive have one root, the drive as it was before it
//! was shared, by which a holder of many ways says which drive each of them leads to. [`RootLock`] keeps a second process out of
//! a folder.
//!
//! Below a drive over a folder stands the trait [`Folder`], the calls on paths that a drive makes, each told with its answer. What
//! is trusted is [`SystemFolder`], which passes them on to the system.
//!
//! It is proved that each call meets the trait `Drive`, how a call changes the names that a drive over a folder knows, which calls
//! of its folder it makes, and that its answer is theirs, how a name is spelled, and that a lost or closed drive fails each call.
//! What the system does with a file no contract can say: that is tested on real folders, with each call of the system failing in
//! turn, and `tools/check_durable.sh` shows each fsync. A drive over a folder and a shared one tell nothing of what they hold.
//! They tell each call that was made of them, and what it answered; each way tells its own.
//!
//! The crate stands on `drive_base`, which has the trait and the listing of names, on `fault_base`, which says when a count rose,
//! and on the kit's `core`, `hex` and `thiserror`; two lemmas on `drive_memory`.
#![tactic(auto)]

mod answers;
mod asking;
mod counting;
mod drive;
mod fault;
mod files;
mod folder;
mod folder_trail;
mod folders;
mod lock;
mod names;
mod opening;
mod paths;
mod root_lock;
mod share;
mod shared;
mod system;

pub use drive::FileDrive;
pub use fault::FileFault;
pub use folder::Folder;
pub use paths::spelling_laws;
pub use root_lock::{LockFault, RootLock};
pub use share::Share;
pub use shared::SharedDrive;
pub use system::SystemFolder;
