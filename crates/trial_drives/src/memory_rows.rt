//! Rows over `drive_memory`: a drive in memory, and what befalls it.

ghost use Rattle.std.specs.Prelude.{◌≡◌, true};
ghost use Rattle.drive_base.specs.Files.{no_files};
ghost use Rattle.drive_memory.specs.MemDrive.{files_of, is_lost};

use crate::steps::{self, spelled};
use drive_base::{Drive, Trouble};
use drive_memory::{Back, Fuse, Hurt, Lose, MemDrive};
use std::alloc::Global;
use trial_base::{Names, NoAnswer, first, number, said, said_number, word, yes};

/// A value that another thread may have.
fn sent<T: Send>(value: T) -> T
    ensures { result ≡ value }
{
    value
}

/// A new drive as a caller at this very type sees it, which may go to another thread.
pub fn fresh(alloc: Global) -> MemDrive
    ensures files { ⟦<MemDrive as Drive>⟧.files result ≡ no_files }
    ensures count { ⟦<MemDrive as Drive>⟧.count result ≡ 0 }
{
    sent(MemDrive::new(alloc))
}

/// Strikes a drive, as a holder of some drive does, and hands on what that did.
fn hold<D: Drive, T: Trouble<D>>(drive: &mut D, trouble: &mut T) -> bool
    ensures { T.befalls trouble.old drive.old result drive.new }
{
    trouble.strike(drive)
}

/// Loses a drive through its holder, which says that it is lost and shows what it showed.
fn lose_held(drive: &mut MemDrive) -> bool
    ensures lost { is_lost drive.new ≡ true }
    ensures shown { (files_of drive.new).shown ≡ (files_of drive.old).shown }
{
    hold(drive, &mut Lose)
}

/// The fuse `CALLS early` or `CALLS late`.
fn fuse(row: &str) -> Option<Fuse> {
    let late = match word(row, 1) {
        "early" => false,
        "late" => true,
        _ => return None,
    };
    Some(Fuse {
        calls: number(word(row, 0)),
        late,
    })
}

/// `strike TROUBLE WORDS`: whether it struck, through a holder.
fn strike(
    alloc: Global,
    names: &Names,
    drive: &mut MemDrive,
    row: &str,
) -> Result<String, NoAnswer> {
    let (trouble, rest) = first(row);
    match trouble {
        "lose" => yes(alloc, lose_held(drive)),
        "back" => yes(alloc, hold(drive, &mut Back)),
        "fuse" => match fuse(rest) {
            Some(mut fuse) => yes(alloc, hold(drive, &mut fuse)),
            None => said(alloc, "no such fuse"),
        },
        "hurt" => {
            let name = String::from_str(alloc, spelled(names, word(rest, 0)))?;
            let place = number(word(rest, 1));
            yes(alloc, hold(drive, &mut Hurt { name, place }))
        }
        _ => said(alloc, "no such trouble"),
    }
}

/// `fuse CALLS early` or `fuse CALLS late`
fn set_fuse(alloc: Global, drive: &mut MemDrive, row: &str) -> Result<String, NoAnswer> {
    match fuse(row) {
        Some(Fuse { calls, late }) => {
            drive.fuse(calls, late);
            said(alloc, "set")
        }
        None => said(alloc, "no such fuse"),
    }
}

/// What a drive was told, or a step of it gave.
pub fn answer(
    alloc: Global,
    names: &Names,
    drive: &mut MemDrive,
    row: &str,
) -> Result<String, NoAnswer> {
    let (call, rest) = first(row);
    match call {
        "new" => {
            *drive = fresh(alloc);
            said_number(alloc, "faults ", drive.faults())
        }
        "lose" => {
            drive.lose();
            yes(alloc, drive.is_lost())
        }
        "back" => {
            drive.back();
            yes(alloc, drive.is_lost())
        }
        "is_lost" => yes(alloc, drive.is_lost()),
        "fuse" => set_fuse(alloc, drive, rest),
        "hurt" => {
            let there = drive.hurt(spelled(names, word(rest, 0)), number(word(rest, 1)));
            yes(alloc, there)
        }
        "stop" => {
            drive.stop();
            said(alloc, "stopped")
        }
        "strike" => strike(alloc, names, drive, rest),
        "starved" => said_number(alloc, "", drive.starved()),
        _ => steps::answer(alloc, names, drive, row),
    }
}
