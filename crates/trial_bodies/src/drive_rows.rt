//! Rows over the drives of a set: what befalls them, and what they show.

ghost use Rattle.std.specs.Prelude.{◌≤◌, length};

use crate::bodies::Bodies;
use crate::others::{LOST, MANIFEST, SHARD};
use crate::told::told_bytes;
use crate::watched::Watched;
use drive_base::{Drive, DriveSet, LONGEST_NAME, SetPlan};
use drive_memory::{MemDrive, Script};
use sha2::{Digest, Sha256};
use std::alloc::Global;
use trial_base::{Names, NoAnswer, bytes, first, number, said, said_bytes, said_number, word, yes};

/// The plan of a set of so many drives, of which so many are parity and these are out.
fn plan(drives: u64, parity: u64, out: u64) -> Option<SetPlan> {
    if drives < 4 || drives > 16 || parity < 1 || parity > 8 || parity + parity > drives {
        return None;
    }
    let mut set = SetPlan::new([7; 16], drives as u8, parity as u8);
    set.out = DriveSet::from_mask(out.min(0xffff) as u16);
    Some(set)
}

/// `plan DRIVES PARITY OUT`: the set from now on, of which the drives in a mask are out, and how many drives a read and a
/// write need. `new` makes fresh drives too.
fn turn(bodies: &mut Bodies, alloc: Global, row: &str) -> Result<String, NoAnswer> {
    let (drives, parity) = (number(word(row, 1)), number(word(row, 2)));
    let Some(set) = plan(drives, parity, number(word(row, 3))) else {
        return said(alloc, "no such set");
    };
    bodies.set = set;
    if word(row, 0) == "new" {
        bodies.drives.clear();
        for _ in 0..set.drives {
            bodies.drives.push(Watched::new(alloc))?;
        }
    }
    let (read, write) = (set.read_quorum(), set.write_quorum());
    Ok(format!(in alloc; "reads {read}, writes {write}")?)
}

/// The script of a row: `pass`, `lost`, `writes`, or `calls FIRST COUNT`.
fn script(row: &str) -> Option<Script> {
    match word(row, 2) {
        "pass" => Some(Script::Pass),
        "lost" => Some(LOST),
        "writes" => Some(Script::Writes),
        "calls" => Some(Script::Calls {
            first: number(word(row, 3)),
            count: number(word(row, 4)),
        }),
        _ => None,
    }
}

/// `follow PLACE SCRIPT`: which calls of a drive fail from now on, and how many failed so far.
fn follow(alloc: Global, drive: &mut Watched, row: &str) -> Result<String, NoAnswer> {
    let Some(script) = script(row) else {
        return said(alloc, "no such script");
    };
    drive.drive.follow(script);
    said_number(alloc, "faults ", drive.drive.faults())
}

/// The calls of a drive: `size`, `read`, `append`, `sync`, `rename`, `discard`, `remove` and `names`, and its faults.
fn count(alloc: Global, drive: &Watched) -> Result<String, NoAnswer> {
    let calls = drive.drive.calls();
    let faults = drive.drive.faults();
    let (size, read, append, sync) = (calls.size, calls.read, calls.append, calls.sync);
    let (rename, discard, remove, names) = (calls.rename, calls.discard, calls.remove, calls.names);
    Ok(format!(in alloc;
        "{size} {read} {append} {sync} {rename} {discard} {remove} {names} faults {faults}"
    )?)
}

/// The bytes that a drive shows under a name.
fn shown(alloc: Global, drive: &mut MemDrive, name: &str) -> Result<Option<Vec<u8>>, NoAnswer> {
    let Ok(size) = drive.size(name) else {
        return Ok(None);
    };
    let mut found = vec![in alloc; 0; size.min(1 << 32) as usize]?;
    match drive.read(name, 0, &mut found) {
        Ok(count) => {
            found.truncate(count);
            Ok(Some(found))
        }
        Err(_) => Ok(None),
    }
}

/// Puts a file in place on a drive, and tells its length.
fn place(
    alloc: Global,
    drive: &mut MemDrive,
    name: &str,
    bytes: &[u8],
) -> Result<String, NoAnswer> {
    if name.len() > LONGEST_NAME {
        return said(alloc, "the name is too long");
    }
    let _ = drive.append("loose", bytes);
    let _ = drive.sync("loose");
    let _ = drive.rename("loose", name);
    match drive.size(name) {
        Ok(size) => said_number(alloc, "bytes ", size),
        Err(_) => said(alloc, "absent"),
    }
}

/// `damage PLACE NAME BYTE`: puts a file in place anew, with the lowest bit of a byte changed.
fn damage(alloc: Global, drive: &mut MemDrive, name: &str, at: u64) -> Result<String, NoAnswer> {
    let Some(mut bytes) = shown(alloc, drive, name)? else {
        return said(alloc, "absent");
    };
    for (place, byte) in bytes.iter_mut().enumerate() {
        if place as u64 == at {
            *byte ^= 1;
        }
    }
    place(alloc, drive, name, bytes.as_slice())
}

/// Adds a file that is shown to a digest.
fn add(
    alloc: Global,
    hasher: &mut Sha256,
    drive: &mut MemDrive,
    name: &str,
) -> Result<(), NoAnswer> {
    if let Some(bytes) = shown(alloc, drive, name)? {
        hasher.update(bytes.as_slice());
    }
    Ok(())
}

/// `digest PLACE..`: the SHA-256 of the files of these drives in order, on each the shard file and then the manifest.
fn digest(alloc: Global, drives: &mut [Watched], words: &str) -> Result<String, NoAnswer> {
    let mut hasher = Sha256::new();
    for word in words.split(' ') {
        if let Some(drive) = drives.get_mut(number(word).min(16) as usize) {
            add(alloc, &mut hasher, drive.drive.behind(), SHARD)?;
            add(alloc, &mut hasher, drive.drive.behind(), MANIFEST)?;
        }
    }
    said_bytes(alloc, "", hasher.finalize().as_slice())
}

/// `file PLACE NAME`: the bytes that a drive shows.
fn file(alloc: Global, drive: &mut MemDrive, name: &str) -> Result<String, NoAnswer> {
    match shown(alloc, drive, name)? {
        Some(bytes) => told_bytes(alloc, bytes.as_slice()),
        None => said(alloc, "absent"),
    }
}

/// The rows of one drive.
fn of_drive(
    alloc: Global,
    names: &Names,
    drive: &mut Watched,
    row: &str,
) -> Result<String, NoAnswer> {
    let name = word(row, 2);
    match word(row, 0) {
        "follow" => follow(alloc, drive, row),
        "count" => count(alloc, drive),
        "file" => file(alloc, drive.drive.behind(), name),
        "place" => {
            let content = bytes(alloc, names, word(row, 3))?;
            place(alloc, drive.drive.behind(), name, content.as_slice())
        }
        "damage" => damage(alloc, drive.drive.behind(), name, number(word(row, 3))),
        "hurt" => yes(alloc, drive.drive.behind().hurt(name, number(word(row, 3)))),
        _ => said(alloc, "no such call"),
    }
}

pub fn answer(
    bodies: &mut Bodies,
    alloc: Global,
    names: &Names,
    row: &str,
) -> Result<String, NoAnswer> {
    match word(row, 0) {
        "new" | "plan" => turn(bodies, alloc, row),
        "digest" => digest(alloc, bodies.drives.as_mut_slice(), first(row).1),
        _ => match bodies.drives.get_mut(number(word(row, 1)).min(16) as usize) {
            Some(drive) => of_drive(alloc, names, drive, row),
            None => said(alloc, "no such drive"),
        },
    }
}
