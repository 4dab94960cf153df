//! What the drives of a store keep.

use drive_base::Drive;
use drive_memory::MemDrive;
use std::alloc::Global;
use trial_base::{NoAnswer, first, number, said};
use trial_rig::{Store, open_home};

/// Puts the name and the bytes of one file of a drive behind the others.
fn push_file(
    alloc: Global,
    out: &mut Vec<u8>,
    drive: &mut MemDrive,
    name: &str,
) -> Result<(), NoAnswer> {
    let Ok(size) = drive.size(name) else {
        return Err(NoAnswer);
    };
    let mut found = vec![in alloc; 0; size as usize]?;
    if drive.read(name, 0, &mut found).is_err() {
        return Err(NoAnswer);
    }
    out.extend_from_slice(name.as_bytes())?;
    out.push(0)?;
    out.extend_from_slice(&size.to_be_bytes())?;
    out.extend_from_slice(&found)?;
    Ok(())
}

/// Puts the files of each drive behind the others, in the order of their names, and says how many they are.
fn push_files(alloc: Global, out: &mut Vec<u8>, drives: &mut [MemDrive]) -> Result<u64, NoAnswer> {
    let mut count = 0u64;
    for drive in drives.iter_mut() {
        let Ok(names) = drive.names(alloc, "", 1000) else {
            return Err(NoAnswer);
        };
        for name in names {
            push_file(alloc, out, drive, name.as_str())?;
            count = count.saturating_add(1);
        }
        out.push(0)?;
    }
    Ok(count)
}

/// What the drives of a store keep.
#[derive(Drop)]
pub struct Kept {
    /// The names and the bytes of the files, as one text.
    pub files: Vec<u8>,
    /// How many files lanes have.
    pub lanes: u64,
    /// How many files data drives have.
    pub disks: u64,
}

/// What the drives of a store keep, whose one slot is closed for good.
pub fn kept_by(alloc: Global, store: &mut Store) -> Result<Kept, NoAnswer> {
    let Some(home) = store.homes.pop() else {
        return Err(NoAnswer);
    };
    let mut parts = home.slot.close();
    let mut files = Vec::new(alloc);
    let lanes = push_files(alloc, &mut files, parts.lanes.as_mut_slice())?;
    let disks = push_files(alloc, &mut files, store.disks.as_mut_slice())?;
    Ok(Kept {
        files,
        lanes,
        disks,
    })
}

/// Stops each drive.
fn stop_each(drives: &mut [MemDrive]) {
    for drive in drives.iter_mut() {
        drive.stop();
    }
}

/// `stop TERM`: stops the store and each of its drives, and opens its slot in the next life, under this term.
fn stop(alloc: Global, store: &mut Store, term: u64) -> Result<String, NoAnswer> {
    let Some(home) = store.homes.pop() else {
        return said(alloc, "no slot is open");
    };
    let (set, index) = (home.set, home.index);
    let mut parts = home.slot.close();
    stop_each(parts.lanes.as_mut_slice());
    stop_each(store.disks.as_mut_slice());
    let home = open_home(alloc, set, index, term, parts)?;
    store.homes.push(home)?;
    said(alloc, "opened")
}

/// How many files the data drives show.
fn data(alloc: Global, store: &mut Store) -> Result<String, NoAnswer> {
    let mut files = Vec::new(alloc);
    let count = push_files(alloc, &mut files, store.disks.as_mut_slice())?;
    Ok(format!(in alloc; "{count} files")?)
}

/// Compares what the drives keep with what was kept before, which it takes the place of. The slot is closed for good.
fn same(alloc: Global, store: &mut Store, before: &mut Vec<u8>) -> Result<String, NoAnswer> {
    let Kept { files, .. } = kept_by(alloc, store)?;
    let is_same = files.as_slice() == before.as_slice();
    let (found, wanted) = (files.len(), before.len());
    *before = files;
    if is_same {
        return said(alloc, "the same");
    }
    Ok(format!(in alloc; "others, {found} bytes in place of {wanted}")?)
}

/// Rows over `drive_memory`: `stop TERM`, `data`, `keep`, and `same`.
pub fn answer(
    alloc: Global,
    store: &mut Store,
    before: &mut Vec<u8>,
    row: &str,
) -> Result<String, NoAnswer> {
    let (call, term) = first(row);
    match call {
        "stop" => stop(alloc, store, number(term)),
        "data" => data(alloc, store),
        "keep" => {
            let Kept {
                files,
                lanes,
                disks,
            } = kept_by(alloc, store)?;
            *before = files;
            Ok(format!(in alloc; "{lanes} of lanes, {disks} of data")?)
        }
        "same" => same(alloc, store, before),
        _ => said(alloc, "no such call"),
    }
}
