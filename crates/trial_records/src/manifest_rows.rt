//! Rows over `manifest_file`.

ghost use Rattle.manifest_file.specs.Canonical.{IsCanonical};

use crate::id_rows::parts;
use crate::seal_rows::fault;
use manifest_file::{
    KIND, Manifest, ManifestPart, Parts, Roots, manifest_laws, print_laws, print_of, read, write,
};
use seal_file::seal;
use std::alloc::Global;
use trial_base::{Names, NoAnswer, bytes, first, number, said, said_bytes};

/// The parts of a manifest, and the roots of all of them.
fn told(alloc: Global, manifest: &Manifest) -> Result<String, NoAnswer> {
    let (drives, parity) = (manifest.drives, manifest.parity);
    let parts = manifest.parts.len();
    let name = said_bytes(alloc, "name ", manifest.name.as_slice())?;
    Ok(format!(in alloc; "{name}, {drives} drives, {parity} parity, {parts} parts")?)
}

/// A part.
fn told_part(alloc: Global, part: &ManifestPart) -> Result<String, NoAnswer> {
    let id = parts(alloc, part.id)?;
    let (length, count) = (part.length, part.roots.len());
    let mut roots = Vec::new(alloc);
    for root in part.roots.as_slice() {
        roots.extend_from_slice(root.as_slice())?;
    }
    let roots = said_bytes(alloc, "", roots.as_slice())?;
    Ok(format!(in alloc; "{id}, {length} bytes, {count} roots {roots}")?)
}

/// The part of this number, from 0.
fn told_nth(alloc: Global, manifest: &Manifest, place: u64) -> Result<String, NoAnswer> {
    for (at, part) in manifest.parts.as_slice().iter().enumerate() {
        if at as u64 == place && !part.roots.is_empty() {
            return told_part(alloc, part);
        }
    }
    said(alloc, "no such part")
}

/// Takes a manifest's lists apart, and counts.
fn apart(alloc: Global, manifest: Manifest) -> Result<String, NoAnswer> {
    let parts = Parts::from_vec(manifest.parts.into_vec());
    let is_empty = parts.is_empty();
    let mut roots: usize = 0;
    for part in parts.into_vec() {
        roots = roots.saturating_add(Roots::from_vec(part.roots.into_vec()).into_vec().len());
    }
    Ok(format!(in alloc; "{roots} roots, empty {is_empty}")?)
}

/// What is asked of a manifest.
fn asked(alloc: Global, call: &str, place: u64, manifest: Manifest) -> Result<String, NoAnswer>
    requires { IsCanonical manifest }
{
    match call {
        "print" => said_bytes(alloc, "", print_of(&manifest).as_slice()),
        "write" => {
            let written = write(alloc, &manifest)?;
            said_bytes(alloc, "", written.as_slice())
        }
        "part" => told_nth(alloc, &manifest, place),
        "apart" => apart(alloc, manifest),
        _ => told(alloc, &manifest),
    }
}

fn of_file(alloc: Global, call: &str, place: u64, file: &[u8]) -> Result<String, NoAnswer> {
    match read(alloc, file) {
        Ok(manifest) => asked(alloc, call, place, manifest),
        Err(of) => fault(alloc, of),
    }
}

pub fn answer(alloc: Global, names: &Names, row: &str) -> Result<String, NoAnswer> {
    let (call, rest) = first(row);
    match call {
        "body" => {
            let body = bytes(alloc, names, rest)?;
            let file = seal(alloc, KIND, body.as_slice())?;
            of_file(alloc, call, 0, file.as_slice())
        }
        "part" => {
            let (place, rest) = first(rest);
            let file = bytes(alloc, names, rest)?;
            of_file(alloc, call, number(place), file.as_slice())
        }
        "laws" => {
            manifest_laws();
            print_laws();
            said(alloc, "done")
        }
        _ => {
            let file = bytes(alloc, names, rest)?;
            of_file(alloc, call, 0, file.as_slice())
        }
    }
}
