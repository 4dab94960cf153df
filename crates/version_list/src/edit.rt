//! Changes of a list of versions.

ghost use Rattle.std.specs.Prelude.{◌≡◌, ◌<◌, ◌⊎◌, ◌↔◌, ◌&&◌, true, ◌∷◌, ◌++◌, Some, length, IfOk, OnOk, IsTrue, IsNone};
ghost use Rattle.std.specs.List.{list_any};
ghost use Rattle.version_list.specs.Naming.{has_name, is_named, is_marker, kept};
ghost use Rattle.version_list.specs.Gone.{gone_bytes};
ghost use Rattle.version_list.specs.Step as step;

use crate::gone::gone;
use crate::same::is_same;
use call_types::{Mode, Version, VersionName, Versions, What};
use fault_base::NoMemory;
use seal_file::Bytes;
use stamp_id::VersionId;
use std::alloc::Global;

/// The name of a new version.
pub fn new_name(mode: Mode, id: VersionId) -> VersionName
    ensures { result ≡ step.new_name mode id }
{
    match mode {
        Mode::Never => VersionName::Null,
        Mode::Enabled => VersionName::Id(id),
        Mode::Suspended => VersionName::Null,
    }
}

/// The name of the versions that a new one replaces.
pub fn replaced(mode: Mode) -> Option<VersionName>
    ensures { result ≡ step.replaced mode }
{
    match mode {
        Mode::Never => Some(VersionName::Null),
        Mode::Enabled => None,
        Mode::Suspended => Some(VersionName::Null),
    }
}

/// The name that a reply tells of a version.
pub fn told(mode: Mode, name: VersionName) -> Option<VersionName>
    ensures { result ≡ step.told mode name }
{
    match mode {
        Mode::Never => None,
        Mode::Enabled => Some(name),
        Mode::Suspended => Some(name),
    }
}

/// Whether the version has this name.
pub fn is_named(version: &Version, name: Option<VersionName>) -> bool
    ensures { result ≡ is_named name version.now }
{
    match name {
        None => false,
        Some(name) => version.id == name,
    }
}

/// Whether a version of the list has this name.
pub fn any_named(versions: &[Version], name: VersionName) -> bool
    ensures { result ≡ list_any (has_name name) versions.now }
{
    versions.iter().any(|version| version.id == name)
}

/// Whether a marker of the list has this name.
pub fn any_marker_named(versions: &[Version], name: VersionName) -> bool
    ensures { result ≡ list_any (λ v. has_name name v && is_marker v.what) versions.now }
{
    versions
        .iter()
        .any(|version| version.id == name && is_marker(&version.what))
}

fn is_marker(what: &What) -> bool
    ensures { result ≡ is_marker what.now }
{
    match what {
        What::Marker => true,
        What::Object { .. } => false,
    }
}

/// How many versions stay where those of this name go.
pub fn count_kept(versions: &[Version], goes: Option<VersionName>) -> usize
    ensures { result ≡ length (kept goes versions.now) }
{
    versions
        .iter()
        .filter(|version| !is_named(version, goes))
        .count()
}

/// A new list of versions, and the ids of the data that the old one had and the new one has not.
#[derive(Drop)]
pub struct Edited {
    pub versions: Versions,
    pub gone: Bytes,
}

/// The versions that stay where those of the name `goes` go.
pub fn without(
    alloc: Global,
    versions: &[Version],
    goes: Option<VersionName>,
) -> Result<Edited, NoMemory>
    ensures versions { IfOk result (λ edited. edited.versions ≡ kept goes versions.now) }
    ensures gone { IfOk result (λ edited. edited.gone ≡ gone_bytes versions.now edited.versions) }
{
    let mut list = Vec::with_capacity(alloc, versions.len())?;
    push_kept(&mut list, versions, goes)?;
    let gone = gone(alloc, versions, list.as_slice(), goes)?;
    Ok(Edited {
        versions: Versions::from_vec(list),
        gone,
    })
}

/// The version in front of those that stay where those of the name `goes` go.
pub fn with_front(
    alloc: Global,
    front: Version,
    versions: &[Version],
    goes: Option<VersionName>,
) -> Result<Edited, NoMemory>
    ensures versions { IfOk result (λ edited. edited.versions ≡ front ∷ kept goes versions.now) }
    ensures gone { IfOk result (λ edited. edited.gone ≡ gone_bytes versions.now edited.versions) }
{
    let mut list = Vec::with_capacity(alloc, versions.len() + 1)?;
    list.push(front)?;
    push_kept(&mut list, versions, goes)?;
    let gone = gone(alloc, versions, list.as_slice(), goes)?;
    Ok(Edited {
        versions: Versions::from_vec(list),
        gone,
    })
}

fn push_kept(
    list: &mut Vec<Version>,
    versions: &[Version],
    goes: Option<VersionName>,
) -> Result<(), NoMemory>
    ensures { OnOk result (list.new.items ≡ list.old.items ++ kept goes versions.now) }
{
    for version in versions {
        if !is_named(version, goes) {
            let copy = version.clone()?;
            list.push(copy)?;
        }
    }
    Ok(())
}

/// Whether the list is the same with this version in front of those that stay. Where versions go, the new one has
/// their name.
pub fn is_unchanged_by(front: &Version, versions: &[Version], goes: Option<VersionName>) -> bool
    requires { IsNone goes ⊎ (is_named goes front.now ≡ true) }
    ensures { IsTrue result ↔ (front.now ∷ kept goes versions.now ≡ versions.now) }
{
    match versions.split_first() {
        None => false,
        Some((first, rest)) => is_front_again(front, first, rest, goes),
    }
}

fn is_front_again(
    front: &Version,
    first: &Version,
    rest: &[Version],
    goes: Option<VersionName>,
) -> bool
    requires { IsNone goes ⊎ (is_named goes front.now ≡ true) }
    ensures { IsTrue result ↔ (front.now ∷ kept goes (first.now ∷ rest.now) ≡ first.now ∷ rest.now) }
{
    if !is_named(first, goes) {
        return false;
    }
    if count_kept(rest, goes) != rest.len() {
        return false;
    }
    is_same(front, first)
}
