//! The part, the stripe and the window that a reader turns to at a place of a body.

ghost use Rattle.std.specs.Prelude.{◌≡◌, ◌<◌, ◌≤◌, ◌+◌, ◌*◌, All, IfOk, [], length, slice_index_or, take};
ghost use Rattle.std.specs.Int.{IsBitSet};
ghost use Rattle.manifest_file.specs.declared.manifest.ManifestPart.{ManifestPart};
ghost use Rattle.shard_file.specs.Stripes.{stripe_size};
ghost use Rattle.get_read.specs.Progress.{Suits};
ghost use Rattle.get_read.specs.Causes.{body_length};
ghost use Rattle.get_read.specs.Turns.{BeginsAt, HasNoRuns, HasNoTables, HoldsNone, IsFreshAt, IsPartAt, IsPartOn};
ghost use Rattle.get_read.specs.Windows.{FitsAhead};

use crate::fetch::Fetching;
use crate::search::Wanted;
use crate::state::{Asked, PartWork, StripeWork};
use crate::window::Window;
use body_print::name_of_shard;
use drive_base::SetPlan;
use fault_base::NoMemory;
use manifest_file::{Manifest, ManifestPart};
use shard_file::{STRIPE, block_len};
use std::alloc::{AllocError, Global};

/// The stripe in which a span begins.
pub fn first_stripe(alloc: Global, asked: Asked, manifest: Manifest) -> Result<Fetching, NoMemory>
    requires some { 0 < asked.span.length }
    requires suits { Suits asked manifest }
    ensures { IfOk result (λ fetching. BeginsAt asked manifest asked.span.at fetching × HoldsNone fetching) }
{
    let at = asked.span.at;
    let part = part_at(alloc, &asked.wanted.set, manifest.parts.as_slice(), at)?;
    Ok(fetch_of(alloc, asked, manifest, part, at))
}

/// The next stripe, in which a place is.
pub fn next_stripe(alloc: Global, fetching: Fetching, at: u64) -> Result<Fetching, NoMemory>
    requires after { fetching.at ≤ at }
    requires before { at < fetching.asked.wanted.reach }
    ensures { IfOk result (λ next. BeginsAt fetching.asked fetching.manifest at next × IsPartOn next.asked.wanted.set.drives fetching.part at next.part) }
{
    let Fetching {
        asked,
        manifest,
        at: _,
        part,
        work: _,
        ahead: _,
    } = fetching;
    fetch_near(alloc, asked, manifest, part, at)
}

/// The stripe of a manifest in which a place is, near this part.
fn fetch_near(
    alloc: Global,
    asked: Asked,
    manifest: Manifest,
    part: PartWork,
    at: u64,
) -> Result<Fetching, NoMemory>
    requires roots { All (λ part. length part.roots ≡ asked.wanted.set.drives) manifest.parts }
    requires reaches { asked.wanted.reach ≤ body_length manifest.parts }
    requires is { IsPartAt manifest.parts part.begin part }
    requires tables { length part.tables.items ≡ asked.wanted.set.drives }
    requires begun { part.begin ≤ at }
    requires after { asked.span.at ≤ at }
    requires before { at < asked.wanted.reach }
    ensures next { IfOk result (λ next. BeginsAt asked manifest at next) }
    ensures held { IfOk result (λ next. IsPartOn next.asked.wanted.set.drives part at next.part) }
{
    let next = part_on(
        alloc,
        &asked.wanted.set,
        manifest.parts.as_slice(),
        part,
        at,
    )?;
    Ok(fetch_of(alloc, asked, manifest, next, at))
}

/// The reading of the stripe of this part in which a place is. No call is made.
fn fetch_of(alloc: Global, asked: Asked, manifest: Manifest, part: PartWork, at: u64) -> Fetching
    requires roots { All (λ part. length part.roots ≡ asked.wanted.set.drives) manifest.parts }
    requires reaches { asked.wanted.reach ≤ body_length manifest.parts }
    requires is { IsPartAt manifest.parts at part }
    requires tables { length part.tables.items ≡ asked.wanted.set.drives }
    requires after { asked.span.at ≤ at }
    requires before { at < asked.wanted.reach }
    ensures begins { BeginsAt asked manifest at result }
    ensures part { result.part ≡ part }
{
    let work = stripe_at(alloc, &asked.wanted.set, &part, at);
    let ahead = window_at(alloc, &asked.wanted, &part, &work);
    Fetching {
        asked,
        manifest,
        at,
        part,
        work,
        ahead,
    }
}

/// The same part, with its tables, where a place is in it, or else the one in which it is.
fn part_on(
    alloc: Global,
    set: &SetPlan,
    parts: &[ManifestPart],
    part: PartWork,
    at: u64,
) -> Result<PartWork, AllocError>
    requires is { IsPartAt parts.now part.begin part }
    requires begun { part.begin ≤ at }
    requires inside { at < body_length parts.now }
    ensures is { IfOk result (λ next. IsPartAt parts.now at next) }
    ensures held { IfOk result (λ next. IsPartOn set.now.drives part at next) }
{
    if at - part.begin < part.long {
        return Ok(part);
    }
    part_at(alloc, set, parts, at)
}

/// The part in which a place is, of which no table is held.
fn part_at(
    alloc: Global,
    set: &SetPlan,
    parts: &[ManifestPart],
    at: u64,
) -> Result<PartWork, AllocError>
    requires { at < body_length parts.now }
    ensures is { IfOk result (λ part. IsPartAt parts.now at part) }
    ensures none { IfOk result (λ part. HasNoTables set.now.drives part) }
{
    let (place, begin) = part_with(parts, at);
    let part = &parts[place];
    let name = name_of_shard(alloc, part.id)?;
    let tables = no_tables(alloc, set.drives)?;
    let work = PartWork {
        place,
        begin,
        long: part.length,
        name,
        tables,
    };
    Ok(work)
}

/// The stripe of a part in which a place of the body is.
fn stripe_at(alloc: Global, set: &SetPlan, part: &PartWork, at: u64) -> StripeWork
    requires begun { part.now.begin ≤ at }
    requires ends { at < part.now.begin + part.now.long }
    ensures { IsFreshAt set.now part.now at result }
{
    let stripe = (at - part.begin) / STRIPE;
    let long = (part.long - stripe * STRIPE).min(STRIPE);
    StripeWork::new(alloc, set, stripe, block_len(set, long) as usize)
}

/// A table for each drive, none of them held.
fn no_tables(alloc: Global, drives: u8) -> Result<Vec<Vec<u8>>, AllocError>
    ensures count { IfOk result (λ tables. length tables.items ≡ drives) }
    ensures empty { IfOk result (λ tables. All (λ table. table.items ≡ []) tables.items) }
{
    let mut tables = Vec::with_capacity(alloc, drives as usize)?;
    for _ in 0..drives {
        tables.push(Vec::new(alloc))?;
    }
    Ok(tables)
}

/// The part of a body that has the byte at a place, and where that part begins.
fn part_with(parts: &[ManifestPart], at: u64) -> (usize, u64)
    requires { at < body_length parts.now }
    ensures inside { result.0 < length parts.now }
    ensures begins { result.1 ≡ body_length (take result.0 parts.now) }
    ensures begun { result.1 ≤ at }
    ensures ends { (d : ManifestPart) → at < result.1 + (slice_index_or parts.now result.0 d).length }
{
    let mut place = 0;
    let mut begin = 0;
    while at - begin >= parts[place].length {
        begin += parts[place].length;
        place += 1;
    }
    (place, begin)
}

/// A window of the stripes of a part from this one on that are whole and wanted, as many as fill four lanes of digests: four,
/// or fewer where a stripe has a number of blocks that four and it share a part of. Nothing where that is one stripe, or
/// no drive is in use.
fn window_at(alloc: Global, wanted: &Wanted, part: &PartWork, work: &StripeWork) -> Option<Window>
    requires tried { work.now.tried ≤ wanted.now.set.drives }
    requires in_use { work.now.tried < wanted.now.set.drives → IsBitSet wanted.now.set.out work.now.tried → ⊥ }
    requires begun { part.now.begin ≤ wanted.now.reach }
    requires inside { work.now.stripe * stripe_size ≤ part.now.long }
    ensures fits { FitsAhead wanted.now.set part.now.long work.now.stripe result }
    ensures none { HasNoRuns result }
{
    let stripe = work.stripe;
    let set = &wanted.set;
    let reach = (wanted.reach - part.begin).div_ceil(STRIPE).max(stripe);
    let most = (part.long / STRIPE).min(reach);
    let count = if most > stripe { most - stripe } else { 0 };
    let count = count.min(lanes_of(set.read_quorum()));
    if count < 2 || work.tried == set.drives {
        return None;
    }
    Some(Window {
        first: stripe,
        count: count as usize,
        size: block_len(set, STRIPE) as usize,
        tried: work.tried,
        rows: Vec::new(alloc),
        stored: Vec::new(alloc),
        bytes: Vec::new(alloc),
    })
}

/// How many stripes of so many blocks fill four lanes.
fn lanes_of(blocks: u8) -> u64
    ensures some { 1 ≤ result }
    ensures few { result ≤ 4 }
{
    if blocks % 4 == 0 {
        return 1;
    }
    if blocks % 2 == 0 {
        return 2;
    }
    4
}
