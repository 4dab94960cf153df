//! How a stage takes its body: a window of whole stripes a fill.

ghost use Rattle.std.specs.Prelude.{◌≡◌, ◌+◌, ◌<◌, ◌≤◌, ◌*◌, [], OnOk, Ok, length, take};
ghost use Rattle.shard_file.specs.Stripes.{stripe_size};
ghost use Rattle.put_stage.specs.StripeBlocks.{all_bytes};
ghost use Rattle.put_stage.specs.Fills.{AddsDigests, AreDueAfter, LoadTakes, PieceTakes, ReadTakes};
ghost use Rattle.put_stage.specs.Left.{calls_left};
ghost use Rattle.put_stage.specs.Steps.{MayFill};
ghost use Rattle.put_stage.specs.TakenBodies.{FillCause, FillTakes};
ghost use Rattle.put_stage.specs.Windows.{IsNextLength};

use crate::answers::StageFault;
use crate::dues::Due;
use crate::manifests::conclude;
use crate::stage::{Load, Stage};
use crate::windows::{Window, coded_window, window_stripes};
use call_types::{Cut, Feed, Whys};
use drive_base::SetPlan;
use md5::{Digest, Md5};
use shard_file::{STRIPE, block_len};
use std::alloc::{AllocError, Global};
use std::mem;

/// The bytes that are asked of a feed at once.
const PIECE: usize = 16384;

impl Stage {
    /// Takes the next whole stripes of the body from the feed, as many as fill four lanes of digests or are left, or the last,
    /// shorter stripe. It codes them, and lets their blocks be appended to the shard files. Where no byte is left the manifest
    /// is made, and the MD5 is compared with the one that was stated. `BodyCut` where the feed ended before its stated length,
    /// `ReadFault` where its source failed, `NoMemory`; after these the stage is of no use but to say how many bytes it took.
    pub fn fill<F: Feed>(&mut self, alloc: Global, feed: &mut F) -> Result<(), StageFault>
        requires next { MayFill self.old }
        requires feed { (F.seen feed.old).given + self.old.load.left ≡ (F.seen feed.old).stated }
        ensures takes { FillTakes result self.old self.new (F.seen feed.old) (F.seen feed.new) }
        ensures fewer { OnOk result (calls_left self.new < calls_left self.old) }
        ensures cause { FillCause result (F.seen feed.new) (F.faults feed.old) (F.faults feed.new) }
    {
        take_window(alloc, &mut self.load, feed)?;
        append_next(&mut self.dues, &self.whys);
        Ok(())
    }

    /// How many bytes of the body are not yet taken of its feed, also after a fill that was refused. It takes no memory.
    pub fn left(&self) -> u64
        ensures { result ≡ self.now.load.left }
    {
        self.load.left
    }
}

/// The next call on each drive that serves is that of its block.
fn append_next(dues: &mut [Due; 16], whys: &Whys)
    ensures { AreDueAfter whys.now dues.old dues.new }
{
    for index in 0..whys.len() {
        if whys.get(index).is_good() {
            dues[index] = Due::Block;
        }
    }
}

/// Takes the next window.
fn take_window<F: Feed>(alloc: Global, load: &mut Load, feed: &mut F) -> Result<(), StageFault>
    requires some { 0 < load.old.left }
    requires feed { (F.seen feed.old).given + load.old.left ≡ (F.seen feed.old).stated }
    ensures takes { LoadTakes result load.old load.new (F.seen feed.old) (F.seen feed.new) }
    ensures set { load.new.set ≡ load.old.set }
    ensures cause { FillCause result (F.seen feed.new) (F.faults feed.old) (F.faults feed.new) }
{
    // The last window is given back first, so that no two are held.
    load.window = Window::none(alloc);
    let long = next_len(&load.set, load.left);
    let mut bytes = Vec::with_capacity(alloc, room_of(&load.set, long))?;
    read_into(feed, long as usize, &mut load.left, &mut bytes)?;
    load.hasher.update(bytes.as_slice());
    let window = coded_window(alloc, &load.set, bytes)?;
    add_digests(
        load.tables.as_mut_slice(),
        window.digests.as_slice(),
        window.count,
    )?;
    load.window = window;
    if load.left > 0 {
        return Ok(());
    }
    let hasher = mem::replace(&mut load.hasher, Md5::new());
    load.made = conclude(alloc, load, hasher.finalize())?;
    Ok(())
}

/// How many bytes are taken next of so many that are left.
fn next_len(set: &SetPlan, left: u64) -> u64
    ensures { IsNextLength set.now.drives left result }
{
    let whole = (left / STRIPE).min(window_stripes(set.drives) as u64);
    if whole == 0 {
        return left;
    }
    whole * STRIPE
}

/// The room of a buffer for so many bytes: what is no longer than a stripe is coded in place.
fn room_of(set: &SetPlan, long: u64) -> usize
    requires { long ≤ 4 * stripe_size }
{
    if long > STRIPE {
        return long as usize;
    }
    block_len(set, long) as usize * set.drives as usize
}

/// Adds the next digests to each digest table, so many to one.
fn add_digests(tables: &mut [Vec<u8>], digests: &[[u8; 32]], count: usize) -> Result<(), AllocError>
    requires { length digests.now ≡ count * length tables.old }
    ensures { OnOk result (AddsDigests (length tables.old) count digests.now (all_bytes tables.old) (all_bytes tables.new)) }
{
    let mut rest = digests;
    for table in tables.iter_mut() {
        let (next, after) = rest.split_at(count);
        table.extend_from_slice(next.as_flattened())?;
        rest = after;
    }
    Ok(())
}

/// Takes so many bytes of a feed, at most as many as its stated length leaves, and counts them off those that are left.
fn read_into<F: Feed>(
    feed: &mut F,
    count: usize,
    left: &mut u64,
    into: &mut Vec<u8>,
) -> Result<(), StageFault>
    requires empty { into.old.items ≡ [] }
    requires few { count ≤ left.old }
    requires feed { (F.seen feed.old).given + left.old ≡ (F.seen feed.old).stated }
    ensures gave { ReadTakes result count left.old left.new into.new.items (F.seen feed.old) (F.seen feed.new) }
    ensures cause { FillCause result (F.seen feed.new) (F.faults feed.old) (F.faults feed.new) }
{
    while into.len() < count {
        let room = count - into.len();
        take_piece(feed, room.min(PIECE), left, into)?;
    }
    Ok(())
}

/// Takes the next bytes of a feed, at most so many, counts them off those that are left, and adds them.
fn take_piece<F: Feed>(
    feed: &mut F,
    most: usize,
    left: &mut u64,
    into: &mut Vec<u8>,
) -> Result<(), StageFault>
    requires some { 0 < most }
    requires few { most ≤ PIECE }
    requires fits { most ≤ left.old }
    requires feed { (F.seen feed.old).given + left.old ≡ (F.seen feed.old).stated }
    ensures more { PieceTakes result most left.old left.new into.old.items into.new.items (F.seen feed.old) (F.seen feed.new) }
    ensures cause { FillCause result (F.seen feed.new) (F.faults feed.old) (F.faults feed.new) }
{
    let mut piece = [0; PIECE];
    match feed.take(&mut piece[..most]) {
        Ok(count) => {
            *left -= count as u64;
            into.extend_from_slice(&piece[..count])?;
            Ok(())
        }
        Err(Cut::BodyCut { .. }) => Err(StageFault::BodyCut),
        Err(_) => Err(StageFault::ReadFault),
    }
}
