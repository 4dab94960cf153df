//! Windows: the blocks of whole stripes that follow one another, or of one stripe, drive by drive, coded in place.

ghost use Rattle.std.specs.Prelude.{◌≡◌, ◌+◌, ◌*◌, ◌≤◌, [], length, ◌⊎◌, ◌++◌, ◌<◌, IfOk, OnOk, slice_index_or};
ghost use Rattle.put_stage.specs.StripeBlocks.{block_at, IsCoded, HasParity};
ghost use Rattle.put_stage.specs.Windows.{window_stripes, AreWholeStripes, IsWindow, data_run, data_runs};
ghost use Rattle.std.specs.List.{concat};
ghost use Rattle.drive_base.specs.Plan.{data_drives};
ghost use Rattle.shard_file.specs.Stripes.{data_blocks, stripe_size};

use drive_base::SetPlan;
use poly_code::encode;
use shard_file::{STRIPE, block_digests, block_len};
use std::alloc::{AllocError, Global};

/// The blocks of a stripe, or of whole ones that follow one another, and the SHA-256 of each. Those of one drive adjoin, as
/// in its shard file. First come those of the data drives.
#[derive(Drop)]
pub struct Window {
    /// How many stripes.
    pub count: usize,
    /// The bytes of the blocks of a drive.
    pub size: usize,
    /// The blocks.
    pub blocks: Vec<u8>,
    /// Their digests.
    pub digests: Vec<[u8; 32]>,
}

impl Window {
    /// A window of no stripe, of no drive.
    pub fn none(alloc: Global) -> Window
        ensures short { result.size ≡ 0 }
        ensures none { result.blocks.items ≡ [] }
    {
        Window {
            count: 0,
            size: 0,
            blocks: Vec::new(alloc),
            digests: Vec::new(alloc),
        }
    }

    /// A window of one stripe.
    pub fn of(stripe: Stripe) -> Window
        ensures { result ≡ record { count = 1; size = stripe.size; blocks = stripe.blocks; digests = stripe.digests } }
    {
        Window {
            count: 1,
            size: stripe.size,
            blocks: stripe.blocks,
            digests: stripe.digests,
        }
    }

    /// The blocks of a drive.
    pub fn block(&self, number: usize) -> &[u8]
        requires { self.now.size * (number + 1) ≤ length self.now.blocks.items }
        ensures { result.now ≡ block_at number self.now }
    {
        let from = self.size * number;
        &self.blocks.as_slice()[from..from + self.size]
    }
}

/// The most stripes of a window over so many drives: as few as fill four lanes of digests, so that no lane is idle.
pub fn window_stripes(drives: u8) -> usize
    ensures { result ≡ window_stripes drives }
{
    if drives % 4 == 0 {
        return 1;
    }
    if drives % 2 == 0 {
        return 2;
    }
    4
}

/// A stripe's blocks, one after another, the data blocks first, and the SHA-256 of each.
#[derive(Drop)]
pub struct Stripe {
    /// The bytes of a block.
    pub size: usize,
    /// The blocks.
    pub blocks: Vec<u8>,
    /// Their digests.
    pub digests: Vec<[u8; 32]>,
}

/// Codes successive whole stripes, or one stripe.
pub fn coded_window(alloc: Global, set: &SetPlan, bytes: Vec<u8>) -> Result<Window, AllocError>
    requires some { 0 < length bytes.items }
    requires few { length bytes.items ≤ 4 * stripe_size }
    requires whole { AreWholeStripes (length bytes.items) ⊎ (length bytes.items ≤ stripe_size) }
    ensures { IfOk result (λ window. IsWindow set.now.drives (data_drives set.now.drives set.now.parity) bytes.items window) }
{
    if bytes.len() > STRIPE as usize {
        return coded_together(alloc, set, bytes.as_slice());
    }
    let stripe = coded(alloc, set, bytes)?;
    Ok(Window::of(stripe))
}

/// Codes a stripe: its bytes are filled up with zeros to the data blocks, and the parity is made behind them.
fn coded(alloc: Global, set: &SetPlan, stripe: Vec<u8>) -> Result<Stripe, AllocError>
    requires { length stripe.items ≤ stripe_size }
    ensures { IfOk result (λ coded. IsCoded set.now.drives (data_drives set.now.drives set.now.parity) stripe.items coded) }
{
    let size = block_len(set, stripe.len() as u64) as usize;
    let mut blocks = stripe;
    blocks.resize(size * set.read_quorum() as usize, 0)?;
    blocks.resize(size * set.drives as usize, 0)?;
    add_parity(set, size, blocks.as_mut_slice());
    let mut digests = vec![in alloc; [0; 32]; set.drives as usize]?;
    block_digests(blocks.as_slice(), size, digests.as_mut_slice());
    Ok(Stripe {
        size,
        blocks,
        digests,
    })
}

/// Codes successive whole stripes: the blocks of each data drive are put side by side, and the parity is made behind them
/// at once, since it is made byte by byte.
fn coded_together(alloc: Global, set: &SetPlan, bytes: &[u8]) -> Result<Window, AllocError>
    requires few { length bytes.now ≤ 4 * stripe_size }
    requires whole { AreWholeStripes (length bytes.now) }
    ensures { IfOk result (λ window. IsWindow set.now.drives (data_drives set.now.drives set.now.parity) bytes.now window) }
{
    let count = bytes.len() / STRIPE as usize;
    let block = block_len(set, STRIPE) as usize;
    let size = count * block;
    let drives = set.drives as usize;
    let mut blocks = Vec::with_capacity(alloc, size * drives)?;
    add_data(set, count, bytes, &mut blocks)?;
    blocks.resize(size * drives, 0)?;
    add_parity(set, size, blocks.as_mut_slice());
    let mut digests = vec![in alloc; [0; 32]; count * drives]?;
    block_digests(blocks.as_slice(), block, digests.as_mut_slice());
    Ok(Window {
        count,
        size,
        blocks,
        digests,
    })
}

/// Adds the data blocks of so many whole stripes, drive by drive.
fn add_data(set: &SetPlan, count: usize, bytes: &[u8], into: &mut Vec<u8>) -> Result<(), AllocError>
    requires few { count ≤ 4 }
    requires whole { length bytes.now ≡ stripe_size * count }
    ensures { OnOk result (into.new.items ≡ into.old.items ++ data_runs (data_drives set.now.drives set.now.parity) count bytes.now) }
{
    for drive in 0..set.read_quorum() {
        add_run(set, drive, count, bytes, into)?;
    }
    Ok(())
}

/// Adds the blocks that a data drive has of so many whole stripes.
fn add_run(
    set: &SetPlan,
    drive: u8,
    count: usize,
    bytes: &[u8],
    into: &mut Vec<u8>,
) -> Result<(), AllocError>
    requires low { drive < data_drives set.now.drives set.now.parity }
    requires few { count ≤ 4 }
    requires whole { length bytes.now ≡ stripe_size * count }
    ensures { OnOk result (into.new.items ≡ into.old.items ++ concat (data_run (data_drives set.now.drives set.now.parity) count bytes.now drive)) }
{
    for number in 0..count {
        let from = number * STRIPE as usize;
        let stripe = &bytes[from..from + STRIPE as usize];
        add_block(set, drive, stripe, into)?;
    }
    Ok(())
}

/// Adds the block that a data drive has of a stripe. What it lacks of its size is filled up with zeros.
fn add_block(set: &SetPlan, drive: u8, stripe: &[u8], into: &mut Vec<u8>) -> Result<(), AllocError>
    requires low { drive < data_drives set.now.drives set.now.parity }
    requires few { length stripe.now ≤ stripe_size }
    ensures { let d = data_drives set.now.drives set.now.parity in
        OnOk result (into.new.items ≡ into.old.items ++ slice_index_or (data_blocks d stripe.now) drive []) }
{
    let size = block_len(set, stripe.len() as u64) as usize;
    let from = stripe.len().min(size * drive as usize);
    let to = stripe.len().min(from + size);
    let end = into.len() + size;
    into.extend_from_slice(&stripe[from..to])?;
    into.resize(end, 0)?;
    Ok(())
}

/// Makes the parity behind the data blocks, of this size each.
fn add_parity(set: &SetPlan, size: usize, blocks: &mut [u8])
    requires { length blocks.old ≡ size * set.now.drives }
    ensures { HasParity set.now.drives set.now.parity size blocks.old blocks.new }
{
    let front = size * set.read_quorum() as usize;
    let (data, parity) = blocks.split_at_mut(front);
    encode(*set, data, parity);
}
