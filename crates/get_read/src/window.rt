//! Windows: whole stripes of a part whose blocks are read together, verified together, and made stripes of.

ghost use Rattle.std.specs.Prelude.{◌≡◌, ◌<◌, ◌≤◌, ◌*◌, [], ℕ, All, IsTrue, length, slice_index_or};
ghost use Rattle.poly_code.specs.Codeword.{AreDistinct};
ghost use Rattle.shard_file.specs.Stripes.{piece, stripe_size};

use crate::blocks::{Blocks, add_stripe, are_data};
use drive_base::SetPlan;
use shard_file::{STRIPE, block_digests};
use std::alloc::{AllocError, Global};

/// The most blocks of a window: those of four stripes on fifteen drives.
const MOST_BLOCKS: usize = 64;

/// Whole stripes of a part that follow one another, of which blocks are read, drive by drive. The blocks of a drive for
/// them adjoin in its shard file, and one call reads them all: they are a row.
#[derive(Drop)]
pub struct Window {
    /// The first stripe.
    pub first: u64,
    /// How many stripes.
    pub count: usize,
    /// The size of a block.
    pub size: usize,
    /// How many drives are tried, those that are out included.
    pub tried: u8,
    /// The drives that gave their blocks, rising.
    pub rows: Vec<u8>,
    /// The digests that each drive's table has for its blocks, row by row.
    pub stored: Vec<u8>,
    /// The blocks, row by row.
    pub bytes: Vec<u8>,
    pub ghost few: { count ≤ 4 },
    pub ghost small: { size ≤ stripe_size },
    pub ghost hashes: { length stored.items ≡ length rows.items * count * 32 },
    pub ghost long: { length bytes.items ≡ length rows.items * count * size },
    pub ghost below: { All (λ row. row < tried) rows.items },
    pub ghost distinct: { AreDistinct rows.items },
}

/// What a call for a window gave.
#[derive(Drop)]
pub enum WindowFind {
    /// The digest table of a drive's shard.
    Table(Vec<u8>),
    /// A drive's blocks.
    Run(Vec<u8>),
}

impl Window {
    ghost use Rattle.std.specs.Prelude.{◌+◌, IfOk, OnOk, slice_index};
    ghost use Rattle.drive_base.specs.Plan.{data_drives};
    ghost use Rattle.shard_file.specs.Stripes.{block_size};
    ghost use Rattle.get_read.specs.Windows.{AddsStripe, AreRebuilt, TookRun, Verifies, digests_in, run_block};

    /// With the blocks of the next drive, whose digest table is this.
    pub fn with_run(self, run: &[u8], table: &[u8]) -> Result<Window, AllocError>
        requires tried { self.tried < 255 }
        requires run { length run.now ≡ self.count * self.size }
        requires table { 32 * (self.first + self.count) ≤ length table.now }
        ensures took { IfOk result (λ window. TookRun self window run.now (digests_in table.now self.first self.count)) }
        ensures tried { IfOk result (λ window. window.tried ≡ self.tried + 1) }
    {
        let from = 32 * self.first as usize;
        let digests = &table[from..from + 32 * self.count];
        let Window {
            first,
            count,
            size,
            tried,
            mut rows,
            mut stored,
            mut bytes,
        } = self;
        rows.push(tried)?;
        stored.extend_from_slice(digests)?;
        bytes.extend_from_slice(run)?;
        Ok(Window {
            first,
            count,
            size,
            tried: tried + 1,
            rows,
            stored,
            bytes,
        })
    }

    /// Whether each block has its digest. They are computed together.
    pub fn verifies(&self) -> bool
        requires { length self.now.rows.items ≤ 16 }
        ensures { IsTrue result → Verifies self.now }
    {
        let mut digests = [[0; 32]; MOST_BLOCKS];
        let digests = &mut digests[..self.rows.len() * self.count];
        block_digests(self.bytes.as_slice(), self.size, digests);
        are_stored(digests, self.stored.as_slice())
    }

    /// The bytes of the stripes.
    pub fn rebuild(&self, alloc: Global, set: &SetPlan) -> Result<Vec<u8>, AllocError>
        requires rows { length self.now.rows.items ≡ data_drives set.now.drives set.now.parity }
        requires below { self.now.tried ≤ set.now.drives }
        requires size { self.now.size ≡ block_size (data_drives set.now.drives set.now.parity) stripe_size }
        ensures { IfOk result (λ bytes. AreRebuilt set.now self.now bytes.items) }
    {
        let mut bytes = Vec::with_capacity(alloc, self.bytes.len())?;
        for stripe in 0..self.count {
            self.add_one(alloc, set, stripe, &mut bytes)?;
        }
        Ok(bytes)
    }

    /// Adds the bytes of one of the stripes.
    fn add_one(
        &self,
        alloc: Global,
        set: &SetPlan,
        stripe: usize,
        body: &mut Vec<u8>,
    ) -> Result<(), AllocError>
        requires stripe { stripe < self.now.count }
        requires rows { length self.now.rows.items ≡ data_drives set.now.drives set.now.parity }
        requires below { self.now.tried ≤ set.now.drives }
        requires size { self.now.size ≡ block_size (data_drives set.now.drives set.now.parity) stripe_size }
        ensures { OnOk result (AddsStripe set.now self.now stripe body.old.items body.new.items) }
    {
        if are_data(self.rows.as_slice()) {
            return self.add_data(set, stripe, body);
        }
        let blocks = self.blocks_of(alloc, stripe)?;
        add_stripe(alloc, set, &blocks, self.size, STRIPE as usize, body)?;
        Ok(())
    }

    /// Adds the bytes of one of the stripes, whose data blocks are at hand.
    fn add_data(&self, set: &SetPlan, stripe: usize, body: &mut Vec<u8>) -> Result<(), AllocError>
        requires stripe { stripe < self.now.count }
        requires rows { length self.now.rows.items ≡ data_drives set.now.drives set.now.parity }
        requires own { (j : ℕ) → j < length self.now.rows.items → slice_index self.now.rows.items j ≡ j }
        requires size { self.now.size ≡ block_size (data_drives set.now.drives set.now.parity) stripe_size }
        ensures { OnOk result (AddsStripe set.now self.now stripe body.old.items body.new.items) }
    {
        let wanted = body.len() + STRIPE as usize;
        for row in 0..set.read_quorum() as usize {
            let from = (row * self.count + stripe) * self.size;
            body.extend_from_slice(&self.bytes.as_slice()[from..from + self.size])?;
        }
        body.truncate(wanted);
        Ok(())
    }

    /// The blocks of one of the stripes.
    fn blocks_of(&self, alloc: Global, stripe: usize) -> Result<Blocks, AllocError>
        requires { stripe < self.now.count }
        ensures rows { IfOk result (λ blocks. blocks.rows.items ≡ self.now.rows.items) }
        ensures long { IfOk result (λ blocks. length blocks.bytes.items ≡ length self.now.rows.items * self.now.size) }
        ensures blocks { IfOk result (λ blocks. (j : ℕ) → j < length self.now.rows.items → piece self.now.size blocks.bytes.items j ≡ run_block self.now j stripe) }
    {
        let mut bytes = Vec::new(alloc);
        for row in 0..self.rows.len() {
            let from = (row * self.count + stripe) * self.size;
            bytes.extend_from_slice(&self.bytes.as_slice()[from..from + self.size])?;
        }
        Ok(Blocks {
            rows: Vec::from_slice(alloc, self.rows.as_slice())?,
            stored: Vec::new(alloc),
            bytes,
        })
    }
}

/// Whether these digests are those that are stored, one after another.
fn are_stored(digests: &[[u8; 32]], stored: &[u8]) -> bool
    requires { length stored.now ≡ length digests.now * 32 }
    ensures { IsTrue result → (k : ℕ) → k < length digests.now → piece 32 stored.now k ≡ slice_index_or digests.now k [] }
{
    for place in 0..digests.len() {
        let at = 32 * place;
        if &stored[at..at + 32] != digests[place].as_slice() {
            return false;
        }
    }
    true
}
