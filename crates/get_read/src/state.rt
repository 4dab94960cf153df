//! What a reader is asked for and what it is at: a part, a stripe of it, and the blocks of that stripe so far.

ghost use Rattle.std.specs.Prelude.{◌≡◌, ◌<◌, ◌≤◌, ◌+◌, ◌*◌, ℕ, All, [], length, slice_index_or, slice_set};
ghost use Rattle.call_types.specs.declared.why.Why.TheVariants.{Good};
ghost use Rattle.shard_file.specs.Stripes.{stripe_count};
ghost use Rattle.get_read.specs.Blocks.{AreAtHand, all_bytes};

use crate::blocks::{Blocks, add_block, are_enough, sift, stripe_of};
use crate::calls::{ShownBlock, past_out};
use crate::faults::BodyFault;
use crate::fetch::Fetching;
use crate::search::{Search, Wanted};
use call_types::{Span, Why, Whys};
use drive_base::SetPlan;
use manifest_file::Manifest;
use stamp_id::VersionId;
use std::alloc::{AllocError, Global};
use std::mem;

/// What a reader is asked for: the span of the body of an id. The manifest must reach to the span's end.
#[derive(Clone, Copy)]
pub struct Asked {
    /// What the manifest must have.
    pub wanted: Wanted,
    /// The id.
    pub id: VersionId,
    /// The span.
    pub span: Span,
    pub ghost end: { span.at + span.length ≡ wanted.reach },
}

/// What a reader is at.
#[derive(Drop)]
pub enum State {
    /// The search for the manifest.
    Searching(Search),
    /// A stripe.
    Fetching(Fetching),
    /// All of the span is given.
    Ended(Manifest),
    /// The reading was refused.
    Refused(BodyFault),
}

/// The part in which the next byte is, and the digest tables of its shards that are held.
#[derive(Drop)]
pub struct PartWork {
    /// Its number in the manifest.
    pub place: usize,
    /// Where it begins in the body.
    pub begin: u64,
    /// How many bytes it has.
    pub long: u64,
    /// The name of its shard files.
    pub name: String,
    /// The digest table of each drive, empty where it isn't held.
    pub tables: Vec<Vec<u8>>,
    pub ghost held: { (k : ℕ) → 0 < length (slice_index_or (all_bytes tables.items) k []) → length (slice_index_or (all_bytes tables.items) k []) ≡ 32 * stripe_count long },
}

impl PartWork {
    /// The digest table that is held of a drive, or nothing.
    pub fn table(&self, index: usize) -> &[u8]
        requires { index < length self.now.tables.items }
        ensures { result.now ≡ slice_index_or (all_bytes self.now.tables.items) index [] }
    {
        self.tables[index].as_slice()
    }

    /// Holds the digest table of a drive.
    pub fn hold(&mut self, index: usize, table: Vec<u8>)
        requires index { index < length self.old.tables.items }
        requires long { length table.items ≡ 32 * stripe_count self.old.long }
        ensures tables { self.new.tables.items ≡ slice_set self.old.tables.items index table }
        ensures place { self.new.place ≡ self.old.place }
        ensures begin { self.new.begin ≡ self.old.begin }
        ensures part_long { self.new.long ≡ self.old.long }
        ensures name { self.new.name ≡ self.old.name }
    {
        self.tables[index] = table;
    }
}

/// A stripe of a part, of which blocks are read, drive by drive.
#[derive(Drop)]
pub struct StripeWork {
    /// Its number in the part.
    pub stripe: u64,
    /// The size of its blocks.
    pub size: usize,
    /// How many drives are tried, those that are out included.
    pub tried: u8,
    /// Why drives that are tried gave no block.
    pub whys: Whys,
    /// The blocks so far.
    pub found: Blocks,
    pub ghost at_hand: { AreAtHand size found whys },
    pub ghost below: { All (λ row. row < tried) found.rows.items },
    pub ghost untried: { (k : ℕ) → tried ≤ k → slice_index_or whys k Good ≡ Good },
}

impl StripeWork {
    ghost use Rattle.std.specs.Prelude.{◌++◌, ◌∷◌, OnErr, OnOk, replicate};
    ghost use Rattle.drive_base.specs.Plan.{data_drives};
    ghost use Rattle.shard_file.specs.Stripes.{block_size};
    ghost use Rattle.get_read.specs.Stripes.{JudgesStripe};
    ghost use Rattle.get_read.specs.PassedDrives.{PassesDrive, PassesOver};

    /// A stripe of which no block is read.
    pub fn new(alloc: Global, set: &SetPlan, stripe: u64, size: usize) -> StripeWork
        ensures stripe { result.stripe ≡ stripe }
        ensures size { result.size ≡ size }
        ensures none { result.found.rows.items ≡ [] }
        ensures letters { PassesOver set.now 0 result.tried (replicate set.now.drives Good) result.whys }
    {
        let mut whys = Whys::all_good(set.drives);
        let tried = past_out(set, 0, &mut whys);
        StripeWork {
            stripe,
            size,
            tried,
            whys,
            found: no_blocks(alloc),
        }
    }

    /// Adds the block of the drive that was called last. For want of memory there are no blocks any more.
    pub fn add(
        &mut self,
        alloc: Global,
        set: &SetPlan,
        fetched: &ShownBlock,
    ) -> Result<(), AllocError>
        requires tried { self.old.tried < set.now.drives }
        requires letters { length self.old.whys ≡ set.now.drives }
        requires size { length fetched.now.block.items ≡ self.old.size }
        ensures rows { OnOk result (self.new.found.rows.items ≡ self.old.found.rows.items ++ self.old.tried ∷ []) }
        ensures stored { OnOk result (self.new.found.stored.items ≡ self.old.found.stored.items ++ fetched.now.stored ∷ []) }
        ensures bytes { OnOk result (self.new.found.bytes.items ≡ self.old.found.bytes.items ++ fetched.now.block.items) }
        ensures none { OnErr result (self.new.found.rows.items ≡ []) }
        ensures letters { OnOk result (PassesDrive set.now Good self.old.tried self.new.tried self.old.whys self.new.whys) }
        ensures untried { OnErr result ((self.new.whys ≡ self.old.whys) × (self.new.tried ≡ self.old.tried)) }
        ensures stripe { self.new.stripe ≡ self.old.stripe }
        ensures same_size { self.new.size ≡ self.old.size }
    {
        let mut found = mem::replace(&mut self.found, no_blocks(alloc));
        add_block(&mut found, self.tried, fetched)?;
        self.found = found;
        self.tried = past_out(set, self.tried + 1, &mut self.whys);
        Ok(())
    }

    /// Leaves the drive that was called last, with its letter.
    pub fn pass(&mut self, set: &SetPlan, why: Why)
        requires tried { self.old.tried < set.now.drives }
        requires letters { length self.old.whys ≡ set.now.drives }
        ensures letters { PassesDrive set.now why self.old.tried self.new.tried self.old.whys self.new.whys }
        ensures found { self.new.found ≡ self.old.found }
        ensures stripe { self.new.stripe ≡ self.old.stripe }
        ensures size { self.new.size ≡ self.old.size }
    {
        self.whys.set(self.tried as usize, why);
        self.tried = past_out(set, self.tried + 1, &mut self.whys);
    }

    /// The bytes of the stripe, so many, once enough blocks verify. `ShardQuorum` where no drive is left.
    pub fn judge(
        &mut self,
        alloc: Global,
        set: &SetPlan,
        long: usize,
    ) -> Result<Option<Vec<u8>>, BodyFault>
        requires tried { self.old.tried ≤ set.now.drives }
        requires letters { length self.old.whys ≡ set.now.drives }
        requires size { self.old.size ≡ block_size (data_drives set.now.drives set.now.parity) long }
        requires few { length self.old.found.rows.items ≤ data_drives set.now.drives set.now.parity }
        ensures judges { JudgesStripe set.now long result self.old self.new }
        ensures tried { self.new.tried ≡ self.old.tried }
        ensures counted { length self.new.whys ≡ length self.old.whys }
        ensures stripe { self.new.stripe ≡ self.old.stripe }
        ensures same_size { self.new.size ≡ self.old.size }
    {
        let wanted = set.read_quorum() as usize;
        if are_enough(&mut self.found, &mut self.whys, self.size, wanted) {
            let found = mem::replace(&mut self.found, no_blocks(alloc));
            let bytes = stripe_of(alloc, set, found, self.size, long)?;
            return Ok(Some(bytes));
        }
        if self.tried < set.drives {
            return Ok(None);
        }
        sift(&mut self.found, &mut self.whys, self.size);
        Err(BodyFault::ShardQuorum(self.whys))
    }
}

/// No blocks.
fn no_blocks(alloc: Global) -> Blocks
    ensures rows { result.rows.items ≡ [] }
    ensures stored { result.stored.items ≡ [] }
    ensures bytes { result.bytes.items ≡ [] }
{
    Blocks {
        rows: Vec::new(alloc),
        stored: Vec::new(alloc),
        bytes: Vec::new(alloc),
    }
}
