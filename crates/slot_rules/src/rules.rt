//! The rules of contents.

ghost use Rattle.std.specs.Prelude.{◌≡◌, ◌≤◌, Option, Some, None, MatchOption, IfOk, length};
ghost use Rattle.bucket_book.specs.Content.{content_fault};
ghost use Rattle.register_core.specs.Contents.{IsChecked};
ghost use Rattle.slot_history.specs.Contents.{SpellsBucket, SpellsPart};
ghost use Rattle.upload_book.specs.Content.{content_fault as part_fault};
ghost use Rattle.version_list.specs.Spelling.{spelling};
ghost use Rattle.version_list.specs.State.{IsCanonical};
ghost use Rattle.slot_rules.specs.Rules.{IsRead, NamesNone, key_fault, named_place};

use bucket_book::{BucketRecord, row_laws};
use call_types::{ListFault, PartRecord};
use register_core::{ContentFault, ContentRule};
use stamp_id::VersionId;
use std::alloc::Global;
use upload_book::row_laws as part_laws;
use version_list::{KeyState, place_of_id, state_laws};

/// The most bytes of a key's content: 10,000 versions of 371 bytes, 1,000 uploads of 280, and two counts.
pub const KEY_BYTES: u64 = 3_990_008;

/// The most bytes of a bucket's content.
pub const BUCKET_BYTES: u64 = 9;

/// The most bytes of a part's content.
pub const PART_BYTES: u64 = 80;

/// The row of a bucket's content.
fn read_bucket(alloc: Global, content: &[u8]) -> Result<Option<BucketRecord>, ContentFault>
    ensures answer { IsChecked (content_fault content.now) result }
    ensures within { IfOk result (λ _. length content.now ≤ BUCKET_BYTES) }
    ensures read { IfOk result (λ row. SpellsBucket content.now row) }
{
    row_laws();
    match bucket_book::read(alloc, content) {
        Ok(row) => Ok(row),
        Err(ListFault::NotCanonical(place)) => Err(ContentFault::At(place)),
        Err(ListFault::NoMemory) => Err(ContentFault::NoMemory),
    }
}

/// The row of a part's content.
fn read_part(alloc: Global, content: &[u8]) -> Result<Option<PartRecord>, ContentFault>
    ensures answer { IsChecked (part_fault content.now) result }
    ensures within { IfOk result (λ _. length content.now ≤ PART_BYTES) }
    ensures read { IfOk result (λ row. SpellsPart content.now row) }
{
    part_laws();
    match upload_book::read(alloc, content) {
        Ok(row) => Ok(row),
        Err(ListFault::NotCanonical(place)) => Err(ContentFault::At(place)),
        Err(ListFault::NoMemory) => Err(ContentFault::NoMemory),
    }
}

/// The place where a state first names this id, if there is one and it names it.
fn place_in(state: &KeyState, id: Option<VersionId>) -> Option<u64>
    requires { IsCanonical state.now }
    ensures place { result ≡ named_place id (spelling state.now) }
    ensures none { MatchOption result (NamesNone id state.now) (λ _. Unit {0}) }
{
    match id {
        None => None,
        Some(id) => place_of_id(state, id),
    }
}

/// The state of a key's content, which names neither id.
fn read_key(
    alloc: Global,
    content: &[u8],
    first: Option<VersionId>,
    second: Option<VersionId>,
) -> Result<KeyState, ContentFault>
    ensures answer { IsChecked (key_fault first second content.now) result }
    ensures within { IfOk result (λ _. length content.now ≤ KEY_BYTES) }
    ensures read { IfOk result (λ state. IsRead first second content.now state) }
{
    let state = match version_list::read(alloc, content) {
        Ok(state) => state,
        Err(ListFault::NotCanonical(place)) => return Err(ContentFault::At(place)),
        Err(ListFault::NoMemory) => return Err(ContentFault::NoMemory),
    };
    match place_in(&state, first) {
        None => {}
        Some(place) => return Err(ContentFault::At(place)),
    }
    match place_in(&state, second) {
        None => Ok(state),
        Some(place) => Err(ContentFault::At(place)),
    }
}

/// The contents of a register at which a section looks: those of a bucket, or of a key.
#[derive(Drop)]
pub struct LookRule {
    /// Whether it is a bucket's.
    pub bucket: bool,
}

impl ContentRule for LookRule {
    ghost use Rattle.std.specs.Prelude.{None, if◌then◌else◌};
    ghost use Rattle.bucket_book.specs.Content.{content_fault};
    ghost use Rattle.slot_rules.specs.Rules.{key_fault};
    ghost use Rattle.slot_rules.specs.declared.rules.TheConstants.{BUCKET_BYTES, KEY_BYTES};

    ghost fault_in = { λ rule content. if rule.bucket then content_fault content else key_fault None None content };

    ghost most_bytes = { λ rule. if rule.bucket then BUCKET_BYTES else KEY_BYTES };

    ghost has_read = { λ _ _. Unit {0} };

    fn longest(&self) -> u64 {
        if self.bucket { BUCKET_BYTES } else { KEY_BYTES }
    }

    fn check(&mut self, alloc: Global, content: &[u8]) -> Result<(), ContentFault> {
        if self.bucket {
            match read_bucket(alloc, content) {
                Ok(_) => Ok(()),
                Err(fault) => Err(fault),
            }
        } else {
            match read_key(alloc, content, None, None) {
                Ok(_) => Ok(()),
                Err(fault) => Err(fault),
            }
        }
    }
}

/// The contents of a key's register that name none of these ids. The rule keeps the state that it read.
#[derive(Drop)]
pub struct KeyRule {
    /// An id that the change may make.
    pub first: Option<VersionId>,
    /// Another one.
    pub second: Option<VersionId>,
    /// The state that was read last.
    pub state: Option<KeyState>,
}

impl ContentRule for KeyRule {
    ghost use Rattle.std.specs.Prelude.{◌≡◌, Some};
    ghost use Rattle.version_list.specs.declared.state.KeyState.{KeyState};
    ghost use Rattle.slot_rules.specs.Rules.{IsRead, key_fault};
    ghost use Rattle.slot_rules.specs.declared.rules.TheConstants.{KEY_BYTES};

    ghost fault_in = { λ rule content. key_fault rule.first rule.second content };

    ghost most_bytes = { λ _. KEY_BYTES };

    ghost has_read = { λ rule content. (state : KeyState) × (rule.state ≡ Some state) × IsRead rule.first rule.second content state };

    fn longest(&self) -> u64 {
        KEY_BYTES
    }

    fn check(&mut self, alloc: Global, content: &[u8]) -> Result<(), ContentFault> {
        match read_key(alloc, content, self.first, self.second) {
            Ok(state) => {
                self.state = Some(state);
                Ok(())
            }
            Err(fault) => Err(fault),
        }
    }
}

/// The contents of a bucket's register. The rule keeps the row that it read.
#[derive(Drop)]
pub struct BucketRule {
    /// The row that was read last.
    pub row: Option<BucketRecord>,
}

impl ContentRule for BucketRule {
    ghost use Rattle.bucket_book.specs.Content.{content_fault};
    ghost use Rattle.slot_history.specs.Contents.{SpellsBucket};
    ghost use Rattle.slot_rules.specs.declared.rules.TheConstants.{BUCKET_BYTES};

    ghost fault_in = { λ _ content. content_fault content };

    ghost most_bytes = { λ _. BUCKET_BYTES };

    ghost has_read = { λ rule content. SpellsBucket content rule.row };

    fn longest(&self) -> u64 {
        BUCKET_BYTES
    }

    fn check(&mut self, alloc: Global, content: &[u8]) -> Result<(), ContentFault> {
        match read_bucket(alloc, content) {
            Ok(row) => {
                self.row = row;
                Ok(())
            }
            Err(fault) => Err(fault),
        }
    }
}

/// The contents of a part's register. The rule keeps the row that it read.
#[derive(Drop)]
pub struct PartRule {
    /// The row that was read last.
    pub row: Option<PartRecord>,
}

impl ContentRule for PartRule {
    ghost use Rattle.upload_book.specs.Content.{content_fault as part_fault};
    ghost use Rattle.slot_history.specs.Contents.{SpellsPart};
    ghost use Rattle.slot_rules.specs.declared.rules.TheConstants.{PART_BYTES};

    ghost fault_in = { λ _ content. part_fault content };

    ghost most_bytes = { λ _. PART_BYTES };

    ghost has_read = { λ rule content. SpellsPart content rule.row };

    fn longest(&self) -> u64 {
        PART_BYTES
    }

    fn check(&mut self, alloc: Global, content: &[u8]) -> Result<(), ContentFault> {
        match read_part(alloc, content) {
            Ok(row) => {
                self.row = row;
                Ok(())
            }
            Err(fault) => Err(fault),
        }
    }
}
