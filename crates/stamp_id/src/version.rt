//! Version ids and their bytes.

ghost use Rattle.std.specs.Prelude.{◌≡◌, ◌<◌, ◌≤◌, ◌↔◌, IsOk, IfOk};

use crate::error::NotAnId;
use crate::stamp::{Ballot, ChangeId};
use crate::words;

/// The id of a version: the change that made it, and the slot of the key's register.
#[derive(Clone, Copy, PartialEq, Eq, Hash)]
pub struct VersionId {
    /// The change. Its term and its sequence number are at least 1.
    pub change: ChangeId,
    /// The slot, below 64.
    pub slot: u8,
    pub ghost slot_fits: { slot < 64 },
    pub ghost term_counts: { 1 ≤ change.0.term },
    pub ghost seq_counts: { 1 ≤ change.0.seq },
}

impl VersionId {
    ghost use Rattle.stamp_id.specs.Layout.{IsId};
    ghost use Rattle.stamp_id.specs.VersionId.{id_bytes};
    ghost use Rattle.stamp_id.specs.declared.version.VersionId.{VersionId};

    /// The id of a change in the register of a slot.
    pub fn from_parts(change: ChangeId, slot: u8) -> VersionId
        requires slot { slot < 64 }
        requires term { 1 ≤ change.0.term }
        requires seq { 1 ≤ change.0.seq }
        ensures change { result.change ≡ change }
        ensures slot { result.slot ≡ slot }
    {
        VersionId { change, slot }
    }

    /// The sixteen bytes: a UUID of version 8 (RFC 9562, section 5.8) whose custom_a is the term, whose
    /// custom_b is the slot and whose custom_c is the sequence number.
    #[tactic(auto, unfolding(crate::specs::VersionId::id_bytes))]
    pub fn bytes(&self) -> [u8; 16]
        ensures { result ≡ id_bytes self.now }
    {
        let Ballot { term, seq } = self.change.0;
        // 48 bits of the term, 4 of the version and 12 of the slot; 2 of the variant and 62 of the seq.
        let high = term * 0x1_0000 + 0x8000 + self.slot as u64;
        words::to_bytes(high, 0x8000_0000_0000_0000 + seq)
    }

    /// The id with these bytes. Bytes are those of an id exactly where the version is 8, the variant 10,
    /// the slot below 64, and the term and the sequence number at least 1; else the answer is `NotAnId`.
    #[tactic(auto, unfolding(crate::specs::VersionId::id_bytes))]
    pub fn from_bytes(bytes: [u8; 16]) -> Result<VersionId, NotAnId>
        ensures ok { IfOk result (λ v. bytes ≡ id_bytes v) }
        ensures reads { (v : VersionId) → bytes ≡ id_bytes v → result ≡ Ok v }
        ensures layout { IsOk result ↔ IsId bytes }
    {
        let (high, low) = words::from_bytes(bytes);
        let (term, slot, seq) = (high >> 16, high % 0x1000, low % 0x4000_0000_0000_0000);
        if (high >> 12) % 16 != 8 || low >> 62 != 2 || slot >= 64 || term == 0 || seq == 0 {
            return Err(NotAnId);
        }
        let change = ChangeId(Ballot { term, seq });
        Ok(VersionId::from_parts(change, slot as u8))
    }
}
